//! The program `lb_bench`: it measures what only Rattle can call, and writes nanoseconds a call to
//! standard error. tools/measure/bench measures what lines can say, and tools/measure/instructions
//! what a query takes. With the argument `messages` it reads queries, makes their answers and
//! surveys replies; with `streams` it feeds streams and writes them; with `outbox` it sends jobs and
//! receives them; with `framers` it holds 1,024 streams that announce more than they send, so that
//! their memory can be measured. With no argument it does nothing.
#![tactic(auto)]

mod jobs;
mod messages;
mod streams;

use jobs::time_jobs;
use messages::time_messages;
use std::sync::Wait;
use std::{env, io};
use streams::{hold_framers, time_streams};

fn main(rt: HostRuntime) -> io::Result<()> {
    match env::args(&rt)?.nth(1) {
        Some(word) => measure(&rt, &rt, word.as_str()),
        None => Ok(()),
    }
}

/// Measures what a word names; the second handle waits.
fn measure<R: Wait>(rt: &HostRuntime, waits: &R, word: &str) -> io::Result<()> {
    match word {
        "messages" => time_messages(rt),
        "streams" => time_streams(rt),
        "outbox" => time_jobs(rt, waits),
        "framers" => hold_framers(rt),
        _ => Ok(()),
    }
}
