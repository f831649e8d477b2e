//! The program `lb`: it does what its words ask for.
#![tactic(auto)]

use lb_program_start::{behind_first, start};
use std::env::Env;
use std::process::ExitCode;
use std::{env, io};

fn main(rt: HostRuntime) -> ExitCode {
    let mut output = rt.stdout();
    let mut faults = rt.stderr();
    ExitCode::from(start(&rt, words(&rt), rt.stdin(), &mut output, &mut faults))
}

/// The words of the command line after the program's name. One that is not UTF-8 is the error `InvalidData`.
fn words<T: Env + AllocGlobal>(rt: &T) -> io::Result<Vec<String>> {
    let words = env::args(rt)?.collect(rt.alloc())?;
    Ok(behind_first(words))
}
