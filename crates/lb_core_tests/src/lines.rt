//! What a balancer is told, as lines that lb_command reads, and the lines of its answers.

use lb_chain::ChainFault;
use lb_command::{FaultKind, read_event_line};
use lb_core::{Answer, Balancer, EditFault, Event};
use lb_servers::ParkFault;
use std::alloc::Global;
use std::test::Fail;

/// A datagram from 192.0.2.1, slot 7, that asks for example.com A IN, with the ID 0x1234 and RD
/// (RFC 1035).
pub(crate) const QUERY: &str =
    "query 1000 7 udp 192.0.2.1 16 123401000001000000000000076578616d706c6503636f6d0000010001";

/// Its reply from server 1, to which it was sent under the ID 16: the address 192.0.2.1, to live
/// 300 seconds.
pub(crate) const REPLY: &str =
    "reply 2000 1 udp 001081800001000100000000076578616d706c6503636f6d0000010001c00c000100010000012c0004c0000201";

/// No two of these are equal, and no two of their answers. Each kind of event is here, and each
/// command.
pub(crate) const TOLD: &[&str] = &[
    QUERY,
    // AXFR
    "query 1000 7 udp 192.0.2.1 16 123401000001000000000000076578616d706c6503636f6d0000fc0001",
    "query 1000 7 udp 192.0.2.1 16 001081800001000100000000076578616d706c6503636f6d0000010001c00c000100010000012c0004c0000201",
    "edit 0 server add s1 127.0.0.1 5301",
    "edit 0 server add s2 127.0.0.1 5301",
    "query 1000 7 tcp 192.0.2.1 16 123401000001000000000000076578616d706c6503636f6d0000010001",
    "query 1000 1 udp 192.0.2.1 16 123401000001000000000000076578616d706c6503636f6d0000010001",
    "query 1000 2 udp 192.0.2.1 16 123401000001000000000000076578616d706c6503636f6d0000010001",
    "query 1000 7 udp 192.0.2.1 17 123401000001000000000000076578616d706c6503636f6d0000010001",
    "query 1500 7 udp 192.0.2.1 16 123401000001000000000000076578616d706c6503636f6d0000010001",
    "reply 2000 1 tcp 001081800001000100000000076578616d706c6503636f6d0000010001c00c000100010000012c0004c0000201",
    REPLY,
    "reply 2000 9 udp 001081800001000100000000076578616d706c6503636f6d0000010001c00c000100010000012c0004c0000201",
    "reply 2000 1 udp 123401000001000000000000076578616d706c6503636f6d0000010001",
    "tick 3000",
    "tick 1",
    "health 1000 1 fail",
    "health 1000 1 ok",
    "health 1000 2 fail",
    "edit 0 rule add all none",
    "edit 0 rule add masks(192.0.2.0/24) rcode(REFUSED)",
    "edit 0 rule add and(suffix(example.com),maxqps(1)) spoof(192.0.2.7,2001:db8::7)",
    "edit 0 rule add at 0 all pool(p1)",
    "edit 0 pool add p1",
    "edit 0 pool add p2",
    "edit 0 rule add at 0 all pool(p2)",
    "edit 0 rule move 1 0",
    "edit 0 rule move 1 9",
    "edit 0 rule remove 2",
    "edit 0 rule remove 9",
    "edit 0 pool policy p1 roundrobin",
    "edit 0 pool policy p1 firstAvailable",
    "edit 0 server mode s1 down",
    "edit 0 server mode s1 up",
    "edit 0 expunge - suffix example.com",
    "edit 0 cache attach - 100 4 86400",
    "edit 0 cache attach - 100 5 86400",
    "edit 0 cache attach - 100 5 86400 skip none",
    "edit 0 expunge - all",
    "edit 0 cache detach -",
    "edit 0 timeout 3000",
    "edit 0 timeout 4000",
    "edit 0 show",
    "edit 0 server remove s2",
    "edit 0 server add s2 127.0.0.1 5301 fall 2 rise 3",
];

/// The event of a line. If memory was lacking for it, the line is read once more.
pub(crate) fn event(alloc: Global, line: &str) -> Result<Event, Fail> {
    match read_event_line(alloc, line) {
        Ok(event) => Ok(event),
        Err(fault) if fault.kind == FaultKind::NoMemory => event_again(alloc, line),
        Err(_) => Err(Fail::from("a line that is no event")),
    }
}

/// The event of a line for which memory was lacking once.
fn event_again(alloc: Global, line: &str) -> Result<Event, Fail> {
    match read_event_line(alloc, line) {
        Ok(event) => Ok(event),
        Err(_) => Err(Fail::from("a line that is no event the second time")),
    }
}

/// The events of some lines, told so many times.
pub(crate) fn events(alloc: Global, lines: &[&str], times: usize) -> Result<Vec<Event>, Fail> {
    let mut events = Vec::new(alloc);
    for _ in 0..times {
        for line in lines {
            events.push(event(alloc, line)?)?;
        }
    }
    Ok(events)
}

/// What comes of something that is done with a new balancer. It alone has one to drop: what a
/// function does is stated for each way out of it, with all that it drops.
pub(crate) fn played<T, F: FnOnce(Global, &mut Balancer) -> Result<T, Fail>>(
    alloc: Global,
    play: F,
) -> Result<T, Fail>
    requires { F.IsAlwaysCallable play }
{
    let mut balancer = Balancer::new(alloc)?;
    play(alloc, &mut balancer)
}

/// Lets a test go on if a row of its table, counted from 0, is as it should be, and else ends it.
pub(crate) fn held(row: usize, holds: bool) -> Result<(), Fail> {
    if holds {
        Ok(())
    } else {
        Err(Fail::new(format_args!("row {row} is not so")))
    }
}

/// The answer to an event. It has no clause, so that what calls it is proved without the meaning of
/// a step.
pub(crate) fn step(balancer: &mut Balancer, event: Event) -> Answer {
    balancer.step(event)
}

/// The answer to a line; if memory was lacking, to the same line told again.
pub(crate) fn tell(alloc: Global, balancer: &mut Balancer, line: &str) -> Result<Answer, Fail> {
    let answer = step(balancer, event(alloc, line)?);
    if lacks_memory(&answer) {
        return Ok(step(balancer, event(alloc, line)?));
    }
    Ok(answer)
}

/// Whether memory was lacking for a query or an edit.
pub(crate) fn lacks_memory(answer: &Answer) -> bool {
    match answer {
        Answer::NoMemory(_) => true,
        Answer::Refused(EditFault::Rules(fault)) => *fault == ChainFault::NoMemory,
        Answer::Refused(EditFault::Servers(fault)) => *fault == ParkFault::NoMemory,
        _ => false,
    }
}
