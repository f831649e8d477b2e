//! Replays over readers and writers that fail. What a device of the system can be made to do is a
//! row of tools/play/run-rows.

use crate::devices::{Asking, Closing, Dribble, Flushing, Hiding, Stuttering};
use lb_program::{check, replay};
use std::cell::Cell;
use std::io::{ErrorKind, Write};
use std::process::Abort;

/// A rule for queries of type A, and one that it refuses: the row `refused-by-type`.
const INPUT: &[u8] = b"edit 0 rule add qtype(A) rcode(REFUSED)
query 1000 7 udp 192.0.2.1 16 123401000001000000000000076578616d706c6503636f6d0000010001
";

/// The line that answers its first line.
const ADDED: &[u8] = b"edited rule 1 added\n";

/// The lines that answer them.
const OUTPUT: &[u8] = b"edited rule 1 added
local rule 123481850001000000000000076578616d706c6503636f6d0000010001
";

/// What an empty balancer shows.
const SHOWN: &[u8] = b"edited rules 0 servers 0 pools 1 caches 0 outstanding 0 kept 0\n";

/// Replays the input, cut once by a failure of this kind, and compares the status, the output and the faults.
fn expect<T: Abort + AllocGlobal>(
    rt: &T,
    cut: usize,
    kind: ErrorKind,
    status: u8,
    output: &[u8],
    faults: &[u8],
) {
    let mut written: Vec<u8> = Vec::new(rt.alloc());
    let mut told: Vec<u8> = Vec::new(rt.alloc());
    let failing = Dribble {
        rest: INPUT,
        cut: Some(cut),
        kind,
    };
    let ended = replay(rt, failing, &mut written, &mut told);
    assert!(rt; written.as_slice() == output, "the output at {cut}");
    assert!(rt; told.as_slice() == faults, "the faults at {cut}");
    assert_eq!(rt; ended, status, "the status at {cut}");
}

/// Where the input is cut, by which failure, and the status, the output and the faults that come of it.
const CUTS: &[(usize, ErrorKind, u8, &[u8], &[u8])] = &[
    (0, ErrorKind::BrokenPipe, 3, b"", b"device fault\n"),
    (60, ErrorKind::BrokenPipe, 3, ADDED, b"device fault\n"),
    (60, ErrorKind::OutOfMemory, 3, ADDED, b"no memory\n"),
    (60, ErrorKind::Interrupted, 0, OUTPUT, b""),
];

#[test]
fn readers_that_fail_are_told(rt: HostRuntime) {
    for (cut, kind, status, output, faults) in CUTS {
        expect(&rt, *cut, *kind, *status, output, faults);
    }
}

/// Replays an input, and compares the status and the faults.
fn expect_told<T: Abort + AllocGlobal, W: Write>(
    rt: &T,
    input: &[u8],
    output: &mut W,
    status: u8,
    faults: &[u8],
) {
    let mut told: Vec<u8> = Vec::new(rt.alloc());
    let ended = replay(rt, input, output, &mut told);
    assert_eq!(rt; ended, status);
    assert!(rt; told.as_slice() == faults);
}

#[test]
fn a_writer_that_fails_is_told(rt: HostRuntime) {
    let mut closed = Closing {
        kind: ErrorKind::BrokenPipe,
    };
    expect_told(&rt, INPUT, &mut closed, 3, b"device fault\n");
}

#[test]
fn answers_are_out_before_more_input_is_waited_for(rt: HostRuntime) {
    let flushes = Cell::new(0);
    let lines = [
        "edit 0 rule add qtype(A) rcode(REFUSED)\n",
        "edit 0 rule remove 1\n",
        "edit 0 show\n",
    ];
    let asking = Asking {
        lines: &lines,
        asked: 0,
        flushes: &flushes,
    };
    let mut output = Flushing {
        is_pending: false,
        flushes: &flushes,
    };
    let mut told: Vec<u8> = Vec::new(rt.alloc());
    let ended = replay(&rt, asking, &mut output, &mut told);
    assert_eq!(rt; ended, 0);
    assert_eq!(rt; flushes.get(), 3);
}

#[test]
fn nothing_is_written_twice(rt: HostRuntime) {
    let mut output = Stuttering {
        written: Vec::new(rt.alloc()),
        has_failed: false,
    };
    expect_told(&rt, INPUT, &mut output, 3, b"device fault\n");
    assert!(rt; output.written.as_slice() == OUTPUT);
}

/// Sees that a writer showed this, and held nothing back.
fn expect_shown<T: Abort>(rt: &T, writer: &Hiding, text: &[u8]) {
    assert!(rt; writer.shown.as_slice() == text);
    assert!(rt; writer.hidden.is_empty());
}

#[test]
fn a_replay_is_flushed(rt: HostRuntime) {
    let mut output = Hiding::new(rt.alloc());
    let mut told = Hiding::new(rt.alloc());
    let ended = replay(&rt, b"edit 0 show\nx\n".as_slice(), &mut output, &mut told);
    assert_eq!(rt; ended, 1);
    expect_shown(&rt, &output, SHOWN);
    expect_shown(&rt, &told, b"line 2: at 0: 1 UnknownWord\n");
}

#[test]
fn a_check_is_flushed(rt: HostRuntime) {
    let mut output = Hiding::new(rt.alloc());
    let mut told = Hiding::new(rt.alloc());
    assert_eq!(rt; check(&rt, "# nothing", &mut output, &mut told), 0);
    expect_shown(&rt, &output, SHOWN);
    assert_eq!(rt; check(&rt, "rule remove 9", &mut output, &mut told), 1);
    expect_shown(&rt, &told, b"line 1: refused rules 1 NoSuchRule\n");
}
