//! Plays a scene: what comes to sockets in memory, line by line, and what the turns of the loops make of it, told line by line.
//! docs/SCENES.md has the lines.
#![tactic(auto)]

mod coming;
mod desk;
mod fault;
mod front;
mod gate;
mod handler;
mod loops;
mod octets;
mod playing;
mod report;
mod setting;
mod setting_up;
mod shown;
mod stage;
mod told;
mod words;

use fault::Fault;
use setting::Setting;
use stage::Stage;
use std::io;
use std::io::Write;
use std::process::ExitCode;
use std::sync::Wait;
use std::sync::atomic::AtomicBool;

fn main(rt: HostRuntime) -> ExitCode {
    let mut output = rt.stdout();
    match play_input(&rt, &mut output) {
        Ok(()) => ExitCode::SUCCESS,
        Err(fault) => {
            let why = fault.why();
            let _ = match fault.line() {
                0 => eprintln!(rt; "{why}"),
                number => eprintln!(rt; "line {number}: {why}"),
            };
            ExitCode::from(1)
        }
    }
}

/// Plays the lines of the input, and writes out what came of them.
fn play_input<R: AllocGlobal + Input + Wait, W: Write>(
    rt: &R,
    output: &mut W,
) -> Result<(), Fault> {
    let lines = lines_of(rt)?;
    play_lines(rt, output, lines.as_slice())
}

/// Plays lines, and writes out what came of them.
fn play_lines<R: AllocGlobal + Input + Wait, W: Write>(
    rt: &R,
    output: &mut W,
    lines: &[String],
) -> Result<(), Fault> {
    let is_full = AtomicBool::new(false);
    let setting = Setting::read(lines)?;
    let mut stage = Stage::new(rt, rt.alloc(), &is_full, setting)?;
    desk::play_at_desk(&mut stage, lines)?;
    write_out(output, stage.told.as_bytes())?;
    Ok(())
}

/// Writes out what was told.
fn write_out<W: Write>(output: &mut W, told: &[u8]) -> io::Result<()> {
    output.write_all(told)?;
    output.flush()
}

/// The lines of the input.
fn lines_of<R: AllocGlobal + Input>(rt: &R) -> Result<Vec<String>, Fault> {
    let mut lines = Vec::new(rt.alloc());
    for line in rt.lines(rt.alloc()) {
        lines.push(line?)?;
    }
    Ok(lines)
}
