//! The lines of a scene, one after the other, and the turns of its loops.

use crate::fault::Fault;
use crate::front::{ask, send, tell};
use crate::report::tell_report;
use crate::stage::Stage;
use crate::words::Words;
use lb_loops::{
    ClockLoop, DatagramLoop, Datagrams, Outside, Posts, StreamLoop, Streams, Taker, clock_turn,
    datagram_turn, stream_turn,
};
use std::sync::Wait;

/// Plays lines.
pub(crate) fn play_all<R: Wait, D: Datagrams, S: Streams, P: Posts, T: Taker, O: Outside>(
    lines: &[String],
    stage: &mut Stage<'_, R>,
    console: &mut T,
    datagrams: &mut DatagramLoop<D, T, O>,
    streams: &mut StreamLoop<S, T, O, P>,
    clock: &mut ClockLoop<D, P, T, O>,
) -> Result<(), Fault> {
    for (index, line) in lines.iter().enumerate() {
        let (times, line) = times_of(index + 1, line.as_str())?;
        for _ in 0..times {
            let mut words = Words::new(index + 1, line);
            play(&mut words, stage, console, datagrams, streams, clock)?;
        }
    }
    Ok(())
}

/// Plays a line once.
fn play<R: Wait, D: Datagrams, S: Streams, P: Posts, T: Taker, O: Outside>(
    words: &mut Words<'_>,
    stage: &mut Stage<'_, R>,
    console: &mut T,
    datagrams: &mut DatagramLoop<D, T, O>,
    streams: &mut StreamLoop<S, T, O, P>,
    clock: &mut ClockLoop<D, P, T, O>,
) -> Result<(), Fault> {
    match words.word()? {
        "datagrams" => turn_of_datagrams(stage, datagrams),
        "streams" => turn_of_streams(stage, streams),
        "clock" => turn_of_clock(stage, clock),
        "edit" | "query" | "reply" | "tick" | "health" => tell(console, stage, words),
        "asks" => ask(console, stage, words),
        "job" => send(stage, words),
        word => stage.come(word, words),
    }
}

/// A turn of datagrams. One that finds no room is told, and the next one follows.
fn turn_of_datagrams<R: Wait, D: Datagrams, T: Taker, O: Outside>(
    stage: &mut Stage<'_, R>,
    datagrams: &mut DatagramLoop<D, T, O>,
) -> Result<(), Fault> {
    // Those that the console and the lines themselves handed in are no lines of a report.
    let _ = stage.take_events();
    let report = match datagram_turn(datagrams, &stage.roster, &stage.gate) {
        Ok(report) => report,
        Err(_refused) => {
            stage.told.put("datagrams nomemory\n");
            datagram_turn(datagrams, &stage.roster, &stage.gate)?
        }
    };
    let lines = tell_report(stage, "datagrams", report);
    datagrams.take_back(lines);
    stage.show_packets();
    stage.told.room()
}

/// A turn of streams. One that finds no room is told, and the next one follows.
fn turn_of_streams<R: Wait, S: Streams, P: Posts, T: Taker, O: Outside>(
    stage: &mut Stage<'_, R>,
    streams: &mut StreamLoop<S, T, O, P>,
) -> Result<(), Fault> {
    // Those that the console and the lines themselves handed in are no lines of a report.
    let _ = stage.take_events();
    let report = match stream_turn(stage.rt, streams, &stage.roster, &stage.gate) {
        Ok(report) => report,
        Err(_refused) => {
            stage.told.put("streams nomemory\n");
            stream_turn(stage.rt, streams, &stage.roster, &stage.gate)?
        }
    };
    let lines = tell_report(stage, "streams", report);
    streams.take_back(lines);
    stage.show_streams()?;
    stage.show_posts();
    stage.told.room()
}

/// A turn of the clock. One that finds no room is told, and the next one follows.
fn turn_of_clock<R: Wait, D: Datagrams, P: Posts, T: Taker, O: Outside>(
    stage: &mut Stage<'_, R>,
    clock: &mut ClockLoop<D, P, T, O>,
) -> Result<(), Fault> {
    // Those that the console and the lines themselves handed in are no lines of a report.
    let _ = stage.take_events();
    let report = match clock_turn(stage.rt, clock, &stage.roster, &stage.gate) {
        Ok(report) => report,
        Err(_refused) => {
            stage.told.put("clock nomemory\n");
            clock_turn(stage.rt, clock, &stage.roster, &stage.gate)?
        }
    };
    let lines = tell_report(stage, "clock", report);
    clock.take_back(lines);
    stage.show_probes();
    stage.show_posts();
    stage.told.room()
}

/// How often a line is played, and the line: not at all where it is blank or a comment; so often as it says after `times N`.
fn times_of(number: usize, line: &str) -> Result<(u32, &str), Fault> {
    if line.trim().is_empty() || line.starts_with("#") {
        return Ok((0, line));
    }
    let Some(rest) = line.strip_prefix("times ") else {
        return Ok((1, line));
    };
    let Some((times, rest)) = rest.split_once(" ") else {
        return Err(Fault::Missing(number));
    };
    match times.parse::<u32>() {
        Ok(times) => Ok((times, rest)),
        Err(_) => Err(Fault::BadWord(number)),
    }
}
