//! What goes wrong in a scene, at which calls.

use crate::fault::Fault;
use crate::words::Words;
use lb_memory::{Failing, StreamFailing};

/// Which calls of the sockets go wrong, each counted from 1; 0 is none. Lines `fails ..` say it, wherever they stand.
#[derive(Clone, Copy, Default)]
pub(crate) struct Setting {
    pub(crate) datagrams: Failing,
    pub(crate) streams: StreamFailing,
    pub(crate) clock: Failing,
    /// Which ask for a moment fails.
    pub(crate) outside: u64,
    /// How many jobs the outbox holds.
    pub(crate) outbox: usize,
}

impl Setting {
    /// What the lines of a scene say of it.
    pub(crate) fn read(lines: &[String]) -> Result<Setting, Fault> {
        let mut setting = Setting {
            outbox: 64,
            ..Setting::default()
        };
        for (index, line) in lines.iter().enumerate() {
            let mut words = Words::new(index + 1, line.as_str());
            if words.more() == Some("fails") {
                setting.set(&mut words)?;
            }
        }
        Ok(setting)
    }

    /// Reads one line after its first word.
    fn set(&mut self, words: &mut Words<'_>) -> Result<(), Fault> {
        let kind = words.word()?;
        let call = words.word()?;
        let number = words.number()?;
        match kind {
            "datagrams" => set_failing(&mut self.datagrams, call, number, words),
            "clock" => set_failing(&mut self.clock, call, number, words),
            "streams" => set_streams(&mut self.streams, call, number, words),
            "outside" => self.set_outside(call, number, words),
            "outbox" => self.set_outbox(call, number, words),
            _ => Err(words.bad()),
        }
    }

    /// Which ask for a moment fails.
    fn set_outside(&mut self, call: &str, number: u64, words: &Words<'_>) -> Result<(), Fault> {
        if call != "ask" {
            return Err(words.bad());
        }
        self.outside = number;
        Ok(())
    }

    /// How many jobs the outbox holds: 1 to 4,096.
    fn set_outbox(&mut self, call: &str, number: u64, words: &Words<'_>) -> Result<(), Fault> {
        if call != "holds" || number == 0 || number > 4_096 {
            return Err(words.bad());
        }
        self.outbox = number as usize;
        Ok(())
    }
}

fn set_failing(
    failing: &mut Failing,
    call: &str,
    number: u64,
    words: &Words<'_>,
) -> Result<(), Fault> {
    match call {
        "read" => failing.read = number,
        "send" => failing.send = number,
        "room" => failing.refused = number,
        _ => return Err(words.bad()),
    }
    Ok(())
}

fn set_streams(
    failing: &mut StreamFailing,
    call: &str,
    number: u64,
    words: &Words<'_>,
) -> Result<(), Fault> {
    match call {
        "read" => failing.read = number,
        "write" => failing.write = number,
        "room" => failing.refused = number,
        "accept" => failing.accept = number,
        "dial" => failing.dial = number,
        _ => return Err(words.bad()),
    }
    Ok(())
}
