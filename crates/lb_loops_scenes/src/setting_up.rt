//! Lines that say how things stand: names, moments, the gate, the desk and the roster.

use crate::fault::Fault;
use crate::gate::HoldsFrom;
use crate::octets::{Named, rest_of};
use crate::stage::Stage;
use crate::words::Words;
use lb_loops::Place;
use lb_servers::Mode;
use lb_wire::ServerId;
use std::sync::Wait;
use std::sync::atomic::Ordering;

impl<R: Wait> Stage<'_, R> {
    /// Plays a line with this first word.
    pub(crate) fn set(&mut self, word: &str, words: &mut Words<'_>) -> Result<(), Fault> {
        match word {
            "fails" => Ok(()),
            "let" => self.name(words),
            "moment" => self.set_moment(words),
            "word" => self.set_word(words),
            "gate" => self.set_gate(words),
            "desk" => self.set_desk(words),
            "roster" => self.set_roster(words),
            _ => Err(words.unknown()),
        }
    }

    /// Gives octets a name.
    fn name(&mut self, words: &mut Words<'_>) -> Result<(), Fault> {
        let name = String::from_str(self.alloc, words.word()?)?;
        let octets = rest_of(self.alloc, words, self.names.as_slice())?;
        self.names.push(Named { name, octets })?;
        Ok(())
    }

    /// The next moment, and how much later each further one is, in milliseconds.
    fn set_moment(&mut self, words: &mut Words<'_>) -> Result<(), Fault> {
        let now = words.number()?;
        let step = words.number()?;
        let mut moments = self.shared.moments.lock(self.rt);
        moments.now = now;
        moments.step = step;
        Ok(())
    }

    /// The next random word, or the ask for one that fails.
    fn set_word(&mut self, words: &mut Words<'_>) -> Result<(), Fault> {
        let word = words.port()?;
        self.shared.moments.lock(self.rt).word = word;
        Ok(())
    }

    /// `holds N`: the gate holds what has this moment or a later one; `open`: it holds nothing.
    fn set_gate(&mut self, words: &mut Words<'_>) -> Result<(), Fault> {
        self.gate = match words.word()? {
            "holds" => HoldsFrom(words.number()?),
            "open" => HoldsFrom(u64::MAX),
            _ => return Err(words.bad()),
        };
        Ok(())
    }

    /// `full`: the desk takes no event any more; `open`: it does again.
    fn set_desk(&mut self, words: &mut Words<'_>) -> Result<(), Fault> {
        let is_full = match words.word()? {
            "full" => true,
            "open" => false,
            _ => return Err(words.bad()),
        };
        self.is_full.store(is_full, Ordering::SeqCst);
        Ok(())
    }

    /// `put SERVER ADDR PORT up|down|auto [resolve]`, `remove SERVER`.
    fn set_roster(&mut self, words: &mut Words<'_>) -> Result<(), Fault> {
        let word = words.word()?;
        let server = ServerId(words.number()?);
        if word == "remove" {
            self.roster.remove(server);
            return Ok(());
        }
        let place = place_of(words)?;
        match self.roster.put(server, place) {
            Ok(()) => Ok(()),
            Err(_) => Err(words.full()),
        }
    }
}

/// Where a server is: `ADDR PORT up|down|auto [resolve]`.
fn place_of(words: &mut Words<'_>) -> Result<Place, Fault> {
    let at = words.end()?;
    let mode = match words.word()? {
        "up" => Mode::Up,
        "down" => Mode::Down,
        "auto" => Mode::Auto,
        _ => return Err(words.bad()),
    };
    let must_resolve = words.more() == Some("resolve");
    Ok(Place {
        at,
        mode,
        must_resolve,
    })
}
