//! Switches: words of the environment that begin with `LB_`, read once before the program serves.

use crate::fault::Fault;
use lb_loops_io::Endpoint;
use lb_masks::{decimal_up_to, parse_addr};
use lb_wire::Addr;
use std::alloc::{AllocError, Global};
use std::env::{Env, FillError};
use std::io::ErrorKind;
use std::num::NonZeroUsize;
use std::thread::{Threads, available_parallelism};

/// What the name of a switch begins with.
const BEGIN: &[u8] = b"LB_";

/// How many of the last queries are noted.
const RECENT: &str = "LB_RECENT";

/// The file in which the calls of the log are left.
const LOG: &str = "LB_LOG";

/// Whether their answers are left there too.
const ANSWERS: &str = "LB_LOG_ANSWERS";

/// How many loops take datagrams.
const LOOPS: &str = "LB_LOOPS";

/// Where all counts are given by HTTP.
const METRICS: &str = "LB_METRICS";

/// How many clients over TCP a source may have.
const OF_SOURCE: &str = "LB_STREAMS_PER_SOURCE";

/// For how many seconds a client over TCP may send no query.
const IDLE: &str = "LB_STREAM_IDLE";

/// The names of all switches.
const NAMES: [&str; 7] = [RECENT, LOG, ANSWERS, LOOPS, METRICS, OF_SOURCE, IDLE];

/// The most bytes of a file's name.
const NAME: usize = 4_096;

/// The most queries that are noted.
const MOST_RECENT: u32 = 100_000;

/// The most loops of datagrams that can be asked for.
pub(crate) const MOST_LOOPS: u8 = 16;

/// The most of them if none are asked for.
const MOST_BY_DEFAULT: usize = 4;

/// The most clients over TCP that a source may be given.
const MOST_OF_SOURCE: u32 = 1_024;

/// The most seconds that a client over TCP may be given: a day.
const MOST_IDLE: u32 = 86_400;

/// The most bytes of a number.
const DIGITS: usize = 16;

/// The most bytes of an address with a port.
const PLACE: usize = 64;

/// The most bytes of a word of the environment that the system allows, its value counted in.
const ENTRY: usize = 131_072;

/// The most words of the environment that are looked at.
const ENTRIES: usize = 65_536;

/// What the switches ask for.
#[derive(Debug, Drop)]
pub(crate) struct Switches {
    /// How many of the last queries are noted; none if it is 0.
    pub(crate) recent: u32,
    /// The name of the file in which the calls of the log are left.
    pub(crate) log: Option<String>,
    /// Whether their answers are left there too.
    pub(crate) has_answers: bool,
    /// How many loops take datagrams, from 1 to 16.
    pub(crate) loops: u8,
    /// Where all counts are given by HTTP, if anywhere.
    pub(crate) metrics: Option<Endpoint>,
    /// How many clients over TCP a source may have, if that is limited.
    pub(crate) of_source: Option<u32>,
    /// For how many seconds a client over TCP may send no query, if that is limited.
    pub(crate) idle: Option<u32>,
}

/// A switch that asks for what can't be.
#[derive(Clone, Copy, Debug, PartialEq, Eq)]
pub enum Switch {
    /// `LB_RECENT` is no number from 0 to 100,000.
    Recent,
    /// `LB_LOG` is no name of a file.
    LogName,
    /// The file of `LB_LOG` can't be made.
    Log(ErrorKind),
    /// `LB_LOG_ANSWERS` is neither 0 nor 1.
    LogAnswers,
    /// `LB_LOOPS` is no number from 1 to 16.
    Loops,
    /// `LB_METRICS` is no address with a port.
    Metrics,
    /// The address of `LB_METRICS` can't be listened at.
    MetricsListener(ErrorKind),
    /// `LB_STREAMS_PER_SOURCE` is no number from 1 to 1,024.
    OfSource,
    /// `LB_STREAM_IDLE` is no number from 1 to 86,400.
    Idle,
}

impl Switches {
    /// Those of the environment.
    pub(crate) fn read<R: Env + Threads>(rt: &R, alloc: Global) -> Result<Switches, Fault> {
        let Some(recent) = number_in(rt, RECENT, MOST_RECENT) else {
            return Err(Fault::Switch(Switch::Recent));
        };
        let Some(answers) = number_in(rt, ANSWERS, 1) else {
            return Err(Fault::Switch(Switch::LogAnswers));
        };
        let Some(loops) = loops_of(rt) else {
            return Err(Fault::Switch(Switch::Loops));
        };
        let Some(metrics) = metrics_of(rt) else {
            return Err(Fault::Switch(Switch::Metrics));
        };
        let Some(of_source) = limit_in(rt, OF_SOURCE, MOST_OF_SOURCE) else {
            return Err(Fault::Switch(Switch::OfSource));
        };
        let Some(idle) = limit_in(rt, IDLE, MOST_IDLE) else {
            return Err(Fault::Switch(Switch::Idle));
        };
        Ok(Switches {
            recent,
            log: log_name(rt, alloc)?,
            has_answers: answers == 1,
            loops,
            metrics,
            of_source,
            idle,
        })
    }
}

/// How many loops take datagrams: as many as the switch asks for, from 1 to 16. If it is not set,
/// half as many as there are processors, but at least 1 and at most 4.
pub(crate) fn loops_of<R: Env + Threads>(rt: &R) -> Option<u8> {
    let asked = asked_in(rt, LOOPS, u32::from(MOST_LOOPS))?;
    match asked {
        Some(0) => None,
        Some(number) => u8::try_from(number).ok(),
        None => {
            let processors = available_parallelism(rt).map_or(1, NonZeroUsize::get);
            u8::try_from((processors / 2).clamp(1, MOST_BY_DEFAULT)).ok()
        }
    }
}

/// Where all counts are given by HTTP, if the switch is set.
pub(crate) fn metrics_of<R: Env>(rt: &R) -> Option<Option<Endpoint>> {
    let mut bytes = [0u8; PLACE];
    match rt.var(METRICS, &mut bytes) {
        Ok(len) => {
            let text = str::from_utf8(bytes.get(..len).unwrap_or_default()).ok()?;
            Some(Some(end_of(text)?))
        }
        Err(FillError::NotPresent) => Some(None),
        Err(FillError::TooLong) => None,
    }
}

/// The end that a text spells: an address, which stands in brackets if it is one of IPv6, a colon,
/// and a port from 1 to 65,535.
fn end_of(text: &str) -> Option<Endpoint> {
    let (addr, port) = text.rsplit_once(':')?;
    let port = decimal_up_to(port.as_bytes(), 65_535)? as u16;
    if port == 0 {
        return None;
    }
    Some(Endpoint {
        addr: addr_of(addr)?,
        port,
    })
}

/// The address that a text spells: one of IPv6 in brackets, or one of IPv4 without.
fn addr_of(text: &str) -> Option<Addr> {
    let Some(rest) = text.strip_prefix('[') else {
        return match parse_addr(text) {
            Some(Addr::V4(octets)) => Some(Addr::V4(octets)),
            _ => None,
        };
    };
    match parse_addr(rest.strip_suffix(']')?) {
        Some(Addr::V6(octets)) => Some(Addr::V6(octets)),
        _ => None,
    }
}

/// Whether clients over TCP are limited by their source or by the time that they may be idle.
pub(crate) fn limits_streams<R: Env>(rt: &R) -> bool {
    matches!(limit_in(rt, OF_SOURCE, MOST_OF_SOURCE), Some(Some(_)))
        || matches!(limit_in(rt, IDLE, MOST_IDLE), Some(Some(_)))
}

/// The number of a switch, which is at least 1 and at most so great, if it is set.
fn limit_in<R: Env>(rt: &R, name: &str, most: u32) -> Option<Option<u32>> {
    match asked_in(rt, name, most)? {
        Some(0) => None,
        asked => Some(asked),
    }
}

/// The number of a switch, which is at most so great; 0 if it is not set.
fn number_in<R: Env>(rt: &R, name: &str, most: u32) -> Option<u32> {
    Some(asked_in(rt, name, most)?.unwrap_or(0))
}

/// The number of a switch, which is at most so great, if it is set.
fn asked_in<R: Env>(rt: &R, name: &str, most: u32) -> Option<Option<u32>> {
    let mut digits = [0u8; DIGITS];
    match rt.var(name, &mut digits) {
        Ok(len) => {
            let number = number_of(digits.get(..len).unwrap_or_default())?;
            if number <= most {
                Some(Some(number))
            } else {
                None
            }
        }
        Err(FillError::NotPresent) => Some(None),
        Err(FillError::TooLong) => None,
    }
}

/// The name of the file in which the calls of the log are left, if there is to be one.
fn log_name<R: Env>(rt: &R, alloc: Global) -> Result<Option<String>, Fault> {
    let mut bytes = [0u8; NAME];
    match rt.var(LOG, &mut bytes) {
        Ok(len) => match str::from_utf8(bytes.get(..len).unwrap_or_default()) {
            Ok(name) if !name.is_empty() => Ok(Some(String::from_str(alloc, name)?)),
            _ => Err(Fault::Switch(Switch::LogName)),
        },
        Err(FillError::NotPresent) => Ok(None),
        Err(FillError::TooLong) => Err(Fault::Switch(Switch::LogName)),
    }
}

/// A number of at most 2^32-1 in decimal digits.
fn number_of(digits: &[u8]) -> Option<u32> {
    if digits.is_empty() {
        return None;
    }
    let mut number = 0u32;
    for digit in digits {
        if !digit.is_ascii_digit() {
            return None;
        }
        number = number
            .checked_mul(10)?
            .checked_add(u32::from(digit - b'0'))?;
    }
    Some(number)
}

/// The words of the environment that begin as a switch does and are none. It has room for the
/// longest word that the system allows.
#[derive(Debug, Drop)]
pub(crate) struct Unknowns {
    room: Vec<u8>,
    /// The place of the next word to look at.
    next: usize,
}

impl Unknowns {
    /// None was looked at. The one error is lack of memory.
    pub(crate) fn new(alloc: Global) -> Result<Unknowns, AllocError> {
        let mut room = Vec::with_capacity(alloc, ENTRY)?;
        room.resize(ENTRY, 0)?;
        Ok(Unknowns { room, next: 0 })
    }

    /// The name of the next one. One that is no text is passed over.
    pub(crate) fn next_name<R: Env>(&mut self, rt: &R) -> Option<&str> {
        let len = self.find(rt)?;
        str::from_utf8(self.room.get(..len)?).ok()
    }

    /// Finds the next one, whose name is text: so many bytes at the start of the room.
    fn find<R: Env>(&mut self, rt: &R) -> Option<usize> {
        for at in self.next..ENTRIES {
            self.next = at.saturating_add(1);
            match rt.var_at(at, self.room.as_mut_slice()) {
                Ok(len) => {
                    let name = name_of(self.room.get(..len).unwrap_or_default());
                    if is_unknown(name) {
                        return Some(name.len());
                    }
                }
                Err(FillError::TooLong) => {}
                Err(FillError::NotPresent) => return None,
            }
        }
        None
    }
}

/// Whether the name of a word of the environment is text that begins as a switch does, and is none.
fn is_unknown(name: &[u8]) -> bool {
    name.starts_with(BEGIN) && !is_switch(name) && str::from_utf8(name).is_ok()
}

/// Whether a switch has this name.
fn is_switch(name: &[u8]) -> bool {
    NAMES.iter().any(|switch| switch.as_bytes() == name)
}

/// The name of a word of the environment: what stands before its first `=`.
fn name_of(entry: &[u8]) -> &[u8] {
    let end = entry.iter().position(|byte| *byte == b'=');
    entry.get(..end.unwrap_or(entry.len())).unwrap_or_default()
}
