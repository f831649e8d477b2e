//! Octets as a scene has them.

use crate::fault::Fault;
use crate::words::Words;
use lb_wire::{MAX_MESSAGE, Octets};
use std::alloc::Global;

/// Octets that have a name in a scene.
#[derive(Drop)]
pub(crate) struct Named {
    pub(crate) name: String,
    pub(crate) octets: Vec<u8>,
}

/// The octets of the words that are left: hexadecimal digits, `DIGITS*N` for so many times, `$NAME` for named ones, `-` for none.
pub(crate) fn rest_of(
    alloc: Global,
    words: &mut Words<'_>,
    names: &[Named],
) -> Result<Vec<u8>, Fault> {
    let mut octets = Vec::new(alloc);
    for _ in 0..MAX_MESSAGE {
        let Some(word) = words.more() else {
            return Ok(octets);
        };
        add(alloc, &mut octets, word, words, names)?;
    }
    Err(words.full())
}

/// The same as a message, of 65,535 octets at most.
pub(crate) fn message_of(
    alloc: Global,
    words: &mut Words<'_>,
    names: &[Named],
) -> Result<Octets, Fault> {
    let octets = rest_of(alloc, words, names)?;
    if octets.len() > MAX_MESSAGE {
        return Err(words.full());
    }
    Ok(Octets::from_vec(octets))
}

/// Puts the octets of one word after others.
fn add(
    alloc: Global,
    octets: &mut Vec<u8>,
    word: &str,
    words: &Words<'_>,
    names: &[Named],
) -> Result<(), Fault> {
    if word == "-" {
        return Ok(());
    }
    match word.strip_prefix("$") {
        Some(name) => add_named(octets, name, words, names),
        None => add_digits(alloc, octets, word, words),
    }
}

/// The same of named octets.
fn add_named(
    octets: &mut Vec<u8>,
    name: &str,
    words: &Words<'_>,
    names: &[Named],
) -> Result<(), Fault> {
    for named in names {
        if named.name.as_str() == name {
            octets.extend_from_slice(named.octets.as_slice())?;
            return Ok(());
        }
    }
    Err(words.bad())
}

/// The same of digits.
fn add_digits(
    alloc: Global,
    octets: &mut Vec<u8>,
    word: &str,
    words: &Words<'_>,
) -> Result<(), Fault> {
    let (digits, times) = parts_of(word, words)?;
    match hex::decode(alloc, digits) {
        Ok(once) => repeat(octets, once.as_slice(), times),
        Err(_) => Err(words.bad()),
    }
}

fn repeat(octets: &mut Vec<u8>, once: &[u8], times: u32) -> Result<(), Fault> {
    for _ in 0..times {
        octets.extend_from_slice(once)?;
    }
    Ok(())
}

/// The digits of a word, and how often they stand.
fn parts_of<'a>(word: &'a str, words: &Words<'_>) -> Result<(&'a str, u32), Fault> {
    let Some((digits, times)) = word.split_once("*") else {
        return Ok((word, 1));
    };
    match times.parse::<u32>() {
        Ok(times) => Ok((digits, times)),
        Err(_) => Err(words.bad()),
    }
}
