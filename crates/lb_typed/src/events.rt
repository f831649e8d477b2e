//! Events, as lines of a replay.

ghost use Rattle.std.specs.Prelude.{◌≡◌, ◌<◌, ◌≤◌, ◌^◌, IfOk, length, string_bytes};
ghost use Rattle.lb_step.specs.declared.event.Event.TheVariants as events;
ghost use Rattle.lb_command.specs.Answers.{hex_text};
ghost use Rattle.lb_command.specs.Events.{told_origin};
ghost use Rattle.lb_command.specs.Grammar.{AllowedEvent, IsEvent, event};
ghost use Rattle.lb_command.specs.Reading.{max_line};
ghost use Rattle.lb_command.specs.Values.{hex_of};
ghost use Rattle.lb_typed.specs.Pieces.{Spells};
ghost use Rattle.lb_typed.specs.Typed.{CanBeTyped, EventCanBeTyped, as_told};
ghost use Rattle.lb_typed.specs.Words.{Types};

use crate::addrs::{addr_word, law_of_octets};
use crate::commands::{command_text, law_of_command};
use crate::words::{
    kind_word, lane_word, law_of_u16, law_of_u64, number_text, outcome_word, spaced,
};
use lb_core::{BoxedCommand, Event};
use lb_wire::{Kind, Lane, Octets, Origin, ServerId};
use std::alloc::{AllocError, Global};

/// Octets in hexadecimal digits; `-` if there are none.
fn hex_text(alloc: Global, bytes: &[u8]) -> Result<String, AllocError>
    ensures { IfOk result (λ text. string_bytes text ≡ hex_text bytes.now) }
{
    if bytes.is_empty() {
        return String::from_str(alloc, "-");
    }
    hex::encode(alloc, bytes)
}

fn hex_word(alloc: Global, bytes: &Octets) -> Result<String, AllocError>
    ensures { IfOk result (λ text. Types hex_of bytes.now (string_bytes text)) }
{
    law_of_octets(bytes.as_slice());
    hex_text(alloc, bytes.as_slice())
}

fn query_text(
    alloc: Global,
    now: u64,
    origin: &Origin,
    asked: (Kind, u16),
    bytes: &Octets,
) -> Result<String, AllocError>
    ensures { IfOk result (λ text. Spells (event (events.Query now (told_origin origin.now.slot origin.now.source) asked.0 asked.1 bytes.now)) (string_bytes text)) }
{
    let (kind, word) = asked;
    law_of_u64(now);
    law_of_u64(origin.slot);
    law_of_u16(word);
    let bytes = hex_word(alloc, bytes)?;
    let word = number_text(alloc, u64::from(word))?;
    let text = spaced(alloc, word.as_str(), bytes.as_str())?;
    let source = addr_word(alloc, &origin.source)?;
    let text = spaced(alloc, source.as_str(), text.as_str())?;
    let text = spaced(alloc, kind_word(kind), text.as_str())?;
    let slot = number_text(alloc, origin.slot)?;
    let text = spaced(alloc, slot.as_str(), text.as_str())?;
    let now = number_text(alloc, now)?;
    let text = spaced(alloc, now.as_str(), text.as_str())?;
    spaced(alloc, "query", text.as_str())
}

fn reply_text(
    alloc: Global,
    now: u64,
    server: ServerId,
    lane: Lane,
    bytes: &Octets,
) -> Result<String, AllocError>
    ensures { IfOk result (λ text. lane.number < 8 → Spells (event (events.Reply now server lane bytes.now)) (string_bytes text)) }
{
    law_of_u64(now);
    law_of_u64(server.0);
    let bytes = hex_word(alloc, bytes)?;
    let lane = lane_word(alloc, lane)?;
    let text = spaced(alloc, lane.as_str(), bytes.as_str())?;
    let number = number_text(alloc, server.0)?;
    let text = spaced(alloc, number.as_str(), text.as_str())?;
    let now = number_text(alloc, now)?;
    let text = spaced(alloc, now.as_str(), text.as_str())?;
    spaced(alloc, "reply", text.as_str())
}

fn tick_text(alloc: Global, now: u64) -> Result<String, AllocError>
    ensures { IfOk result (λ text. Spells (event (events.Tick now)) (string_bytes text)) }
{
    law_of_u64(now);
    let now = number_text(alloc, now)?;
    spaced(alloc, "tick", now.as_str())
}

fn health_text(alloc: Global, now: u64, server: ServerId, ok: bool) -> Result<String, AllocError>
    ensures { IfOk result (λ text. Spells (event (events.HealthResult now server ok)) (string_bytes text)) }
{
    law_of_u64(now);
    law_of_u64(server.0);
    let number = number_text(alloc, server.0)?;
    let text = spaced(alloc, number.as_str(), outcome_word(ok))?;
    let now = number_text(alloc, now)?;
    let text = spaced(alloc, now.as_str(), text.as_str())?;
    spaced(alloc, "health", text.as_str())
}

fn edit_text(alloc: Global, now: u64, command: &BoxedCommand) -> Result<String, AllocError>
    ensures { IfOk result (λ text. CanBeTyped command.now → Spells (event (events.Edit now command.now)) (string_bytes text)) }
{
    law_of_u64(now);
    let command = command_text(alloc, command.get())?;
    let now = number_text(alloc, now)?;
    let text = spaced(alloc, now.as_str(), command.as_str())?;
    spaced(alloc, "edit", text.as_str())
}

/// An event as a piece of a line.
fn event_text(alloc: Global, what: &Event) -> Result<String, AllocError>
    ensures { IfOk result (λ text. EventCanBeTyped what.now → Spells (event (as_told what.now)) (string_bytes text)) }
{
    match what {
        Event::Query {
            now,
            origin,
            kind,
            word,
            bytes,
        } => query_text(alloc, *now, origin, (*kind, *word), bytes),
        Event::Reply {
            now,
            server,
            lane,
            bytes,
        } => reply_text(alloc, *now, *server, *lane, bytes),
        Event::Tick { now } => tick_text(alloc, *now),
        Event::HealthResult { now, server, ok } => health_text(alloc, *now, *server, *ok),
        Event::Edit { now, command } => edit_text(alloc, *now, command),
    }
}

/// The command of an event is within the limits.
fn law_of_event(what: &Event)
    ensures { EventCanBeTyped what.now → AllowedEvent (as_told what.now) }
{
    if let Event::Edit { command, .. } = what {
        law_of_command(command.get());
    }
}

/// An event as a line of a replay: it is read as this event, but for the listener and the port of a
/// client, which no line has, if its command can be typed, its lane is one of the eight, and the
/// line is at most as long as one may be. The line has no line feed. The one error is lack of
/// memory.
pub fn event_line(alloc: Global, what: &Event) -> Result<String, AllocError>
    ensures { IfOk result (λ text. EventCanBeTyped what.now → length (string_bytes text) ≤ max_line → IsEvent (string_bytes text) (as_told what.now)) }
{
    law_of_event(what);
    event_text(alloc, what)
}
