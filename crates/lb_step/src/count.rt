//! What is counted.

ghost use Rattle.std.specs.Prelude.{◌≡◌, ◌<◌};
ghost use Rattle.lb_step.specs.Counts.{answer_count, drop_count, event_count, ignored_count, kept_count, local_count, place_of};

use crate::answer::{Answer, DropReason, IgnoreReason, LocalReason};
use crate::event::Event;
use lb_wire::{Kept, Kind};

/// How many counts have a name. After them stand those of the listeners.
pub(crate) const NAMED: usize = 30;

/// What is counted: each event by what it is, a query by its transport; and each answer by its reason.
#[derive(Clone, Copy, Debug, PartialEq, Eq)]
pub enum Count {
    /// Queries that came as datagrams.
    Datagrams,
    /// Queries that came by streams.
    Streams,
    Replies,
    Ticks,
    HealthResults,
    Edits,
    /// Queries of fewer than 12 octets.
    Short,
    /// Responses in place of a query.
    NotQuery,
    /// Queries that a rule dropped.
    RuleDropped,
    /// Queries without the layout of one.
    Malformed,
    /// Zone transfers.
    Transfer,
    /// Queries that a rule answered.
    RuleAnswered,
    /// Queries that a kept reply answered.
    Hit,
    /// Queries of a pool without a server that is up.
    NoServer,
    /// Queries for which no ID was free.
    LaneFull,
    Forwarded,
    /// Replies that were delivered and kept.
    Kept,
    /// Replies that were delivered and may not be kept.
    NotKept,
    /// Replies that were delivered, and found their cache full of live ones.
    NoRoom,
    /// Replies that were delivered, and for whose keeping memory was refused.
    NotKeptForMemory,
    Expired,
    /// Events of which nothing is reported.
    Quiet,
    /// Replies of fewer than 12 octets.
    ShortReply,
    /// Queries in place of a reply.
    NotReply,
    /// Replies to nothing that was sent, or that has ended.
    UnknownReply,
    /// Replies that do not belong to what was sent.
    Mismatch,
    /// Health results of a server that is not there.
    NoSuchServer,
    /// Edits that were carried out, and changes of a server.
    Edited,
    Refused,
    /// Queries for which memory was refused.
    LackedMemory,
}

impl Count {
    /// Its place.
    pub(crate) fn place(self) -> usize
        ensures place { result ≡ place_of self }
        ensures within { result < 30 }
    {
        self as usize
    }

    /// That of an event.
    pub fn of_event(event: &Event) -> Count
        ensures { result ≡ event_count event.now }
    {
        match event {
            Event::Query { kind, .. } => match kind {
                Kind::Datagram => Count::Datagrams,
                Kind::Stream => Count::Streams,
            },
            Event::Reply { .. } => Count::Replies,
            Event::Tick { .. } => Count::Ticks,
            Event::HealthResult { .. } => Count::HealthResults,
            Event::Edit { .. } => Count::Edits,
        }
    }

    /// That of an answer.
    pub fn of_answer(answer: &Answer) -> Count
        ensures { result ≡ answer_count answer.now }
    {
        match answer {
            Answer::Dropped(why) => Count::of_drop(*why),
            Answer::Local(_, why) => Count::of_local(*why),
            Answer::Forward(..) => Count::Forwarded,
            Answer::Deliver(_, _, kept) => Count::of_kept(*kept),
            Answer::Expired(..) => Count::Expired,
            Answer::Quiet => Count::Quiet,
            Answer::Ignored(why) => Count::of_ignored(*why),
            Answer::Edited(_) => Count::Edited,
            Answer::Refused(_) => Count::Refused,
            Answer::NoMemory(_) => Count::LackedMemory,
        }
    }

    fn of_drop(why: DropReason) -> Count
        ensures { result ≡ drop_count why }
    {
        match why {
            DropReason::Short => Count::Short,
            DropReason::NotQuery => Count::NotQuery,
            DropReason::Rule(_) => Count::RuleDropped,
        }
    }

    fn of_local(why: LocalReason) -> Count
        ensures { result ≡ local_count why }
    {
        match why {
            LocalReason::Malformed => Count::Malformed,
            LocalReason::Transfer => Count::Transfer,
            LocalReason::Rule(_) => Count::RuleAnswered,
            LocalReason::Hit => Count::Hit,
            LocalReason::NoServer => Count::NoServer,
            LocalReason::LaneFull => Count::LaneFull,
        }
    }

    fn of_kept(kept: Kept) -> Count
        ensures { result ≡ kept_count kept }
    {
        match kept {
            Kept::Yes => Count::Kept,
            Kept::No => Count::NotKept,
            Kept::NoRoom => Count::NoRoom,
            Kept::NoMemory => Count::NotKeptForMemory,
        }
    }

    fn of_ignored(why: IgnoreReason) -> Count
        ensures { result ≡ ignored_count why }
    {
        match why {
            IgnoreReason::Short => Count::ShortReply,
            IgnoreReason::NotReply => Count::NotReply,
            IgnoreReason::Unknown => Count::UnknownReply,
            IgnoreReason::Mismatch => Count::Mismatch,
            IgnoreReason::NoServer => Count::NoSuchServer,
        }
    }
}
