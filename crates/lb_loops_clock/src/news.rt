//! What the clock tells the desk.

ghost use Rattle.std.specs.Prelude.{◌≡◌};
ghost use Rattle.lb_loops_clock.specs.News.{event_told, source_told};

use lb_core::Event;
use lb_loops_io::Source;
use lb_wire::ServerId;

/// What the clock tells: that time has passed, or what came of a server's probe with this word.
#[derive(Clone, Copy, Debug)]
pub(crate) enum News {
    Tick,
    Result(ServerId, u16, bool),
}

impl News {
    /// The event of it at this moment.
    pub(crate) fn event(self, now: u64) -> Event
        ensures { result ≡ event_told self now }
    {
        match self {
            News::Tick => Event::Tick { now },
            News::Result(server, _, ok) => Event::HealthResult { now, server, ok },
        }
    }

    /// Where it comes from.
    pub(crate) fn source(self) -> Source
        ensures { result ≡ source_told self }
    {
        match self {
            News::Tick => Source::Clock,
            News::Result(server, word, _) => Source::Probe(server, word),
        }
    }
}
