//! Reading the options of a new server.

ghost use Rattle.std.specs.Prelude.{◌≡◌, ◌≤◌, length};
ghost use Rattle.lb_command.specs.Commands.{behind_option, fall_at, lanes_at, nothing_stated, option_words, options_at, order_at, pool_option_at, rise_at};
ghost use Rattle.lb_command.specs.Reading.{Reads};
ghost use Rattle.lb_command.specs.Values.{looked_up};

use crate::fault::{FaultKind, Unread};
use crate::parts::{count, lane_count, pool};
use crate::values::look_up;
use crate::words::Words;
use lb_servers::{LaneCount, MAX_POOLS_OF_SERVER, PoolName};
use std::alloc::Global;
use std::marker::Model;
use std::num::NonZeroU8;

/// The most words of a line.
const MAX_WORDS: usize = 300_000;

/// The word that begins an option of a new server.
#[derive(Clone, Copy, Debug, PartialEq, Eq)]
pub(crate) enum ServerOption {
    Order,
    Pool,
    Fall,
    Rise,
    Lanes,
    Resolve,
}

/// The words that begin options.
const OPTIONS: [(ServerOption, &str); 6] = [
    (ServerOption::Order, "order"),
    (ServerOption::Pool, "pool"),
    (ServerOption::Fall, "fall"),
    (ServerOption::Rise, "rise"),
    (ServerOption::Lanes, "lanes"),
    (ServerOption::Resolve, "resolve"),
];

/// What a word begins.
fn option_of(text: &[u8]) -> Option<ServerOption>
    ensures { result ≡ looked_up option_words text.now }
{
    look_up(&OPTIONS, text)
}

/// What the options of a new server say.
#[derive(Debug, Drop)]
pub(crate) struct Options {
    pub(crate) order: u16,
    pub(crate) pools: Vec<PoolName>,
    pub(crate) fall: NonZeroU8,
    pub(crate) rise: NonZeroU8,
    pub(crate) lanes: LaneCount,
    pub(crate) resolve: bool,
}

impl Model for Options {
    ghost use Rattle.std.specs.Prelude.{◌≤◌, length};
    ghost use Rattle.lb_command.specs.Commands.{Stated};

    ghost Value = { Stated };

    ghost view = { λ o. record { order = o.order; pools = o.pools.items; fall = o.fall; rise = o.rise; lanes = o.lanes; resolve = o.resolve } };

    ghost invariant = { λ o. length o.pools.items ≤ 8 };
}

impl Options {
    /// Those of a server where none is given. It takes no memory.
    fn new(alloc: Global) -> Options
        ensures { result ≡ nothing_stated }
    {
        Options {
            order: 1,
            pools: Vec::new(alloc),
            fall: NonZeroU8::MIN,
            rise: NonZeroU8::MIN,
            lanes: LaneCount::one(),
            resolve: false,
        }
    }

    /// Takes the number after `order`.
    #[tactic(auto, unfolding(crate::specs::Commands::order_at))]
    fn read_order(self, words: &mut Words<'_>) -> Result<Options, Unread>
        ensures { Reads (λ o. o) result words.new (order_at self words.old) }
    {
        let order = words.number(65_535)? as u16;
        Ok(Options { order, ..self })
    }

    /// Takes the name after `pool`.
    #[tactic(auto, unfolding(crate::specs::Commands::pool_option_at))]
    fn read_pool(self, words: &mut Words<'_>) -> Result<Options, Unread>
        ensures { Reads (λ o. o) result words.new (pool_option_at self words.old) }
    {
        let token = words.peek();
        let pool = pool(words)?;
        let mut pools = self.pools;
        if pools.len() >= MAX_POOLS_OF_SERVER {
            return Err(token.is_too_many());
        }
        pools.push(pool)?;
        Ok(Options { pools, ..self })
    }

    /// Takes the number after `fall`.
    #[tactic(auto, unfolding(crate::specs::Commands::fall_at))]
    fn read_fall(self, words: &mut Words<'_>) -> Result<Options, Unread>
        ensures { Reads (λ o. o) result words.new (fall_at self words.old) }
    {
        let fall = count(words)?;
        Ok(Options { fall, ..self })
    }

    /// Takes the number after `rise`.
    #[tactic(auto, unfolding(crate::specs::Commands::rise_at))]
    fn read_rise(self, words: &mut Words<'_>) -> Result<Options, Unread>
        ensures { Reads (λ o. o) result words.new (rise_at self words.old) }
    {
        let rise = count(words)?;
        Ok(Options { rise, ..self })
    }

    /// Takes the number after `lanes`.
    #[tactic(auto, unfolding(crate::specs::Commands::lanes_at))]
    fn read_lanes(self, words: &mut Words<'_>) -> Result<Options, Unread>
        ensures { Reads (λ o. o) result words.new (lanes_at self words.old) }
    {
        let lanes = lane_count(words)?;
        Ok(Options { lanes, ..self })
    }

    /// Takes what stands after the word that begins an option.
    fn read_option(self, option: ServerOption, words: &mut Words<'_>) -> Result<Options, Unread>
        ensures { Reads (λ o. o) result words.new (behind_option option self words.old) }
    {
        match option {
            ServerOption::Order => self.read_order(words),
            ServerOption::Pool => self.read_pool(words),
            ServerOption::Fall => self.read_fall(words),
            ServerOption::Rise => self.read_rise(words),
            ServerOption::Lanes => self.read_lanes(words),
            ServerOption::Resolve => Ok(Options {
                resolve: true,
                ..self
            }),
        }
    }
}

/// Takes the options of a new server, as many as there are. Of one that is repeated the last counts, but for `pool`.
pub(crate) fn server_options(alloc: Global, words: &mut Words<'_>) -> Result<Options, Unread>
    ensures { Reads (λ o. o) result words.new (options_at 300000 nothing_stated words.old) }
{
    let mut options = Options::new(alloc);
    'options: for _ in 0..MAX_WORDS {
        let Some(option) = option_of(words.peek().text) else {
            return Ok(options);
        };
        let _ = words.next();
        options = options.read_option(option, words)?;
    }
    Ok(options)
}
