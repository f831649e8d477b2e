//! Reading actions.

ghost use Rattle.std.specs.Prelude.{◌≡◌, codes};
ghost use Rattle.lb_command.specs.declared.fault.FaultKind.TheVariants.{BadAddress};
ghost use Rattle.lb_command.specs.Actions.{action_at, pool_at, rcode_at, spoof_at, verdict_of};
ghost use Rattle.lb_command.specs.Reading.{Reads, due, listed, taken};
ghost use Rattle.lb_command.specs.Values.{addr_of};

use crate::fault::{FaultKind, Unread};
use crate::parts::{addr, pool, rcode};
use crate::values::look_up;
use crate::words::Words;
use lb_chain::{Action, Addrs, MAX_ADDRS};
use lb_servers::PoolName;
use lb_wire::Addr;
use std::alloc::Global;

/// The word that begins an action.
#[derive(Clone, Copy, Debug, PartialEq, Eq)]
enum Verdict {
    Allow,
    Drop,
    Rcode,
    Pool,
    Tc,
    Spoof,
    None,
    NoRecurse,
    SkipCache,
}

/// The words that begin actions.
const VERDICTS: [(Verdict, &str); 9] = [
    (Verdict::Allow, "allow"),
    (Verdict::Drop, "drop"),
    (Verdict::Rcode, "rcode"),
    (Verdict::Pool, "pool"),
    (Verdict::Tc, "tc"),
    (Verdict::Spoof, "spoof"),
    (Verdict::None, "none"),
    (Verdict::NoRecurse, "norecurse"),
    (Verdict::SkipCache, "skipcache"),
];

/// What a word begins.
fn verdict_of(text: &[u8]) -> Option<Verdict>
    ensures { result ≡ verdict_of text.now }
{
    look_up(&VERDICTS, text)
}

/// Takes addresses with commas between them.
fn addrs(alloc: Global, words: &mut Words<'_>) -> Result<Vec<Addr>, Unread>
    ensures { Reads (λ addrs. addrs.items) result words.new (listed (due BadAddress addr_of) (taken (codes ",")) (λ s. s) 8 words.old) }
{
    let mut addrs = Vec::new(alloc);
    'addrs: for _ in 0..MAX_ADDRS {
        addrs.push(addr(words)?)?;
        if !words.takes(b",") {
            return Ok(addrs);
        }
    }
    let token = words.peek();
    let _ = addr(words)?;
    Err(token.is_too_many())
}

/// `(ADDR{,ADDR})`
#[tactic(auto, unfolding(crate::specs::Actions::spoof_at))]
fn read_spoof(alloc: Global, words: &mut Words<'_>) -> Result<Action<PoolName>, Unread>
    ensures { Reads (λ action. action) result words.new (spoof_at words.old) }
{
    let token = words.peek();
    words.word(b"(")?;
    let addrs = addrs(alloc, words)?;
    words.word(b")")?;
    match Addrs::from_slice(addrs.as_slice()) {
        Some(addrs) => Ok(Action::Spoof(addrs)),
        None => Err(token.is_too_many()),
    }
}

/// `(RCODE)`
#[tactic(auto, unfolding(crate::specs::Actions::rcode_at))]
fn read_rcode(words: &mut Words<'_>) -> Result<Action<PoolName>, Unread>
    ensures { Reads (λ action. action) result words.new (rcode_at words.old) }
{
    words.word(b"(")?;
    let rcode = rcode(words)?;
    words.word(b")")?;
    Ok(Action::Rcode(rcode))
}

/// `(PNAME)`
#[tactic(auto, unfolding(crate::specs::Actions::pool_at))]
fn read_pool(words: &mut Words<'_>) -> Result<Action<PoolName>, Unread>
    ensures { Reads (λ action. action) result words.new (pool_at words.old) }
{
    words.word(b"(")?;
    let pool = pool(words)?;
    words.word(b")")?;
    Ok(Action::Pool(pool))
}

/// Takes an action.
#[tactic(auto, unfolding(crate::specs::Actions::action_at))]
pub(crate) fn action(alloc: Global, words: &mut Words<'_>) -> Result<Action<PoolName>, Unread>
    ensures { Reads (λ action. action) result words.new (action_at words.old) }
{
    let token = words.next();
    let Some(verdict) = verdict_of(token.text) else {
        return Err(token.fault(FaultKind::UnknownWord));
    };
    match verdict {
        Verdict::Allow => Ok(Action::Allow),
        Verdict::Drop => Ok(Action::Drop),
        Verdict::Rcode => read_rcode(words),
        Verdict::Pool => read_pool(words),
        Verdict::Tc => Ok(Action::Tc),
        Verdict::Spoof => read_spoof(alloc, words),
        Verdict::None => Ok(Action::None),
        Verdict::NoRecurse => Ok(Action::NoRecurse),
        Verdict::SkipCache => Ok(Action::SkipCache),
    }
}
