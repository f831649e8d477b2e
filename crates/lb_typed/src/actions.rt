//! Actions of rules.

ghost use Rattle.std.specs.Prelude.{◌≡◌, ◌<◌, ◌≤◌, IfOk, length, string_bytes};
ghost use Rattle.lb_command.specs.Grammar.{action, comma_list, says};
ghost use Rattle.lb_command.specs.Values.{addr_of};
ghost use Rattle.lb_typed.specs.Pieces.{Spells};
ghost use Rattle.lb_typed.specs.Typed.{IsTypedAction};

use crate::addrs::addr_word;
use crate::terms::{bracketed, push_word};
use crate::words::{pool_word, rcode_word};
use lb_chain::Action;
use lb_servers::PoolName;
use lb_wire::Addr;
use std::alloc::{AllocError, Global};

/// Addresses with commas between them.
fn addrs_text(alloc: Global, addrs: &[Addr]) -> Result<String, AllocError>
    ensures { IfOk result (λ text. 0 < length addrs.now → Spells (comma_list (says addr_of) addrs.now) (string_bytes text)) }
{
    let [first, ..] = addrs else {
        return Ok(String::new(alloc));
    };
    let mut text = addr_word(alloc, first)?;
    'addrs: for place in 1..addrs.len() {
        let word = addr_word(alloc, &addrs[place])?;
        push_word(&mut text, word.as_str())?;
    }
    Ok(text)
}

/// An action. One that answers with an RCODE that cannot be typed has `?` in its place.
pub fn action_text(alloc: Global, what: &Action<PoolName>) -> Result<String, AllocError>
    ensures { IfOk result (λ text. IsTypedAction what.now → Spells (action what.now) (string_bytes text)) }
{
    match what {
        Action::Allow => String::from_str(alloc, "allow"),
        Action::Drop => String::from_str(alloc, "drop"),
        Action::Rcode(rcode) => bracketed(alloc, "rcode", rcode_word(*rcode)),
        Action::Pool(name) => bracketed(alloc, "pool", pool_word(name)),
        Action::Tc => String::from_str(alloc, "tc"),
        Action::Spoof(addrs) => {
            let inner = addrs_text(alloc, addrs.as_slice())?;
            bracketed(alloc, "spoof", inner.as_str())
        }
        Action::None => String::from_str(alloc, "none"),
        Action::NoRecurse => String::from_str(alloc, "norecurse"),
        Action::SkipCache => String::from_str(alloc, "skipcache"),
    }
}
