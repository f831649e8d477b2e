//! Actions.

ghost use Rattle.std.specs.Prelude.{◌≡◌, option_copied};
ghost use Rattle.lb_chain.specs.Action.{pool_in, with_pool};

use crate::addrs::Addrs;
use lb_wire::Rcode;

/// What a rule does with a query that its term holds of. `P` names a pool: by its number in a chain,
/// by its name in a command.
#[derive(Clone, Copy, Debug, Drop)]
pub enum Action<P> {
    /// Send the query on to the default pool; this ends the walk.
    Allow,
    /// Drop the query; this ends the walk.
    Drop,
    /// Answer with this RCODE; this ends the walk.
    Rcode(Rcode),
    /// Send the query on to this pool; this ends the walk.
    Pool(P),
    /// Answer a datagram query with TC, so that the client comes again over TCP; this ends the walk for a datagram query.
    Tc,
    /// Answer with those of these addresses that fit the type asked for; this ends the walk where the class is IN and one
    /// of them fits.
    Spoof(Addrs),
    /// Nothing: the rule is there for its term's rate limiters.
    None,
    /// Send the query on with RD 0.
    NoRecurse,
    /// Neither look in the cache nor keep the reply.
    SkipCache,
}

impl<P: Drop> Action<P> {
    /// The pool that it names, if it names one.
    pub fn pool(&self) -> Option<&P>
        ensures { option_copied result ≡ pool_in self.now }
    {
        match self {
            Action::Pool(pool) => Some(pool),
            _ => None,
        }
    }

    /// The same action, with this pool in place of the one that it names. None if it names one and
    /// none is given.
    pub fn with_pool<Q: Drop>(&self, pool: Option<Q>) -> Option<Action<Q>>
        ensures { result ≡ with_pool pool self.now }
    {
        match self {
            Action::Allow => Some(Action::Allow),
            Action::Drop => Some(Action::Drop),
            Action::Rcode(rcode) => Some(Action::Rcode(*rcode)),
            Action::Pool(_) => Some(Action::Pool(pool?)),
            Action::Tc => Some(Action::Tc),
            Action::Spoof(addrs) => Some(Action::Spoof(*addrs)),
            Action::None => Some(Action::None),
            Action::NoRecurse => Some(Action::NoRecurse),
            Action::SkipCache => Some(Action::SkipCache),
        }
    }

    /// An equal action, which takes a copy of the pool that it names.
    pub fn copy_with(&self, pool: Option<P>) -> Action<P>
        requires { pool ≡ pool_in self.now }
        ensures { result ≡ self.now }
    {
        match self {
            Action::Allow => Action::Allow,
            Action::Drop => Action::Drop,
            Action::Rcode(rcode) => Action::Rcode(*rcode),
            Action::Pool(_) => match pool {
                Some(pool) => Action::Pool(pool),
                None => unreachable!(),
            },
            Action::Tc => Action::Tc,
            Action::Spoof(addrs) => Action::Spoof(*addrs),
            Action::None => Action::None,
            Action::NoRecurse => Action::NoRecurse,
            Action::SkipCache => Action::SkipCache,
        }
    }
}
