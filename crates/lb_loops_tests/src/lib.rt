//! The tests of lb_desk and of the loops' crates, which call what is public there: in a crate of
//! their own, so that those are proved once and not a second time with them. There is nothing else
//! here.
#![tactic(auto)]

#[cfg(test)]
mod blocks;
#[cfg(test)]
mod callers;
#[cfg(test)]
mod calls;
#[cfg(test)]
mod events;
#[cfg(test)]
mod frames;
#[cfg(test)]
mod loops;
#[cfg(test)]
mod outboxes;
#[cfg(test)]
mod rosters;
#[cfg(test)]
mod rounds;
