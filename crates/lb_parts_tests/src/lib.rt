//! The tests of the ten crates below lb_core, which call what is public there: in a crate of their
//! own, so that each of the ten is proved once and not a second time with them. There is nothing
//! else here.
#![tactic(auto)]

#[cfg(test)]
mod caches;
#[cfg(test)]
mod chains;
#[cfg(test)]
mod health;
#[cfg(test)]
mod indexes;
#[cfg(test)]
mod limits;
#[cfg(test)]
mod masks;
#[cfg(test)]
mod messages;
#[cfg(test)]
mod names;
#[cfg(test)]
mod rows;
#[cfg(test)]
mod servers;
#[cfg(test)]
mod sets;
#[cfg(test)]
mod table;
#[cfg(test)]
mod terms;
