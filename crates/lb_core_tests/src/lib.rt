//! The tests of lb_core, which call what is public there: in a crate of their own, so that lb_core
//! is proved once and not a second time with them. There is nothing else here. What lines can say is
//! tested over the built program; here is the rest.
#![tactic(auto)]

#[cfg(test)]
mod lines;
#[cfg(test)]
mod long_runs;
#[cfg(test)]
mod tests;
