//! The tests of lb_program over readers and writers that fail, which no file of rows can be: in a crate of their own, so that
//! lb_program is proved once and not a second time with them. There is nothing else here.
#![tactic(auto)]

#[cfg(test)]
mod devices;
#[cfg(test)]
mod setups;
#[cfg(test)]
mod tests;
