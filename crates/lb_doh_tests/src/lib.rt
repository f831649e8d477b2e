//! The tests of lb_doh_message and lb_doh, which call what is public there: in a crate of their own, so that they are proved once and not a second time with
//! them. There is nothing else here.
#![tactic(auto)]

#[cfg(test)]
mod requests;
#[cfg(test)]
mod responses;
#[cfg(test)]
mod rows;
#[cfg(test)]
mod waiting;
