//! Rule selectors: what a rule asks of a query, whether it holds, and which rate limiters count the query.
#![tactic(auto)]

mod check;
mod copy;
mod equality;
mod fault;
mod index;
mod laws;
mod limiters;
mod names;
mod term;
mod tested;
mod truth;

pub use check::{MAX_QPS, MAX_SET};
pub use fault::TermFault;
pub use laws::{mask_test_decides, suffix_test_decides, terms_cross_threads};
pub use limiters::{limiter_count, new_limiters};
pub use names::Names;
pub use term::{CheckedTerm, MAX_DEPTH, MAX_NODES, Term};
pub use tested::{MAX_LIMITERS, Passes, Tested};
pub use truth::holds;
