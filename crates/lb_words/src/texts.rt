//! Numbers and names of pools, as an operator types them.

use lb_servers::{Pool, PoolName};
use lb_typed::pool_word;
use lb_wire::PoolId;
use std::alloc::{AllocError, Global};

/// Puts a number after a text.
pub(crate) fn push_number(alloc: Global, text: &mut String, number: u64) -> Result<(), AllocError> {
    let digits = format!(in alloc; "{number}")?;
    text.push_str(digits.as_str())
}

/// The pool with a number.
pub(crate) fn pool_of(pools: &[Pool], id: PoolId) -> Option<&PoolName> {
    match pools.get(usize::from(id.0)) {
        Some(pool) => Some(&pool.name),
        None => None,
    }
}

/// The name of the pool with a number.
pub(crate) fn pool_named(pools: &[Pool], id: PoolId) -> &str {
    match pool_of(pools, id) {
        Some(name) => pool_word(name),
        None => "?",
    }
}
