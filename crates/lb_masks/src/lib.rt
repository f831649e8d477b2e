//! Netmasks (RFC 4291 section 2.3, RFC 4632 section 3.1): addresses and masks read from texts, which addresses a mask
//! covers, addresses with the bits past a length cleared, and ranks that are filed under masks: the least of those whose
//! mask covers an address.
#![tactic(auto)]

mod address;
mod bits;
mod fault;
mod form;
mod group;
mod index;
mod key;
mod kinds;
mod marks;
mod mask;
mod number;

pub use address::parse_addr;
pub use fault::MaskFault;
pub use group::Group;
pub use index::{MaskIndex, equal_where_same};
pub use mask::{Mask, masked};
pub use number::decimal_up_to;
