//! Domain names (RFC 1035 sections 2.3 and 3.1): a name is its list of labels. It is read from a message exactly where
//! one stands there, read from a text and written as one, and compared without regard to case.
#![tactic(auto)]

mod fault;
mod kept;
mod labels;
mod laws;
mod name;
mod text;

pub use fault::NameFault;
pub use kept::KeptName;
pub use laws::{
    label_is_passed, labels_go_on, lowers_on_wire, one_name, splits_back, text_round_trip,
};
pub use name::{LABEL_END, MAX_NAME, Name, POINTER};
