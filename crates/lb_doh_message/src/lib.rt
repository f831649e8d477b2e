//! DNS on HTTP (RFC 8484): what a request asks, and what it is answered. It is all of values, and
//! has no socket and no library of HTTP.
#![tactic(auto)]

mod fault;
mod form;
mod laws;
mod media;
mod message;
mod request;
mod response;
mod variable;

pub use fault::DohFault;
pub use laws::one_outcome;
pub use request::{DohBody, DohHead, read_body, read_head, read_request};
pub use response::{DohResponse, carrying, refused, response_of, unavailable};
