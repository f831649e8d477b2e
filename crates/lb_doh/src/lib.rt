//! DNS on HTTP at the desk: the requests that wait, the answers that are handed to them, and what
//! comes of a request's query. It knows no library of HTTP.
#![tactic(auto)]

mod asking;
mod fault;
mod laws;
mod next;
mod posts;
mod ticket;
mod waiting;

pub use asking::Asker;
pub use fault::EnterFault;
pub use laws::posts_cross_threads;
pub use lb_doh_message::{
    DohBody, DohFault, DohHead, DohResponse, carrying, one_outcome, read_body, read_head,
    read_request, refused, response_of, unavailable,
};
pub use next::{Next, next_of, query_of};
pub use posts::{Bringer, HttpPosts, Requests};
pub use ticket::{Brought, Ticket};
pub use waiting::Waiting;
