//! The front of DNS on HTTP (RFC 8484): connections of HTTP/1.1, behind a proxy that ends TLS.
//! hyper reads and writes them, tokio drives them, on one thread.
#![tactic(auto)]

mod answering;
mod closing;
mod connections;
mod cut;
mod heads;
mod late;
mod laws;
mod paced;
mod response;
mod serving;
mod shared;

pub use connections::{Make, Served};
pub use cut::FrontFault;
pub use heads::Client;
pub use laws::fronts_cross_threads;
pub use lb_doh::{
    Asker, Bringer, Brought, DohBody, DohFault, DohResponse, EnterFault, HttpPosts, Next, Requests,
    Ticket, Waiting, carrying, next_of, one_outcome, posts_cross_threads, query_of, read_request,
    refused, response_of, unavailable,
};
pub use paced::Paced;
pub use serving::{
    Admission, Bound, END_MILLISECONDS, FrontEnded, FrontParts, front_runtime, run_front,
    serve_connections, settings,
};
