//! What loops answer clients with.

use crate::traffic::Service;

/// What a loop answers clients with, beside its sockets and its outbox.
#[derive(Drop)]
pub struct Answering<P, T, O> {
    /// What listens at each place of the listen lines.
    pub fronts: Vec<Service>,
    /// The HTTP requests that wait.
    pub posts: P,
    /// Its event handler.
    pub taker: T,
    /// Its source of moments and words.
    pub outside: O,
}
