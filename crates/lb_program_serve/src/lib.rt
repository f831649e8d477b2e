//! What `lb serve` does: it sets a balancer up by a file, listens, and has the loops run, each in a
//! thread of its own, with a console beside them, until the console says stop.
#![tactic(auto)]

mod client;
mod console;
mod crew;
mod descriptors;
mod desk;
mod fault;
mod gate;
mod halt;
mod handlers;
mod hears;
mod listening;
mod log;
mod news;
mod notices;
mod opening;
mod operator;
mod pages;
mod parts;
mod sentences;
mod serving;
mod shared;
mod sockets;
mod switches;
mod threads;
mod typed;

pub use serving::{serve, serve_told, tell_unreadable};
