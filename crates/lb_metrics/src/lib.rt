//! All counts by HTTP/1.1, for Prometheus: a GET of /metrics gives a page of text. hyper reads and
//! writes the connections, tokio drives them, on one thread, as it is with DNS on HTTP.
#![tactic(auto)]

mod asked;
mod laws;
mod page;
mod response;
mod service;
mod serving;

pub use laws::metrics_cross_threads;
pub use page::Page;
pub use serving::{MetricsParts, metrics_runtime, run_metrics};
