//! Writes the contents of a journal as metrics for Prometheus.
#![tactic(auto)]

mod executor;
mod families;
mod family;
mod label;
mod monitors;
mod results;
mod sample;
mod states;
mod writing;

pub use executor::{Seen, executor_metrics};
pub use writing::metrics;
