//! The operations of one resource: the queued actions, the running one, and the results that are kept.
#![tactic(auto)]

mod entries;
mod ops;
mod queued;
mod results;

pub use entries::{drop_notice, run_notice};
pub use ops::{NotQueued, Ops, QueueFull};
