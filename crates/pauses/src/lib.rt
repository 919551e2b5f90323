//! Pauses and deadlines of waits for processes.
#![tactic(auto)]

mod pauses;

pub use pauses::{Deadline, Pauses, outlives, still_runs};
