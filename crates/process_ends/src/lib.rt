//! Ends processes with all that they started: how they are found, suspended, killed and waited for, over any system of processes.
#![tactic(auto)]

mod ending;
mod given_up;
mod kill;
mod report;
mod search;

pub use ending::{end_agent, kill_actions};
pub use given_up::GivenUpAction;
pub use report::{report_alive, report_all};
