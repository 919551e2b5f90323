//! Running agents, which are child processes of the executor, and the book of what each of them answered.
#![tactic(auto)]

mod agents;
mod book;
mod keeper;
pub mod laws;
mod logging;
mod moments;
mod opening;
mod processes;
mod record;
mod starting;
mod wait;
mod wait_lines;
mod waits;

pub use agent_logs::{Log, LogDirectory};
pub use agents::LIVE_LIMIT;
pub use book::Book;
pub use child_model::{Answer, Children, Entry, KillFault, Poll};
pub use opening::Upkeep;
pub use processes::Processes;
