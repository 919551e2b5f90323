//! The file `agents` of a journal's directory: the record of the agents that an executor runs.
#![tactic(auto)]

mod contents;
mod entry;
mod file;
mod head;
pub mod laws;
mod line;
mod slots;

pub use contents::Kept;
pub use entry::{AgentEntry, entry_line, entry_of};
pub use file::{AgentsFile, Found, boot_id, monotonic_now, read_agents};
pub use head::{BOOT_ID_LEN, Head, head_line, head_of};
pub use line::{LINE_LEN, blank_line};
pub use slots::SLOTS;
