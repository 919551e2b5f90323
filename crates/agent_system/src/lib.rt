//! The system's processes, as those who start and end agents see them.
#![tactic(auto)]

mod agent_process;
mod agent_system;
mod command;
mod ends;
pub mod laws;
mod leading;
mod note;
mod program_search;
mod refusal;
mod signal;
mod waited;

pub use agent_process::{AgentProcess, Whose};
pub use agent_system::{AgentSystem, How, OpenedRecord};
pub use command::{command_by, command_of, write_to};
pub use ends::{end_of, poll_of, start_fault};
pub use leading::{Leading, leading_for, leading_of};
pub use note::SystemNote;
pub use program_search::check_program;
pub use refusal::{name_text, refused};
pub use signal::{Signal, Target};
pub use waited::Waited;
