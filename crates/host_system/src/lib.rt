//! The system of this host as the program uses it: standard error that never blocks, its clocks, a shell that sends signals, and the
//! processes of agents.
#![tactic(auto)]

mod errors;
mod killer;
mod line;
mod programs;
mod ready;
mod system;
mod system_agents;

pub use errors::ErrorLines;
pub use system::System;
pub use system_agents::{AgentChild, SystemAgents};
