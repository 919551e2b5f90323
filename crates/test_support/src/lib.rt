//! Test doubles for the sessions of trials and tests: a clock that is moved by waiting, scripted agents, and agents without
//! metadata. Nothing here is part of the product.
#![tactic(auto)]

mod clock;
mod drawn_agents;
mod live;
mod metadata;
mod script;
mod scripted;

pub use clock::MovedClock;
pub use drawn_agents::{agents, no_agents, nowhere};
pub use metadata::NoMetadata;
pub use script::Script;
pub use scripted::Scripted;
