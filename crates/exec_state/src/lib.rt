//! The registry of resources and the state machine: the commands that it accepts, and the change by each event.
#![tactic(auto)]

mod answer;
mod applies;
mod apply;
mod boot;
mod check;
pub mod laws;
mod pick;
mod registered;
mod registry;
mod state;
mod view;

pub use state::State;
