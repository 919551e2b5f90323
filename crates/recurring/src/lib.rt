//! The recurring monitors of a resource, each with the moment at which it is due, and an index of those of all resources.
#![tactic(auto)]

mod due_call;
mod due_calls;
mod due_index;
mod first_moments;
mod monitor;
mod recurrings;

pub use due_index::{DueIndex, INDEX_LIMIT};
pub use monitor::Monitor;
pub use recurrings::{NoSuchRecurring, NotAdded, Recurrings};
