//! Past items and values that only contracts read: they take no memory.
#![tactic(auto)]

mod past;
mod seen;

pub use past::Past;
pub use seen::Seen;
