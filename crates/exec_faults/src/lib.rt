//! The faults that end the program: their texts, exit statuses and advice.
#![tactic(auto)]

mod fault;

pub use fault::Fault;
