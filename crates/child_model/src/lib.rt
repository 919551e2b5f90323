//! The calls by which an executor starts, polls and kills agent processes, and the book of their answers.
#![tactic(auto)]

mod answer;
mod children;
pub mod laws;

pub use answer::{Answer, Entry, KillFault, Poll};
pub use children::Children;
