//! Laws of sessions.
#![tactic(auto)]

pub mod laws;
