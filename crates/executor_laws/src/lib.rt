//! The laws of an executor: of its calls, of histories of incarnations, and of the machine that knows no store.
#![tactic(auto)]

pub mod histories;
pub mod laws;
pub mod machine;
pub mod runs;
