//! The program as one function over the system.
#![tactic(auto)]

mod ends;
mod run;
mod start;

pub use start::program;
