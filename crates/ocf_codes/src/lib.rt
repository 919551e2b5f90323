//! Exit codes of OCF resource agents, the codes of outcomes, and the outcomes that are failures.
#![tactic(auto)]

mod exit_code;
mod expectation;
pub mod laws;
mod outcome_code;

pub use exit_code::{Code, name, read_code, words};
pub use expectation::{expected, failed, is_failure};
pub use outcome_code::{code_of, name_of};
