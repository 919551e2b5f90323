//! Runs one action of an agent at once and records nothing, with this program's standard output and error for the agent's.
#![tactic(auto)]

mod call;
mod ending;
mod parse;
mod run;

pub use call::{OnceCall, What};
pub use ending::OnceEnd;
pub use parse::{OnceFault, read_agent, read_id, read_parameters, read_what};
pub use run::{OnceSite, run_once};
