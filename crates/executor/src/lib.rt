//! A local executor of OCF resource agents: what is acknowledged survives a crash at any moment.
#![tactic(auto)]

mod commands;
mod executor;
mod files;
mod opening;
mod report;
mod session;
mod tidies;
mod turns;

pub use executor::{Executor, On};
pub use files::OpenFault;
pub use opening::{OnFault, OpenError};
pub use report::Report;
pub use session::{Input, InputOf};
