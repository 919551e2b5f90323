//! Why actions failed, as their agents wrote it to logs.
#![tactic(auto)]

mod bytes;
mod headings;
mod reasons;
mod run_reasons;
mod shared_log;

pub use reasons::{FoundReason, reasons_in};
pub use run_reasons::{reason_in_directory, reason_in_file};
