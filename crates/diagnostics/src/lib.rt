//! Reports on standard error when the program starts and ends: the fault that ends it, a standard stream that failed, and the
//! signals that were ignored when it started.
#![tactic(auto)]

mod signals;
mod standard_error;
mod streams;

pub use signals::{children_ignored, report_ignored};
pub use standard_error::{explain, is_journal, report, report_cause, report_in_line};
pub use streams::{FirstError, Noted, Shown, report_run, report_shown};
