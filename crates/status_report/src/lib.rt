//! The report on a journal: `show`, and `status` as a table or as lines of JSON.
#![tactic(auto)]

mod endings;
mod failures;
mod shown;
mod state_lines;
mod statuses;
mod written_lines;

pub use failures::failed;
pub use shown::show;
pub use statuses::status;
