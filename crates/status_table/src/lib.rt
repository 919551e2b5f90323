//! What a status shows of each resource, and the table of that.
#![tactic(auto)]

mod details;
mod history;
mod options;
mod phrases;
mod rows;
mod summary;
mod table;
mod widths;

pub use options::{Remark, StatusOptions};
pub use rows::{Row, rows_of};
pub use table::table_of;
