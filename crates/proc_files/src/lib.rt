//! The processes of the system, as the files of `/proc` describe them, and those that belong to actions. Linux, proc(5).
#![tactic(auto)]

mod belongings;
mod files;
mod pieces;
mod process;
mod read;
mod signal;
mod stat;

pub use belongings::belonging;
pub use files::ProcFiles;
pub use process::{Process, has};
pub use read::{pids, read_head};
pub use signal::is_ignored;
pub use stat::read_stat;
