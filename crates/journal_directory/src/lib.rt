//! How the journal of a directory is printed, also one that another program holds.
#![tactic(auto)]

mod follow;
mod log;
mod log_ends;
mod look;
mod metrics;
mod printing;
mod registration;
mod screen;
mod show;
mod status;
mod waits;
mod watch;

pub use registration::{RegisteredResource, registered};
pub use show::{show_disk, show_files};
