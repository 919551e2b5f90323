//! The files of a journal in a directory: how they are opened or refused, how their faults are reported, and their identity.
#![tactic(auto)]

mod emptied;
mod files;
mod identity;

pub use emptied::not_emptied;
pub use files::{
    FaultForm, disk_or_fault, has_executor, open_files, report_device, report_failed_device,
};
pub use identity::{identity_of, settled_identity};
