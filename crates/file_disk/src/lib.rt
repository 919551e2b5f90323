//! The journal's disk: two files of one directory, or two parts in memory, with a record of the calls that only contracts see.
//!
//! The contracts of a disk of files speak of its record: of the bytes that were found at the opening, and of each call with
//! its answer. No proof ties the record to the system. It has to be trusted that each method of `FileDisk` makes the call
//! that it notes, on that part's file, and no other; that a device keeps the bytes of a sync that succeeded, and holds at an
//! opening one of the pairs that a crash may leave; and that nobody else writes the files. Of `RamDisk` nothing has to be
//! trusted: its bytes are proved to be those that its record determines.
#![tactic(auto)]

mod call;
mod directory;
mod disk;
mod entry;
mod error;
mod fault;
mod identity;
mod journal_paths;
mod known_path;
mod log;
mod look;
mod part_file;
mod ram;
mod record;
mod trust;
mod written;

pub use directory::is_held;
pub use disk::FileDisk;
pub use error::{FileError, ReportsError};
pub use fault::{Located, OpenFault};
pub use identity::{
    IDENTITY_LEN, Identity, Marks, Settled, read_identity, refuse_absent, refuse_emptied,
    settle_identity,
};
pub use journal_paths::JournalPaths;
pub use look::read_parts;
pub use part_file::OWNER_ONLY;
pub use ram::RamDisk;
pub use trust::{Distrust, Owners};
pub use written::WriteMarks;
