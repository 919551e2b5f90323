//! An error of the device, with the part's file.
use crate::fault::{Located, OpenFault};
use ocf_types::Part;
use std::io;

/// An error of the system, with the part of whose file it was.
#[derive(Clone, Copy)]
pub struct FileError {
    pub part: Part,
    pub error: io::Error,
}

impl FileError {
    /// The error with its path, in the journal's directory.
    pub fn located(self, dir: &str) -> Located<'_> {
        OpenFault::File(self.part, self.error).located(dir)
    }
}

/// A disk that may report the error of its first failed call.
pub trait ReportsError {
    /// The first error of a system call: `None` if none failed, or if the disk makes none.
    fn first_error(&self) -> Option<FileError>;
}
