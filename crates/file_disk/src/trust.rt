//! The owners and modes of a journal's directory and files that an executor accepts.
ghost use Rattle.std.specs.Prelude.{IfNone, IfSome};
ghost use Rattle.file_disk.specs.Trust.{Accepts, IsReason};

use std::fs::File;
use std::io;
use std::os::unix::fs::MetadataExt;
use thiserror::Error;

// The superuser. Linux, capabilities(7).
const ROOT: u32 = 0;

// The bits of a mode that let its group and others write a file: S_IWGRP and S_IWOTH. POSIX, sys/stat.h.
const OTHER_WRITERS: u32 = 0o022;

/// Why root's executor refuses a directory or a file for its journal: anyone who can write it decides which programs root runs.
#[derive(Clone, Copy, Debug, PartialEq, Eq, Error)]
pub enum Distrust {
    /// It belongs to this user, who is not root.
    #[error("belongs to user {0}, and not to root")]
    Owner(u32),
    /// Its group or others may write it.
    #[error("may be written by its group or others")]
    Writers,
}

/// The owners and modes that an opening accepts.
#[derive(Clone, Copy)]
pub enum Owners {
    /// Any.
    Any,
    /// Those that an executor of this user accepts: if it is root, only what root alone can write; else any.
    TrustedBy(u32),
}

impl Owners {
    // Why a file of this owner and mode is refused; `None` if it is accepted.
    fn distrust(self, owner: u32, mode: u32) -> Option<Distrust>
        ensures accepted { IfNone result (Accepts self owner mode) }
        ensures reason { IfSome result (IsReason self owner mode) }
    {
        match self {
            Owners::TrustedBy(ROOT) if owner != ROOT => Some(Distrust::Owner(owner)),
            Owners::TrustedBy(ROOT) if mode & OTHER_WRITERS != 0 => Some(Distrust::Writers),
            _ => None,
        }
    }

    /// Why this open file or directory is refused; `None` if it is accepted.
    pub(crate) fn distrust_of(self, file: &File) -> io::Result<Option<Distrust>> {
        let found = file.metadata()?;
        Ok(self.distrust(found.uid(), found.mode()))
    }
}
