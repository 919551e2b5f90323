//! Why the files of a journal were not opened.
ghost use Rattle.std.specs.Prelude.{◌≡◌, Ok, IfErr, IfOk};
ghost use Rattle.file_disk.specs.Faults.{IsOfPart};
ghost use Rattle.file_disk.specs.declared.fault.OpenFault.TheVariants.{Memory};

use crate::trust::Distrust;
use disk_model::other_part;
use ocf_types::Part;
use std::alloc::AllocError;
use std::fmt::{self, Display, Formatter};
use std::io;
use thiserror::Error;

/// Why the files of a journal were not opened. Only the reason is displayed: `located` adds the path.
#[derive(Clone, Copy, Debug, Error)]
pub enum OpenFault {
    /// The directory has no name, is not there, is no directory, or can't be read or synced.
    #[error("{0}")]
    Directory(io::Error),
    /// The file of the part can't be made, opened, locked, synced or read.
    #[error("{1}")]
    File(Part, io::Error),
    /// A directory, a symbolic link or a device has the name of the part's file.
    #[error("not a plain file")]
    NotPlain(Part),
    /// The executor runs as root, and another user may write the directory.
    #[error("{0}")]
    DirectoryDistrusted(Distrust),
    /// The executor runs as root, and another user may write the part's file.
    #[error("{1}")]
    Distrusted(Part, Distrust),
    /// The part's file is already open as a journal's.
    #[error("in use by another executor")]
    Locked(Part),
    /// The directory is already open as a journal's.
    #[error("in use by another executor")]
    InUse,
    /// The part's file is gone, while the other one holds a journal: no crash leaves that.
    #[error("gone, while {} holds a journal", other_name(*.0))]
    Gone(Part),
    /// The part's file is not empty and holds no journal, and the other one is gone.
    #[error("holds no journal")]
    NoJournal(Part),
    /// The part's file is empty, while the other one holds a journal that was tidied: no crash leaves that.
    #[error("empty, while {} holds a journal that was tidied", other_name(*.0))]
    Emptied(Part),
    /// The part's file is empty or gone, though it was written and not both are gone: no crash leaves that.
    #[error("empty or gone, though the file identity says that it was written")]
    Cleared(Part),
    /// The directory has no journal, and one that exists was asked for.
    #[error("no journal here")]
    Absent,
    /// The journal was tidied during each reading.
    #[error("changes faster than it can be read")]
    Changing,
    /// An allocation was refused.
    #[error("memory")]
    Memory,
}

impl From<AllocError> for OpenFault {
    ghost from_gives = { λ _ e. e ≡ Memory };

    fn from(_: AllocError) -> Self {
        OpenFault::Memory
    }
}

/// The name of a part's file in the directory.
pub(crate) fn file_name(part: Part) -> &'static str {
    match part {
        Part::A => "part-a",
        Part::B => "part-b",
    }
}

// The name of the other part's file.
fn other_name(part: Part) -> &'static str {
    file_name(other_part(part))
}

/// The result of a system call on the part's file, with its error as a fault of the part.
pub(crate) fn of_part<T>(part: Part, found: io::Result<T>) -> Result<T, OpenFault>
    ensures value { IfOk result (λ x. found ≡ Ok x) }
    ensures fault { IfErr result (IsOfPart part) }
{
    match found {
        Ok(value) => Ok(value),
        Err(error) => Err(OpenFault::file(part, error)),
    }
}

impl OpenFault {
    // A fault of the directory.
    pub(crate) fn directory(error: io::Error) -> OpenFault {
        if error.kind() == io::ErrorKind::OutOfMemory {
            OpenFault::Memory
        } else {
            OpenFault::Directory(error)
        }
    }

    // A fault of the part's file.
    pub(crate) fn file(part: Part, error: io::Error) -> OpenFault
        ensures { IsOfPart part result }
    {
        if error.kind() == io::ErrorKind::OutOfMemory {
            OpenFault::Memory
        } else {
            OpenFault::File(part, error)
        }
    }

    // The name of the file that the fault concerns.
    fn name(&self) -> Option<&'static str> {
        match self {
            OpenFault::File(part, _)
            | OpenFault::NotPlain(part)
            | OpenFault::Distrusted(part, _)
            | OpenFault::Locked(part)
            | OpenFault::Gone(part)
            | OpenFault::NoJournal(part)
            | OpenFault::Emptied(part)
            | OpenFault::Cleared(part) => Some(file_name(*part)),
            OpenFault::Directory(_)
            | OpenFault::DirectoryDistrusted(_)
            | OpenFault::InUse
            | OpenFault::Absent
            | OpenFault::Changing
            | OpenFault::Memory => None,
        }
    }

    /// Whether the directory or a file was refused for its owner or mode.
    pub fn is_distrust(&self) -> bool {
        matches!(
            self,
            OpenFault::DirectoryDistrusted(_) | OpenFault::Distrusted(_, _)
        )
    }

    /// The fault with its path, in the directory that was to be opened.
    pub fn located(self, dir: &str) -> Located<'_>
        ensures directory { result.dir.now ≡ dir.now }
        ensures fault { result.fault ≡ self }
    {
        Located { dir, fault: self }
    }
}

/// A fault with its path. It is displayed as `/var/lib/ocfexec/part-a: not a plain file`.
#[derive(Clone, Copy)]
pub struct Located<'a> {
    dir: &'a str,
    fault: OpenFault,
}

impl Display for Located<'_> {
    fn fmt<W: fmt::Write>(&self, f: &mut Formatter<W>) -> fmt::Result {
        match self.fault.name() {
            Some(name) => write!(f, "{}/{name}: {}", self.dir, self.fault),
            None if self.dir.is_empty() => write!(f, "{}", self.fault),
            None => write!(f, "{}: {}", self.dir, self.fault),
        }
    }
}
