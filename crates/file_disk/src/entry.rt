//! The entries of a directory under the names of both parts.
ghost use Rattle.std.specs.Prelude.{◌≡◌, IfErr};
ghost use Rattle.file_disk.specs.Entries.{holds_journal, loss_of, reported_loss};
ghost use Rattle.file_disk.specs.Faults.{IsOfPart};

use crate::fault::{OpenFault, file_name};
use disk_model::other_part;
use ocf_types::Part;
use std::alloc::Allocator;
use std::fs;
use std::io::ErrorKind;
use std::rt::Files;
use two_parts::MAGIC;

/// An entry under the name of a part's file.
#[derive(Clone, Copy, PartialEq, Eq)]
pub enum Entry {
    Missing,
    Empty,
    Filled,
}

impl Entry {
    /// A file of this length.
    pub fn of_file(size: u64) -> Entry {
        if size == 0 {
            Entry::Empty
        } else {
            Entry::Filled
        }
    }
}

/// Finds the entry under the name of a part's file. A directory, a link or a device is a fault.
pub fn entry_of<R: Files, A: Allocator>(
    rt: &R,
    alloc: A,
    dir: &str,
    part: Part,
) -> Result<Entry, OpenFault>
    ensures { IfErr result (IsOfPart part) }
{
    let path = format!(in alloc; "{dir}/{}", file_name(part))?;
    match fs::symlink_metadata(rt, path.as_str()) {
        Ok(found) if found.is_file() => Ok(Entry::of_file(found.len())),
        Ok(_) => Err(OpenFault::NotPlain(part)),
        Err(error) if error.kind() == ErrorKind::NotFound => Ok(Entry::Missing),
        Err(error) => Err(OpenFault::file(part, error)),
    }
}

/// Refuses a pair of which one file is missing while the other is not empty. Both files are made before either is written, so
/// no crash leaves that.
pub fn refuse_loss(a: Entry, b: Entry) -> Result<(), OpenFault>
    ensures { result ≡ loss_of a b }
{
    match (a, b) {
        (Entry::Missing, Entry::Filled) => Err(OpenFault::Gone(Part::A)),
        (Entry::Filled, Entry::Missing) => Err(OpenFault::Gone(Part::B)),
        _ => Ok(()),
    }
}

// Whether a file with these bytes begins as each part of a journal does.
fn holds_journal(bytes: &[u8]) -> bool
    ensures { result ≡ holds_journal bytes.now }
{
    bytes.len() >= 5 && bytes[1..5] == MAGIC[..]
}

/// The fault to report, if the remaining file has these bytes: `NoJournal` for a `Gone` if that file holds no journal.
pub fn reported_loss(loss: OpenFault, bytes: &[u8]) -> OpenFault
    ensures { result ≡ reported_loss bytes.now loss }
{
    match loss {
        OpenFault::Gone(part) if !holds_journal(bytes) => OpenFault::NoJournal(other_part(part)),
        _ => loss,
    }
}
