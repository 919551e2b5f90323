//! The file `identity` of a journal's directory: which journal it is, and which of its parts were written.
ghost use Rattle.std.specs.Prelude.{◌≡◌};
ghost use Rattle.file_disk.specs.Entries.{cleared_of};

use crate::directory::sync_directory;
use crate::entry::{Entry, entry_of};
use crate::fault::OpenFault;
use crate::part_file::OWNER_ONLY;
use ocf_types::Part;
use std::alloc::{Allocator, Global};
use std::cell::Cell;
use std::fs::{self, File, OpenOptions};
use std::io::{self, ErrorKind, Read, Write};
use std::os::unix::fs::{FileExt, OpenOptionsExt};
use std::rt::Files;

/// The number of hexadecimal digits of an identity.
pub const IDENTITY_LEN: usize = 32;

// The length of the file: the digits, a space, the marks of both parts, and a newline.
const FILE_LEN: usize = IDENTITY_LEN + 4;

// The offset of the mark of part A; that of part B is behind it.
const MARKS_AT: usize = IDENTITY_LEN + 1;

// A file that gives a random UUID in 36 characters, of which four are hyphens. Linux, random(4).
const RANDOM_UUID: &str = "/proc/sys/kernel/random/uuid";

const UUID_LEN: usize = 36;

/// Which parts are known to have been written: no write of an executor makes such a part empty again.
#[derive(Clone, Copy)]
pub struct Marks {
    pub a: bool,
    pub b: bool,
}

impl Marks {
    /// Of parts that were not written.
    pub fn none() -> Marks {
        Marks { a: false, b: false }
    }

    // The parts that are not empty.
    fn of(a: Entry, b: Entry) -> Marks {
        Marks {
            a: a == Entry::Filled,
            b: b == Entry::Filled,
        }
    }
}

/// The identity of a journal: no other journal has it.
#[derive(Clone, Copy)]
pub struct Identity {
    /// Lowercase hexadecimal digits.
    pub digits: [u8; IDENTITY_LEN],
    pub marks: Marks,
}

/// The identity of a journal that was opened.
#[derive(Clone, Copy)]
pub struct Settled {
    pub identity: Identity,
    /// Whether it was made because the journal had none.
    pub is_new: bool,
}

// The mark of a part in the file.
fn mark_of(part: Part) -> u8 {
    match part {
        Part::A => b'a',
        Part::B => b'b',
    }
}

// The offset of the mark of a part.
fn mark_at(part: Part) -> usize {
    match part {
        Part::A => MARKS_AT,
        Part::B => MARKS_AT + 1,
    }
}

fn is_digit(byte: u8) -> bool {
    byte.is_ascii_digit() || (b'a'..=b'f').contains(&byte)
}

// The text of the file.
fn text_of(identity: &Identity) -> [u8; FILE_LEN] {
    let mut text = [b'-'; FILE_LEN];
    text[..IDENTITY_LEN].copy_from_slice(&identity.digits);
    text[IDENTITY_LEN] = b' ';
    if identity.marks.a {
        text[MARKS_AT] = mark_of(Part::A);
    }
    if identity.marks.b {
        text[MARKS_AT + 1] = mark_of(Part::B);
    }
    text[FILE_LEN - 1] = b'\n';
    text
}

// The identity of a text; `None` if it is the text of none.
fn identity_in(text: &[u8; FILE_LEN]) -> Option<Identity> {
    let mut digits = [0; IDENTITY_LEN];
    digits.copy_from_slice(&text[..IDENTITY_LEN]);
    let marks = Marks {
        a: text[MARKS_AT] == mark_of(Part::A),
        b: text[MARKS_AT + 1] == mark_of(Part::B),
    };
    let identity = Identity { digits, marks };
    let is_one = digits.iter().all(|byte| is_digit(*byte)) && text[..] == text_of(&identity)[..];
    if is_one { Some(identity) } else { None }
}

// The identity in the file of this path; `None` where there is none, or something else.
fn identity_at<R: Files<File = File>>(rt: &R, path: &str) -> io::Result<Option<Identity>> {
    // looked at first: an opening of a pipe would wait for a writer
    let found = match fs::symlink_metadata(rt, path) {
        Ok(found) => found,
        Err(error) if error.kind() == ErrorKind::NotFound => return Ok(None),
        Err(error) => return Err(error),
    };
    if !found.is_file() || found.len() != FILE_LEN as u64 {
        return Ok(None);
    }
    let mut text = [0; FILE_LEN];
    File::open(rt, path)?.read_exact_at(&mut text, 0)?;
    Ok(identity_in(&text))
}

// The path of the file in this directory.
fn path_in<A: Allocator>(alloc: A, dir: &str) -> io::Result<String<A>> {
    Ok(format!(in alloc; "{dir}/identity")?)
}

/// The identity of the journal in this directory, if it has one. Nothing is changed.
pub fn read_identity<R: Files<File = File>, A: Allocator>(
    rt: &R,
    alloc: A,
    dir: &str,
) -> io::Result<Option<Identity>> {
    identity_at(rt, path_in(alloc, dir)?.as_str())
}

// New digits: those of a random UUID.
fn new_digits<R: Files<File = File>>(rt: &R) -> io::Result<[u8; IDENTITY_LEN]> {
    let mut text = [0; UUID_LEN];
    File::open(rt, RANDOM_UUID)?.read_exact(&mut text)?;
    let mut digits = [0; IDENTITY_LEN];
    let found = text.iter().filter(|byte| is_digit(**byte));
    for (digit, byte) in digits.iter_mut().zip(found) {
        *digit = *byte;
    }
    if digits.iter().all(|byte| is_digit(*byte)) {
        Ok(digits)
    } else {
        Err(io::Error::new(ErrorKind::InvalidData, "no random UUID"))
    }
}

// Writes a file of this text beside its path, syncs it, and renames it: so a file of that path is whole.
fn put_file<R: Files<File = File>>(rt: &R, new: &str, path: &str, text: &[u8]) -> io::Result<()> {
    // one that a killed executor left; the creation fails where it stays
    let _ = fs::remove_file(rt, new);
    let mut options = OpenOptions::new();
    options.write(true).create_new(true).mode(OWNER_ONLY);
    let mut file = options.open(rt, new)?;
    file.write_all(text)?;
    file.sync_all()?;
    fs::rename(rt, new, path)
}

/// Makes a new identity for the journal in this directory, whose parts are these, in place of what has the file's name. The
/// directory is not synced.
pub(crate) fn make_identity<R: Files<File = File>, A: Allocator + Copy>(
    rt: &R,
    alloc: A,
    dir: &str,
    marks: Marks,
) -> io::Result<Identity> {
    let digits = new_digits(rt)?;
    let identity = Identity { digits, marks };
    let path = path_in(alloc, dir)?;
    let new = format!(in alloc; "{dir}/identity.new")?;
    put_file(rt, new.as_str(), path.as_str(), &text_of(&identity))?;
    Ok(identity)
}

/// Removes the file from a directory without parts, before a new journal is made there: so that one gets an identity of its own.
/// Returns whether there was one.
pub(crate) fn forget_identity<R: Files, A: Allocator>(
    rt: &R,
    alloc: A,
    dir: &str,
) -> io::Result<bool> {
    match fs::remove_file(rt, path_in(alloc, dir)?.as_str()) {
        Ok(()) => Ok(true),
        Err(error) if error.kind() == ErrorKind::NotFound => Ok(false),
        Err(error) => Err(error),
    }
}

// Marks a part in the file of this path as written, if it says that it was not.
fn set_mark<R: Files<File = File>>(rt: &R, path: &str, part: Part) -> io::Result<()> {
    let Some(identity) = identity_at(rt, path)? else {
        return Ok(());
    };
    let is_set = match part {
        Part::A => identity.marks.a,
        Part::B => identity.marks.b,
    };
    if is_set {
        return Ok(());
    }
    let mut options = OpenOptions::new();
    let file = options.write(true).open(rt, path)?;
    file.write_all_at(&[mark_of(part)], mark_at(part) as u64)?;
    file.sync_data()
}

/// The mark of a part, which is set once the part was written and synced.
#[derive(Drop)]
pub(crate) struct Mark<A: Allocator = Global> {
    path: String<A>,
    part: Part,
    is_set: Cell<bool>,
}

impl<A: Allocator> Mark<A> {
    /// The mark of a part in this directory; it is taken for set if the part is not empty, as `settle_identity` sets it then.
    pub fn new(alloc: A, dir: &str, part: Part, is_set: bool) -> io::Result<Mark<A>> {
        Ok(Mark {
            path: path_in(alloc, dir)?,
            part,
            is_set: Cell::new(is_set),
        })
    }

    /// Sets the mark, once. Where that fails, `settle_identity` of the next opening does it.
    pub fn set<R: Files<File = File>>(&self, rt: &R) {
        if !self.is_set.replace(true) {
            let _ = set_mark(rt, self.path.as_str(), self.part);
        }
    }
}

// The parts in this directory that are not empty.
fn marks_of<R: Files, A: Allocator + Copy>(rt: &R, alloc: A, dir: &str) -> io::Result<Marks> {
    let (Ok(a), Ok(b)) = (
        entry_of(rt, alloc, dir, Part::A),
        entry_of(rt, alloc, dir, Part::B),
    ) else {
        return Err(io::Error::new(ErrorKind::Other, "no parts beside it"));
    };
    Ok(Marks::of(a, b))
}

// Sets these marks in the file of this path.
fn set_marks<R: Files<File = File>>(rt: &R, path: &str, marks: Marks) -> io::Result<()> {
    if marks.a {
        set_mark(rt, path, Part::A)?;
    }
    if marks.b {
        set_mark(rt, path, Part::B)?;
    }
    Ok(())
}

/// The identity of a journal that is open in this directory. It is made and synced if there is none, and marks the parts that are not
/// empty.
pub fn settle_identity<R: Files<File = File>, A: Allocator + Copy>(
    rt: &R,
    alloc: A,
    dir: &str,
) -> io::Result<Settled> {
    let path = path_in(alloc, dir)?;
    let marks = marks_of(rt, alloc, dir)?;
    if let Some(identity) = identity_at(rt, path.as_str())? {
        set_marks(rt, path.as_str(), marks)?;
        return Ok(Settled {
            identity,
            is_new: false,
        });
    }
    let identity = make_identity(rt, alloc, dir, marks)?;
    sync_directory(rt, alloc, dir)?;
    Ok(Settled {
        identity,
        is_new: true,
    })
}

/// Refuses a pair of which a part was written and is now empty or gone. If both are gone, a new journal is meant.
pub(crate) fn refuse_cleared(marks: Marks, a: Entry, b: Entry) -> Result<(), OpenFault>
    ensures { result ≡ cleared_of marks a b }
{
    if a == Entry::Missing && b == Entry::Missing {
        return Ok(());
    }
    if marks.a && a != Entry::Filled {
        return Err(OpenFault::Cleared(Part::A));
    }
    if marks.b && b != Entry::Filled {
        return Err(OpenFault::Cleared(Part::B));
    }
    Ok(())
}

/// Refuses a journal of this directory of which a part was written and is now empty or gone. An executor may be writing it: its marks
/// are read before its parts are looked at.
pub fn refuse_emptied<R: Files<File = File>, A: Allocator + Copy>(
    rt: &R,
    alloc: A,
    dir: &str,
) -> Result<(), OpenFault> {
    let Ok(Some(identity)) = read_identity(rt, alloc, dir) else {
        return Ok(());
    };
    let a = entry_of(rt, alloc, dir, Part::A)?;
    let b = entry_of(rt, alloc, dir, Part::B)?;
    refuse_cleared(identity.marks, a, b)
}

/// Refuses a directory without a journal: both parts are empty or missing. Nothing is made.
pub fn refuse_absent<R: Files, A: Allocator + Copy>(
    rt: &R,
    alloc: A,
    dir: &str,
) -> Result<(), OpenFault> {
    let a = entry_of(rt, alloc, dir, Part::A)?;
    let b = entry_of(rt, alloc, dir, Part::B)?;
    if a == Entry::Filled || b == Entry::Filled {
        Ok(())
    } else {
        Err(OpenFault::Absent)
    }
}
