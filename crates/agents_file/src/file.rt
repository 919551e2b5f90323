//! The file and its calls of the system.
ghost use Rattle.std.specs.Prelude.{◌≡◌, ◌<◌, IfOk, IfSome, length};

use crate::contents::{Contents, FILE_LEN, Kept, contents_of, offset_of};
use crate::entry::{AgentEntry, entry_line};
use crate::head::{BOOT_ID_LEN, Head, head_line};
use crate::line::{LINE_LEN, blank_line};
use crate::slots::{SLOTS, Slots};
use std::alloc::{AllocError, Allocator, Global};
use std::fs::{self, File, OpenOptions};
use std::io::{self, ErrorKind, Read, Write};
use std::os::fd::AsRawFd;
use std::os::unix::fs::{FileExt, OpenOptionsExt};
use std::rt::{Clock, Files};

// The permissions of a new file: its owner alone reads and writes it.
const OWNER_ONLY: u32 = 0o600;

/// The file as an opening found it.
#[derive(Drop)]
pub struct Found<A: Allocator = Global> {
    /// The open file, in which the entries that were found keep their slots.
    pub file: AgentsFile,
    /// The entries of this boot of the system.
    pub entries: Vec<Kept, A>,
    /// Whether something had the file's name that is no such file, and was replaced. The file of another boot is one.
    pub was_foreign: bool,
}

/// The open file `agents` of a journal's directory, for its one executor.
#[derive(Drop)]
pub struct AgentsFile {
    file: File,
    slots: Slots,
}

// An open file, with what it says.
#[derive(Drop)]
struct Record<A: Allocator> {
    file: File,
    contents: Contents<A>,
}

/// The identifier of this boot of the system. Linux, random(4).
pub fn boot_id<R: Files>(rt: &R) -> io::Result<[u8; BOOT_ID_LEN]> {
    let mut boot = [0; BOOT_ID_LEN];
    File::open(rt, "/proc/sys/kernel/random/boot_id")?.read_exact(&mut boot)?;
    Ok(boot)
}

/// The reading of CLOCK_MONOTONIC, in milliseconds. POSIX, clock_gettime.
pub fn monotonic_now<K: Clock>(clock: &K) -> io::Result<u64> {
    let passed = clock.monotonic()?.as_millis();
    Ok(u64::try_from(passed).unwrap_or(u64::MAX))
}

// The plain file of this path, opened for reading, and for writing too if that is wanted; `None` for anything else.
fn plain_file<R: Files<File = File>>(
    rt: &R,
    path: &str,
    is_written: bool,
) -> io::Result<Option<File>> {
    // not opened: that of a pipe would wait for a writer
    if !fs::symlink_metadata(rt, path)?.is_file() {
        return Ok(None);
    }
    let mut options = OpenOptions::new();
    options.read(true).write(is_written);
    Ok(Some(options.open(rt, path)?))
}

// The record in the file of this path; `None` if there is something else.
fn record_in<R: Files<File = File>, A: Allocator + Copy>(
    rt: &R,
    alloc: A,
    path: &str,
    is_written: bool,
) -> io::Result<Option<Record<A>>> {
    let Some(file) = plain_file(rt, path, is_written)? else {
        return Ok(None);
    };
    if file.metadata()?.len() != FILE_LEN as u64 {
        return Ok(None);
    }
    let mut bytes = vec![in alloc; 0; FILE_LEN]?;
    file.read_exact_at(&mut bytes, 0)?;
    match contents_of(alloc, bytes.as_slice())? {
        Some(contents) => Ok(Some(Record { file, contents })),
        None => Ok(None),
    }
}

// The file under a descriptor above the standard streams': if one of these was closed, its output must not go to the file.
fn above_streams(file: File) -> io::Result<File> {
    if file.as_raw_fd() <= libc::STDERR_FILENO {
        file.try_clone()
    } else {
        Ok(file)
    }
}

// The bytes of a file with this head and free slots.
fn empty_file<A: Allocator>(alloc: A, head: &Head) -> Result<Vec<u8, A>, AllocError> {
    let mut bytes = Vec::from_slice(alloc, &head_line(head))?;
    for _ in 0..SLOTS {
        bytes.extend_from_slice(&blank_line())?;
    }
    Ok(bytes)
}

// A new file of the path `new` with these bytes, renamed to the other path: so a file of that path is whole.
fn renamed_file<R: Files<File = File>>(
    rt: &R,
    new: &str,
    path: &str,
    bytes: &[u8],
) -> io::Result<File> {
    let mut options = OpenOptions::new();
    options.read(true).write(true).create_new(true);
    let mut file = options.mode(OWNER_ONLY).open(rt, new)?;
    file.write_all(bytes)?;
    fs::rename(rt, new, path)?;
    Ok(file)
}

// A new file of this path, made beside it.
fn new_file<R: Files<File = File>, A: Allocator + Copy>(
    rt: &R,
    alloc: A,
    path: &str,
    head: &Head,
) -> io::Result<File> {
    let new = format!(in alloc; "{path}.new")?;
    let bytes = empty_file(alloc, head)?;
    // one that a killed executor left; the creation fails where it stays
    let _ = fs::remove_file(rt, new.as_str());
    let made = renamed_file(rt, new.as_str(), path, bytes.as_slice());
    if made.is_err() {
        let _ = fs::remove_file(rt, new.as_str());
    }
    made
}

impl AgentsFile {
    /// Opens the file of a directory, and rewrites its head. A file of this boot keeps its entries; anything else that has its name is
    /// replaced by a new file, also a link or a pipe. It fails for a directory, and where the system refuses a call.
    pub fn open<R: Files<File = File>, A: Allocator + Copy>(
        rt: &R,
        alloc: A,
        directory: &str,
        head: Head,
    ) -> io::Result<Found<A>> {
        let path = format!(in alloc; "{directory}/agents")?;
        let was_foreign = match record_in(rt, alloc, path.as_str(), true) {
            Ok(Some(record)) if record.contents.head.is_of(&head.boot) => {
                return AgentsFile::again(record, head);
            }
            Ok(_) => true,
            Err(error) if error.kind() == ErrorKind::NotFound => false,
            Err(error) => return Err(error),
        };
        let file = above_streams(new_file(rt, alloc, path.as_str(), &head)?)?;
        let slots = Slots::new();
        Ok(Found {
            file: AgentsFile { file, slots },
            entries: Vec::new(alloc),
            was_foreign,
        })
    }

    // The file of a record, with its entries in their slots.
    fn again<A: Allocator>(record: Record<A>, head: Head) -> io::Result<Found<A>> {
        let Record { file, contents } = record;
        let mut slots = Slots::new();
        for kept in &contents.entries {
            slots.set(kept.slot, true);
        }
        let file = above_streams(file)?;
        let mut file = AgentsFile { file, slots };
        file.rewrite_head(head)?;
        Ok(Found {
            file,
            entries: contents.entries,
            was_foreign: false,
        })
    }

    // Writes a line into a slot, in one call.
    fn write_line(&self, slot: usize, line: &[u8; LINE_LEN]) -> io::Result<()> {
        if slot >= SLOTS {
            return Err(io::Error::from(ErrorKind::InvalidInput));
        }
        self.file.write_all_at(line, offset_of(slot) as u64)
    }

    /// Writes an entry into a free slot and returns the slot; `None` if no slot is free. It is not synced.
    pub fn put(&mut self, entry: &AgentEntry) -> io::Result<Option<usize>> {
        let Some(slot) = self.slots.free() else {
            return Ok(None);
        };
        self.write_line(slot, &entry_line(entry))?;
        self.slots.set(slot, true);
        Ok(Some(slot))
    }

    /// Writes an entry into this slot in place of the one there.
    pub fn rewrite(&mut self, slot: usize, entry: &AgentEntry) -> io::Result<()> {
        self.slots.set(slot, true);
        self.write_line(slot, &entry_line(entry))
    }

    /// Frees a slot. It is free even where the write fails.
    pub fn clear(&mut self, slot: usize) -> io::Result<()> {
        self.slots.set(slot, false);
        self.write_line(slot, &blank_line())
    }

    /// Writes another head.
    pub fn rewrite_head(&mut self, head: Head) -> io::Result<()> {
        self.file.write_all_at(&head_line(&head), 0)
    }
}

/// The head and the entries of the file of a directory, if there is one of this boot. Nothing is changed.
pub fn read_agents<R: Files<File = File>, A: Allocator + Copy>(
    rt: &R,
    alloc: A,
    directory: &str,
) -> Option<(Head, Vec<AgentEntry, A>)> {
    let path = format!(in alloc; "{directory}/agents").ok()?;
    let record = record_in(rt, alloc, path.as_str(), false).ok()??;
    let Contents {
        head,
        entries: found,
    } = record.contents;
    if !head.is_of(&boot_id(rt).ok()?) {
        return None;
    }
    let mut entries = Vec::new(alloc);
    for kept in found {
        entries.push(kept.entry).ok()?;
    }
    Some((head, entries))
}
