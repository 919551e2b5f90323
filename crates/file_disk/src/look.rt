//! A consistent snapshot of a journal's files, read while another process may be writing them.
ghost use Rattle.std.specs.Prelude.{◌≡◌, ◌≤◌, [], IfErr, IfOk, IfSome, IsErr, length};
ghost use Rattle.file_disk.specs.Faults.{IsOfPart};
ghost use Rattle.file_disk.specs.RamDisk.{IsFresh, view_of};

use crate::directory::find_directory;
use crate::entry::{Entry, entry_of, refuse_loss, reported_loss};
use crate::fault::{OpenFault, file_name, of_part};
use crate::part_file::{PIECE, fill};
use crate::ram::RamDisk;
use disk_model::other_part;
use ocf_types::{HEAD_LEN, PART_LIMIT, Part};
use std::alloc::{Allocator, Global};
use std::fs::File;
use std::io;
use std::rt::Files;

// The greatest number of readings, each of which a tidy may spoil.
const TRIES: usize = 100;

// The number of bytes that are compared: the first gate and the head.
const HEAD: usize = HEAD_LEN as usize;

// A part's file, and the bytes that were read of it, from the first to the last.
#[derive(Drop)]
struct PartCopy<A: Allocator = Global> {
    file: Option<File>,
    bytes: Vec<u8, A>,
}

// Reads a file piece by piece, up to its end or the limit of a part. A record is whole in the file before its gate is opened.
// So the file is read in ascending order: after a gate that was read open comes a body that is read whole.
fn read_whole<A: Allocator>(alloc: A, file: &File) -> io::Result<Vec<u8, A>> {
    let mut bytes = Vec::new(alloc);
    let mut piece = [0; PIECE];
    for number in 0..PART_LIMIT / PIECE as u64 {
        let count = fill(file, number * PIECE as u64, &mut piece)?;
        bytes.extend_from_slice(&piece[..count])?;
        if count < PIECE {
            break;
        }
    }
    Ok(bytes)
}

impl<A: Allocator + Copy> PartCopy<A> {
    // Reads a part's file, if there is one.
    fn of<R: Files<File = File>>(
        rt: &R,
        alloc: A,
        dir: &str,
        part: Part,
    ) -> Result<PartCopy<A>, OpenFault>
        ensures { IfErr result (IsOfPart part) }
    {
        if entry_of(rt, alloc, dir, part)? == Entry::Missing {
            let bytes = Vec::new(alloc);
            return Ok(PartCopy { file: None, bytes });
        }
        let path = format!(in alloc; "{dir}/{}", file_name(part))?;
        let file = of_part(part, File::open(rt, path.as_str()))?;
        let bytes = of_part(part, read_whole(alloc, &file))?;
        Ok(PartCopy {
            file: Some(file),
            bytes,
        })
    }

    // Whether the file still begins as it was read: then no tidy has renewed the part meanwhile.
    fn holds(&self) -> io::Result<bool> {
        let Some(file) = &self.file else {
            return Ok(true);
        };
        let mut head = [0; HEAD];
        let count = fill(file, 0, &mut head)?;
        Ok(head[..count] == self.bytes[..self.bytes.len().min(HEAD)])
    }

    fn entry(&self) -> Entry {
        match &self.file {
            Some(_) => Entry::of_file(self.bytes.len() as u64),
            None => Entry::Missing,
        }
    }
}

/// The fault to report for a loss in this directory: it depends on whether the remaining file holds a journal.
pub(crate) fn examined<R: Files<File = File>, A: Allocator + Copy>(
    rt: &R,
    alloc: A,
    dir: &str,
    loss: OpenFault,
) -> OpenFault {
    let OpenFault::Gone(part) = loss else {
        return loss;
    };
    match PartCopy::of(rt, alloc, dir, other_part(part)) {
        Ok(copy) => reported_loss(loss, copy.bytes.as_slice()),
        Err(fault) => fault,
    }
}

// Refuses a pair of which one file is gone, by the bytes that were read of both.
fn refuse_lost<A: Allocator + Copy>(a: &PartCopy<A>, b: &PartCopy<A>) -> Result<(), OpenFault> {
    let there = if a.bytes.is_empty() { b } else { a };
    match refuse_loss(a.entry(), b.entry()) {
        Ok(()) => Ok(()),
        Err(loss) => Err(reported_loss(loss, there.bytes.as_slice())),
    }
}

// A consistent snapshot of both parts, as a crash could have left them, or `None` if a tidy ran meanwhile.
fn look<R: Files<File = File>, A: Allocator + Copy>(
    rt: &R,
    alloc: A,
    dir: &str,
) -> Result<Option<RamDisk<A>>, OpenFault>
    ensures { IfOk result
        (λ found. IfSome found (λ d. IsFresh (view_of d).reads d × (view_of d).honest)) }
{
    let a = PartCopy::of(rt, alloc, dir, Part::A)?;
    let b = PartCopy::of(rt, alloc, dir, Part::B)?;
    let a_holds = of_part(Part::A, a.holds())?;
    let b_holds = of_part(Part::B, b.holds())?;
    if !(a_holds && b_holds) {
        return Ok(None);
    }
    refuse_lost(&a, &b)?;
    Ok(Some(RamDisk::from_parts(a.bytes, b.bytes)))
}

/// Reads both files of a directory as a disk in memory, while another process may be writing them. They are opened only for
/// reading: nothing is made, written or locked. A missing file is an empty part; beside one that is not empty it is refused as
/// `Gone` (or as `NoJournal`, if that one holds no journal). If a tidy runs during each reading, it fails with `Changing`.
pub fn read_parts<R: Files<File = File>, A: Allocator + Copy>(
    rt: &R,
    alloc: A,
    dir: &str,
) -> Result<RamDisk<A>, OpenFault>
    ensures fresh { IfOk result (λ d. IsFresh (view_of d).reads d) }
    ensures honest { IfOk result (λ d. (view_of d).honest) }
    ensures no_name { dir.now ≡ [] → IsErr result }
{
    find_directory(rt, alloc, dir)?;
    for _ in 0..TRIES {
        if let Some(disk) = look(rt, alloc, dir)? {
            return Ok(disk);
        }
    }
    Err(OpenFault::Changing)
}
