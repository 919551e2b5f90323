//! Two files as a disk.
ghost use Rattle.std.specs.Prelude.{◌≡◌, ◌+◌, ◌≤◌, IfErr, IfOk, IsErr, OnErr, OnOk, Some, [], drop, is_some, length, take, true};
ghost use Rattle.disk_model.specs.Image.{Written, bytes_of};
ghost use Rattle.disk_model.specs.Disk.{Called, Unwritten, Synced, Tears};

use crate::call::Call;
use crate::directory::{open_directory, sync_directory};
use crate::entry::{Entry, entry_of, refuse_loss};
use crate::error::{FileError, ReportsError};
use crate::fault::{OpenFault, of_part};
use crate::identity::{Marks, forget_identity, make_identity, read_identity, refuse_cleared};
use crate::log::Log;
use crate::look::examined;
use crate::part_file::PartFile;
use crate::trust::Owners;
use disk_model::{Disk, DiskFault};
use ocf_types::{PART_LIMIT, Part};
use std::alloc::{Allocator, Global};
use std::fs::File;
use std::io;
use std::os::unix::fs::FileExt;
use std::rt::Files;

// The marks of the journal in this directory, if it has an identity. A file `identity` without parts is removed, and that is synced,
// before a new journal is made: a crash between them must not leave empty parts that are marked.
fn marks_in<R: Files<File = File>, A: Allocator + Copy>(
    rt: &R,
    alloc: A,
    dir: &str,
    entries: (Entry, Entry),
) -> io::Result<Option<Marks>> {
    if entries == (Entry::Missing, Entry::Missing) {
        if forget_identity(rt, alloc, dir)? {
            sync_directory(rt, alloc, dir)?;
        }
        return Ok(None);
    }
    let found = read_identity(rt, alloc, dir)?;
    Ok(found.map(|identity| identity.marks))
}

// Refuses a pair with these entries of which a part was emptied, and makes an identity for a new journal. A journal is opened also
// where its identity cannot be read or made: `settle_identity` tries again, and tells why.
fn prepare_identity<R: Files<File = File>, A: Allocator + Copy>(
    rt: &R,
    alloc: A,
    dir: &str,
    entries: (Entry, Entry),
) -> Result<(), OpenFault> {
    let (a, b) = entries;
    match marks_in(rt, alloc, dir, entries) {
        Ok(Some(marks)) => refuse_cleared(marks, a, b),
        Ok(None) if a != Entry::Filled && b != Entry::Filled => {
            let _ = make_identity(rt, alloc, dir, Marks::none());
            Ok(())
        }
        _ => Ok(()),
    }
}

// Opens both files, if their owners and modes are accepted, and makes those that are missing.
fn open_files<R: Files<File = File>, A: Allocator + Copy>(
    rt: &R,
    alloc: A,
    dir: &str,
    owners: Owners,
) -> Result<(PartFile<A>, PartFile<A>), OpenFault> {
    let a = entry_of(rt, alloc, dir, Part::A)?;
    let b = entry_of(rt, alloc, dir, Part::B)?;
    if let Err(loss) = refuse_loss(a, b) {
        return Err(examined(rt, alloc, dir, loss));
    }
    prepare_identity(rt, alloc, dir, (a, b))?;
    let a = PartFile::open(rt, alloc, dir, Part::A)?;
    a.refuse_distrusted(Part::A, owners)?;
    let b = PartFile::open(rt, alloc, dir, Part::B)?;
    b.refuse_distrusted(Part::B, owners)?;
    Ok((a, b))
}

/// The files `part-a` and `part-b` of one directory, into which only this value writes.
///
/// It is honest as long as each length and all bytes that the files returned are those that they held when they were
/// opened, changed by the writes since. A read, a write and a sync are one system call each, which is repeated for the rest
/// where it was cut short or interrupted. A sync fails, too, if the path of its file now leads to another file or to none; a
/// length checks this of both files, as openings and tidies ask for lengths. All but a read fail if somebody else has cut the
/// file or made it grow. After the first call that failed no system call
/// is made, and each call fails: a system may return success from the next sync after one that failed, with nothing on the
/// device.
#[derive(Drop)]
pub struct FileDisk<R: Files<File = File> + Copy, A: Allocator + Copy = Global> {
    rt: R,
    // the directory, locked as long as it is open
    _directory: File,
    a: PartFile<A>,
    b: PartFile<A>,
    first_error: Option<FileError>,
    log: Log,
}

impl<R: Files<File = File> + Copy, A: Allocator + Copy> FileDisk<R, A> {
    ghost use Rattle.file_disk.specs.FileDisk.{IsFresh, Notes, first_part};
    ghost use Rattle.file_disk.specs.Record.{IsFault};

    /// Opens both files of a directory, and makes those that are missing, for their owner alone. It fails with `Gone` if one
    /// is missing while the other holds a journal, and with `NoJournal` if the other holds something else; nothing is made
    /// then. It fails with `Cleared` if one is empty or missing that the file `identity` calls written; a new journal gets that file. The
    /// directory and both files are locked for as long as this value lives, so that a second opening fails with
    /// `InUse`. All are synced, and then both files are read whole. An owner or a mode that is not accepted is refused: that
    /// of the directory before anything is made or locked.
    ///
    /// The path may lead to the directory by way of links. A failed opening may leave empty files.
    pub fn open(rt: &R, alloc: A, dir: &str, owners: Owners) -> Result<FileDisk<R, A>, OpenFault>
        ensures fresh { IfOk result IsFresh }
        ensures no_name { dir.now ≡ [] → IsErr result }
    {
        let directory = open_directory(rt, alloc, dir, owners)?;
        let (a, b) = open_files(rt, alloc, dir, owners)?;
        directory.sync_all().map_err(OpenFault::directory)?;
        let mut log = Log::new(&[], &[]);
        of_part(Part::A, a.find_contents(Part::A, &mut log))?;
        of_part(Part::B, b.find_contents(Part::B, &mut log))?;
        Ok(FileDisk {
            rt: *rt,
            _directory: directory,
            a,
            b,
            first_error: None,
            log,
        })
    }

    fn part_file(&self, part: Part) -> &PartFile<A> {
        match part {
            Part::A => &self.a,
            Part::B => &self.b,
        }
    }

    fn file(&self, part: Part) -> &File {
        &self.part_file(part).file
    }

    // The length of a part. It fails unless both files are still those of their paths.
    fn measure(&self, part: Part) -> Result<u64, FileError>
        ensures { IfOk result (λ n. n ≤ PART_LIMIT) }
    {
        let a = self.a.size(&self.rt).map_err(|error| FileError {
            part: Part::A,
            error,
        })?;
        let b = self.b.size(&self.rt).map_err(|error| FileError {
            part: Part::B,
            error,
        })?;
        match part {
            Part::A => Ok(a),
            Part::B => Ok(b),
        }
    }

    // Syncs the file of a part. It fails unless the file is still that of its path.
    fn sync_file(&self, part: Part) -> Result<(), FileError>
        ensures { IfErr result (λ error. error.part ≡ part) }
    {
        match self.part_file(part).sync(&self.rt) {
            Ok(()) => Ok(()),
            Err(error) => Err(FileError { part, error }),
        }
    }

    // Notes a system call that failed.
    fn fail(&mut self, call: &Call, bytes: &[u8], error: FileError) -> DiskFault
        requires { IsFault call.now }
        ensures noted { Notes call.now bytes.now self.old self.new }
        ensures first { first_part self.new ≡ Some error.part }
    {
        self.first_error = Some(error);
        self.log.fail(call, bytes)
    }
}

impl<R: Files<File = File> + Copy, A: Allocator + Copy> ReportsError for FileDisk<R, A> {
    ghost use Rattle.file_disk.specs.FileDisk.{first_error};

    fn first_error(&self) -> Option<FileError>
        ensures { result ≡ first_error self.now }
    {
        self.first_error
    }
}

impl<R: Files<File = File> + Copy, A: Allocator + Copy> Disk for FileDisk<R, A> {
    ghost use Rattle.file_disk.specs.FileDisk.{IsStopped, Notes, ReportsFault, view_of};
    ghost use Rattle.file_disk.specs.PastLemmas.{past_lawful};

    ghost view = { view_of };

    ghost lawful = { λ d _. past_lawful d.log.calls.first d.log.calls.events };

    /// The disk stays honest if the length is right.
    fn len(&mut self, part: Part) -> Result<u64, DiskFault>
        ensures limit { IfOk result (λ n. n ≤ PART_LIMIT) }
        ensures length { (view_of self.new).honest
            → IfOk result (λ n. n ≡ length (bytes_of part (view_of self.old).reads)) }
        ensures unwritten { Unwritten (view_of self.old) (view_of self.new) }
        ensures called { Called (view_of self.old) (view_of self.new) result }
        ensures noted { IfOk result (λ n. Notes (Call.Measured part n) [] self.old self.new) }
        ensures failed { (IsStopped self.old → ⊥)
            → OnErr result (Notes Call.Failed [] self.old self.new) }
        ensures stopped { IsStopped self.old → IsErr result
            × Notes Call.Refused [] self.old self.new }
        ensures reports_fault { ReportsFault (λ p. is_some p ≡ true) self.old self.new result }
        ensures stays { (view_of self.old).honest
            → IfOk result (λ n. n ≡ length (bytes_of part (view_of self.old).reads))
            → (view_of self.new).honest }
    {
        if !self.log.goes_on() {
            return Err(self.log.fail(&Call::Refused, &[]));
        }
        match self.measure(part) {
            Ok(size) => {
                self.log.pass(&Call::Measured(part, size), &[]);
                Ok(size)
            }
            Err(error) => Err(self.fail(&Call::Failed, &[], error)),
        }
    }

    /// The disk stays honest if the bytes are right.
    fn read_at(&mut self, part: Part, at: u64, buf: &mut [u8]) -> Result<(), DiskFault>
        requires range { at + length buf.old ≤ PART_LIMIT }
        ensures read { (view_of self.new).honest
            → OnOk result (buf.new
            ≡ take (length buf.old) (drop at (bytes_of part (view_of self.old).reads))) }
        ensures unwritten { Unwritten (view_of self.old) (view_of self.new) }
        ensures called { Called (view_of self.old) (view_of self.new) result }
        ensures noted { OnOk result (Notes (Call.Read part at) buf.new self.old self.new) }
        ensures failed { (IsStopped self.old → ⊥)
            → OnErr result (Notes Call.Failed [] self.old self.new) }
        ensures stopped { IsStopped self.old → IsErr result
            × Notes Call.Refused [] self.old self.new }
        ensures reports_fault { ReportsFault (λ p. p ≡ Some part) self.old self.new result }
        ensures stays { (view_of self.old).honest
            → OnOk result (buf.new
            ≡ take (length buf.old) (drop at (bytes_of part (view_of self.old).reads)))
            → (view_of self.new).honest }
    {
        if !self.log.goes_on() {
            return Err(self.log.fail(&Call::Refused, &[]));
        }
        match self.file(part).read_exact_at(buf, at) {
            Ok(()) => {
                self.log.pass(&Call::Read(part, at), buf);
                Ok(())
            }
            Err(error) => Err(self.fail(&Call::Failed, &[], FileError { part, error })),
        }
    }

    /// The bytes that a read returns change only if the write succeeds. The disk stays honest.
    fn write_at(&mut self, part: Part, at: u64, bytes: &[u8]) -> Result<(), DiskFault>
        requires range { at + length bytes.now ≤ PART_LIMIT }
        ensures written { OnOk result
            (Written part at bytes.now (view_of self.old).reads (view_of self.new).reads) }
        ensures same { OnErr result ((view_of self.new).reads ≡ (view_of self.old).reads) }
        ensures tears { Tears part at (length bytes.now) (view_of self.old) (view_of self.new) }
        ensures called { Called (view_of self.old) (view_of self.new) result }
        ensures noted { OnOk result (Notes (Call.Wrote part at) bytes.now self.old self.new) }
        ensures tried { (IsStopped self.old → ⊥)
            → OnErr result (Notes (Call.Tried part at) bytes.now self.old self.new) }
        ensures stopped { IsStopped self.old → IsErr result
            × Notes Call.Refused [] self.old self.new }
        ensures reports_fault { ReportsFault (λ p. p ≡ Some part) self.old self.new result }
        ensures stays { (view_of self.old).honest → (view_of self.new).honest }
    {
        if !self.log.goes_on() {
            return Err(self.log.fail(&Call::Refused, &[]));
        }
        let written = match part {
            Part::A => self.a.write(bytes, at),
            Part::B => self.b.write(bytes, at),
        };
        match written {
            Ok(()) => {
                self.log.pass(&Call::Wrote(part, at), bytes);
                Ok(())
            }
            Err(error) => Err(self.fail(&Call::Tried(part, at), bytes, FileError { part, error })),
        }
    }

    /// The disk stays honest.
    fn sync(&mut self, part: Part) -> Result<(), DiskFault>
        ensures durable { OnOk result (Synced part (view_of self.new)) }
        ensures unwritten { Unwritten (view_of self.old) (view_of self.new) }
        ensures called { Called (view_of self.old) (view_of self.new) result }
        ensures noted { OnOk result (Notes (Call.Synced part) [] self.old self.new) }
        ensures failed { (IsStopped self.old → ⊥)
            → OnErr result (Notes Call.Failed [] self.old self.new) }
        ensures stopped { IsStopped self.old → IsErr result
            × Notes Call.Refused [] self.old self.new }
        ensures reports_fault { ReportsFault (λ p. p ≡ Some part) self.old self.new result }
        ensures stays { (view_of self.old).honest → (view_of self.new).honest }
    {
        if !self.log.goes_on() {
            return Err(self.log.fail(&Call::Refused, &[]));
        }
        match self.sync_file(part) {
            Ok(()) => {
                self.log.pass(&Call::Synced(part), &[]);
                Ok(())
            }
            Err(error) => Err(self.fail(&Call::Failed, &[], error)),
        }
    }

    fn clock(&self) -> u64 {
        self.log.clock()
    }

    fn failures(&self) -> u64 {
        self.log.failures()
    }
}
