//! Two parts in memory as a disk.
ghost use Rattle.std.specs.Prelude.{◌≡◌, ◌+◌, ◌≤◌, ◌↔◌, IfOk, IsErr, None, OnErr, OnOk, [], drop, length, take};
ghost use Rattle.disk_model.specs.Image.{Written, bytes_of};
ghost use Rattle.disk_model.specs.Parts.{image_of};
ghost use Rattle.disk_model.specs.Disk.{Called, Unwritten, Synced, Tears};
ghost use Rattle.file_disk.specs.Past.{honest_of, reads_of};
ghost use Rattle.file_disk.specs.PastLemmas.{honest_prop};

use crate::call::Call;
use crate::error::{FileError, ReportsError};
use crate::log::Log;
use disk_model::{Disk, DiskFault, Parts};
use ocf_types::{PART_LIMIT, Part};
use std::alloc::{Allocator, Global};

/// A disk of two parts in memory, which end with this value. It holds only their bytes, so that its memory does not grow with
/// the number of calls.
///
/// It is always honest. A call fails only if memory is refused to a write, which then changes nothing, at the last value of
/// the count of calls, and after a call that failed.
#[derive(Drop)]
pub struct RamDisk<A: Allocator + Copy = Global> {
    parts: Parts<A>,
    log: Log,
    pub ghost current: { reads_of log.calls.first log.calls.events ≡ image_of parts },
    pub ghost honest: { honest_of log.calls.first log.calls.events } by { honest_prop log.calls.first log.calls.events },
}

impl<A: Allocator + Copy> RamDisk<A> {
    ghost use Rattle.file_disk.specs.RamDisk.{IsFresh, view_of};

    /// A disk with two empty parts. It takes no memory.
    pub fn new(alloc: A) -> RamDisk<A>
        ensures fresh { IsFresh (record { a = []; b = [] }) result }
        ensures honest { (view_of result).honest }
    {
        RamDisk {
            parts: Parts::new(alloc),
            log: Log::new(&[], &[]),
        }
    }

    /// A disk with these bytes, all of them synced. Bytes past the limit of a part are no part of it. It takes no memory.
    pub fn from_parts(mut a: Vec<u8, A>, mut b: Vec<u8, A>) -> RamDisk<A>
        ensures fresh { IsFresh
            (record { a = take PART_LIMIT a.items; b = take PART_LIMIT b.items }) result }
        ensures honest { (view_of result).honest }
    {
        a.truncate(PART_LIMIT as usize);
        b.truncate(PART_LIMIT as usize);
        let log = Log::new(&a, &b);
        RamDisk {
            parts: Parts { a, b },
            log,
        }
    }
}

impl<A: Allocator + Copy> ReportsError for RamDisk<A> {
    fn first_error(&self) -> Option<FileError>
        ensures { result ≡ None }
    {
        None
    }
}

impl<A: Allocator + Copy> Disk for RamDisk<A> {
    ghost use Rattle.file_disk.specs.PastLemmas.{past_lawful};
    ghost use Rattle.file_disk.specs.RamDisk.{IsStopped, view_of};

    ghost view = { view_of };

    ghost lawful = { λ d _. past_lawful d.log.calls.first d.log.calls.events };

    fn len(&mut self, part: Part) -> Result<u64, DiskFault>
        ensures limit { IfOk result (λ n. n ≤ PART_LIMIT) }
        ensures length { IfOk result (λ n. n ≡ length (bytes_of part (view_of self.old).reads)) }
        ensures unwritten { Unwritten (view_of self.old) (view_of self.new) }
        ensures called { Called (view_of self.old) (view_of self.new) result }
        ensures faults { IsErr result ↔ IsStopped self.old }
    {
        if !self.log.goes_on() {
            return Err(self.log.fail(&Call::Refused, &[]));
        }
        let size = self.parts.bytes(part).len() as u64;
        self.log.pass(&Call::Measured(part, size), &[]);
        Ok(size)
    }

    fn read_at(&mut self, part: Part, at: u64, buf: &mut [u8]) -> Result<(), DiskFault>
        requires range { at + length buf.old ≤ PART_LIMIT }
        requires within { at + length buf.old ≤ length (bytes_of part (view_of self.old).reads) }
        ensures read { OnOk result (buf.new
            ≡ take (length buf.old) (drop at (bytes_of part (view_of self.old).reads))) }
        ensures unwritten { Unwritten (view_of self.old) (view_of self.new) }
        ensures called { Called (view_of self.old) (view_of self.new) result }
        ensures faults { IsErr result ↔ IsStopped self.old }
    {
        if !self.log.goes_on() {
            return Err(self.log.fail(&Call::Refused, &[]));
        }
        let bytes = self.parts.bytes(part);
        let from = at as usize;
        buf.copy_from_slice(&bytes[from..from + buf.len()]);
        self.log.pass(&Call::Read(part, at), buf);
        Ok(())
    }

    /// The bytes that a read returns change only if the write succeeds.
    fn write_at(&mut self, part: Part, at: u64, bytes: &[u8]) -> Result<(), DiskFault>
        requires range { at + length bytes.now ≤ PART_LIMIT }
        requires begins { at ≤ length (bytes_of part (view_of self.old).reads) }
        ensures written { OnOk result
            (Written part at bytes.now (view_of self.old).reads (view_of self.new).reads) }
        ensures same { OnErr result ((view_of self.new).reads ≡ (view_of self.old).reads) }
        ensures tears { Tears part at (length bytes.now) (view_of self.old) (view_of self.new) }
        ensures called { Called (view_of self.old) (view_of self.new) result }
        ensures faults { IsStopped self.old → IsErr result }
    {
        if !self.log.goes_on() {
            return Err(self.log.fail(&Call::Refused, &[]));
        }
        match self.parts.write(part, at as usize, bytes) {
            Ok(()) => {
                self.log.pass(&Call::Wrote(part, at), bytes);
                Ok(())
            }
            Err(_) => Err(self.log.fail(&Call::Tried(part, at), bytes)),
        }
    }

    fn sync(&mut self, part: Part) -> Result<(), DiskFault>
        ensures durable { OnOk result (Synced part (view_of self.new)) }
        ensures unwritten { Unwritten (view_of self.old) (view_of self.new) }
        ensures called { Called (view_of self.old) (view_of self.new) result }
        ensures faults { IsErr result ↔ IsStopped self.old }
    {
        if !self.log.goes_on() {
            return Err(self.log.fail(&Call::Refused, &[]));
        }
        self.log.pass(&Call::Synced(part), &[]);
        Ok(())
    }

    fn clock(&self) -> u64 {
        self.log.clock()
    }

    fn failures(&self) -> u64 {
        self.log.failures()
    }
}
