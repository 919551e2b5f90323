//! Bytes that were read from a descriptor and not yet taken.
ghost use Rattle.std.specs.Prelude.{◌≡◌, ◌≤◌, ◌<◌, [], IfOk, length, slice_range, vec_len};
ghost use Rattle.std.specs.Io.KnownBytes.{prepend_known};

use crate::buffered::Buffered;
use crate::patient::Patient;
use growth::{GROWTH_LIMIT, Grows, Refused, fill};
use std::alloc::{Allocator, Global};
use std::io::{self, Read};

/// A buffer over a reader of a descriptor. It allocates all its memory when it is made.
#[derive(Drop)]
pub struct ReadAhead<R, A: Allocator = Global> {
    patient: Patient<R>,
    bytes: Vec<u8, A>,
    start: usize,
    end: usize,
    ghost some: { 0 < vec_len bytes },
    ghost ordered: { start ≤ end },
    ghost within: { end ≤ vec_len bytes },
}

impl<R: Read + Drop, A: Grows> ReadAhead<R, A> {
    /// An empty buffer of so many bytes.
    pub fn new(alloc: A, len: usize, patient: Patient<R>) -> Result<ReadAhead<R, A>, Refused<A>>
        requires some { 1 ≤ len }
        requires limit { len ≤ GROWTH_LIMIT }
        ensures patient { IfOk result (λ r. r.patient ≡ patient) }
        ensures empty { IfOk result (λ r. slice_range r.bytes.items r.start r.end ≡ []) }
    {
        let mut bytes = Vec::new(alloc);
        fill(&mut bytes, len, 0)?;
        Ok(ReadAhead {
            patient,
            bytes,
            start: 0,
            end: 0,
        })
    }
}

impl<R: Read, A: Allocator> Buffered for ReadAhead<R, A> {
    ghost use Rattle.std.specs.Prelude.{slice_range};
    ghost use Rattle.std.specs.Io.KnownBytes.{prepend_known};

    ghost ahead = { λ r. slice_range r.bytes.items r.start r.end };

    ghost remaining = { λ r. prepend_known (slice_range r.bytes.items r.start r.end) (R.remaining r.patient.polled.inner) };

    ghost answers = { λ r. r.patient.polled.note.answers };

    fn ahead(&self) -> &[u8] {
        let (start, end) = (self.start, self.end);
        &self.bytes.as_slice()[start..end]
    }

    fn fill(&mut self) -> io::Result<()> {
        if self.start < self.end {
            return Ok(());
        }
        self.start = 0;
        self.end = 0;
        let count = self.patient.read(self.bytes.as_mut_slice())?;
        self.end = count;
        Ok(())
    }

    fn take(&mut self, count: usize) {
        self.start += count;
    }

    fn is_ready(&mut self, millis: u32) -> bool {
        self.start < self.end || self.patient.polled.is_readable(millis)
    }
}
