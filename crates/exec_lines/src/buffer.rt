//! The buffer that a line is read into.
ghost use Rattle.std.specs.Prelude.{◌≡◌, ◌≤◌, ◌↔◌, [], ◌++◌, IsTrue, IfOk, length, take, vec_len, vec_capacity};
ghost use Rattle.exec_lines.specs.Lines.{line_room};

use growth::{Grows, Refused, with_capacity};
use ocf_types::LINE_LIMIT;
use std::alloc::{Allocator, Global};

// One byte more than the greatest length of a line: a full buffer holds the beginning of a longer line.
const ROOM: usize = LINE_LIMIT + 1;

/// A buffer for one line. It allocates all its memory when it is made: 131,073 bytes, one more than the longest line has,
/// so that a longer line is noticed.
#[derive(Drop)]
pub struct LineBuffer<A: Allocator = Global> {
    bytes: Vec<u8, A>,
    ghost fits: { vec_len bytes ≤ line_room },
    ghost room: { line_room ≤ vec_capacity bytes },
}

impl<A: Grows> LineBuffer<A> {
    ghost use Rattle.exec_lines.specs.Buffer.{line_bytes};

    /// An empty buffer.
    pub fn new(alloc: A) -> Result<LineBuffer<A>, Refused<A>>
        ensures empty { IfOk result (λ b. line_bytes b ≡ []) }
    {
        let bytes = with_capacity(alloc, ROOM)?;
        Ok(LineBuffer { bytes })
    }
}

impl<A: Allocator> LineBuffer<A> {
    ghost use Rattle.exec_lines.specs.Buffer.{line_bytes};

    /// The line that was read last, in bytes.
    pub fn line(&self) -> &[u8]
        ensures { result.now ≡ line_bytes self.now }
    {
        self.bytes.as_slice()
    }

    // Whether the bytes that were read exceed the greatest length of a line.
    pub(crate) fn is_full(&self) -> bool
        ensures { IsTrue result ↔ (length (line_bytes self.now) ≡ line_room) }
    {
        self.bytes.len() == ROOM
    }

    /// Empties the buffer: the next line begins.
    pub fn clear(&mut self)
        ensures { line_bytes self.new ≡ [] }
    {
        self.bytes.clear();
    }

    // Appends as many bytes as fit.
    pub(crate) fn append(&mut self, part: &[u8])
        ensures { line_bytes self.new ≡ take line_room (line_bytes self.old ++ part.now) }
    {
        let fitting = part.len().min(ROOM - self.bytes.len());
        let _ = self.bytes.extend_from_slice(&part[..fitting]);
    }
}
