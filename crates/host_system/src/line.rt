//! A line that is written in one call.
ghost use Rattle.std.specs.Prelude.{◌≡◌, ◌-◌, ◌≤◌, Some, length, slice_get};

use std::io::{self, Write};

// How many bytes a line has at most, with its newline. If a pipe is ready for a write, one of this many bytes does not block.
// Linux, pipe(7), PIPE_BUF.
const LIMIT: usize = 4_096;

/// A text that is cut at 4,096 bytes.
#[derive(Drop)]
pub struct BoundedLine {
    bytes: [u8; LIMIT],
    length: usize,
    ghost fits: { length ≤ 4096 },
}

impl BoundedLine {
    /// No text yet.
    pub fn new() -> BoundedLine {
        BoundedLine {
            bytes: [0; LIMIT],
            length: 0,
        }
    }

    /// Ends it with a newline, which replaces the last byte of a full line.
    pub fn end(&mut self)
        ensures ended { slice_get self.new.bytes (self.new.length - 1) ≡ Some 10 }
    {
        let last = self.length.min(LIMIT - 1);
        self.bytes[last] = b'\n';
        self.length = last + 1;
    }

    /// The text so far.
    pub fn as_bytes(&self) -> &[u8]
        ensures short { length result.now ≤ 4096 }
    {
        &self.bytes[..self.length]
    }
}

impl Write for BoundedLine {
    fn write(&mut self, buf: &[u8]) -> io::Result<usize> {
        let mut rest = &mut self.bytes[self.length..];
        let length = rest.write(buf)?;
        self.length += length;
        Ok(length)
    }

    fn flush(&mut self) -> io::Result<()> {
        Ok(())
    }
}
