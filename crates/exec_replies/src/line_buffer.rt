//! The buffers that are kept from one line to the next.
ghost use Rattle.std.specs.Prelude.{◌≡◌, [], IfOk};

use growth::{Grows, Refused};
use std::alloc::Global;
use std::mem;

/// The bytes that the buffer of a line has at least. Most lines fit; for one with a long path, reason or list it grows.
const FIRST_BYTES: usize = 1024;

/// The most bytes that each buffer keeps for the next line.
const KEPT_BYTES: usize = 65_536;

/// A line, in a buffer that is kept for the next line, and beside it the buffer of the message of a refusal.
#[derive(Drop)]
pub struct LineBuffer {
    pub line: Vec<u8>,
    pub(crate) message: String,
}

impl LineBuffer {
    /// No line yet. It takes no memory before the first one.
    pub fn new(alloc: Global) -> Self
        ensures none { result.line.items ≡ [] }
    {
        LineBuffer {
            line: Vec::new(alloc),
            message: String::new(alloc),
        }
    }

    /// Takes the buffer of the line, emptied and with capacity for a line.
    pub(crate) fn take_line(&mut self) -> Result<Vec<u8>, Refused>
        ensures items { IfOk result (λ b. b.items ≡ []) }
    {
        let alloc = *self.line.allocator();
        let mut line = mem::replace(&mut self.line, Vec::new(alloc));
        if line.capacity() > KEPT_BYTES {
            line = Vec::new(alloc);
        }
        line.clear();
        Global::reserve(&mut line, FIRST_BYTES)?;
        Ok(line)
    }

    /// Takes the buffer of the message, which may still hold an earlier one.
    pub(crate) fn take_message(&mut self) -> String {
        let alloc = *self.message.allocator();
        let message = mem::replace(&mut self.message, String::new(alloc));
        if message.capacity() > KEPT_BYTES {
            return String::new(alloc);
        }
        message
    }
}
