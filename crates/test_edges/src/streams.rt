//! What a session of a test reads and writes: one type of each, so that the session is compiled once.
use std::alloc::Global;
use std::io::{self, ErrorKind, Read, Write};
use std::str::from_utf8;

/// Bytes that are read, and then the end of the input.
#[derive(Drop)]
pub struct Feed<'a> {
    left: &'a [u8],
    // Whether each read comes after one that was interrupted or would block, and the input fails in place of its end.
    is_stumbling: bool,
    stumbles: bool,
}

impl<'a> Feed<'a> {
    /// An input that comes as it is asked for.
    pub fn even(bytes: &'a [u8]) -> Feed<'a> {
        Feed {
            left: bytes,
            is_stumbling: false,
            stumbles: false,
        }
    }

    /// An input each of whose reads comes after one that was interrupted or would block, and that fails after these bytes.
    pub fn stumbling(bytes: &'a [u8]) -> Feed<'a> {
        Feed {
            left: bytes,
            is_stumbling: true,
            stumbles: false,
        }
    }

    // Why this read fails, if it does.
    fn fault(&mut self) -> Option<ErrorKind> {
        if !self.is_stumbling {
            return None;
        }
        self.stumbles = !self.stumbles;
        match (self.stumbles, self.left.len()) {
            (true, left) if left % 2 == 0 => Some(ErrorKind::Interrupted),
            (true, _) => Some(ErrorKind::WouldBlock),
            (false, 0) => Some(ErrorKind::BrokenPipe),
            (false, _) => None,
        }
    }
}

impl Read for Feed<'_> {
    fn read(&mut self, buf: &mut [u8]) -> io::Result<usize> {
        match self.fault() {
            Some(kind) => Err(io::Error::from(kind)),
            None => self.left.read(buf),
        }
    }
}

/// The bytes that were written, of as many as may be.
#[derive(Drop)]
pub struct Sheet {
    taken: Vec<u8>,
    room: usize,
    // Whether it takes one byte at a time, each after a write that was interrupted.
    is_sparing: bool,
    stumbles: bool,
}

impl Sheet {
    /// An output that takes this many bytes.
    pub fn of(alloc: Global, room: usize) -> Sheet {
        Sheet {
            taken: Vec::new(alloc),
            room,
            is_sparing: false,
            stumbles: false,
        }
    }

    /// An output that takes all bytes.
    pub fn endless(alloc: Global) -> Sheet {
        Sheet::of(alloc, usize::MAX)
    }

    /// An output that takes all bytes, one at a time, each after a write that was interrupted.
    pub fn sparing(alloc: Global) -> Sheet {
        Sheet {
            taken: Vec::new(alloc),
            room: usize::MAX,
            is_sparing: true,
            stumbles: false,
        }
    }

    /// What was written, as text.
    pub fn text(&self) -> &str {
        from_utf8(self.taken.as_slice()).unwrap_or("no text")
    }
}

impl Write for Sheet {
    fn write(&mut self, buf: &[u8]) -> io::Result<usize> {
        self.stumbles = self.is_sparing && !self.stumbles;
        if self.stumbles {
            return Err(io::Error::from(ErrorKind::Interrupted));
        }
        let most = if self.is_sparing {
            1
        } else {
            self.room.saturating_sub(self.taken.len())
        };
        self.taken.write(&buf[..buf.len().min(most)])
    }

    fn flush(&mut self) -> io::Result<()> {
        Ok(())
    }
}
