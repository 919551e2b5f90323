//! Copies of agents' output on standard error.
use libc::net::{POLLOUT, poll};
use libc::types::pollfd;
use std::cell::Cell;
use std::fs::File;
use std::io::{self, ErrorKind, Write};
use std::os::fd::{AsFd, AsRawFd};
use std::os::unix::fs::FileExt;
use std::process::ChildStdin;
use std::rt::Clock;

// How many bytes are copied at once. A pipe that is ready for a write takes as many without waiting. Linux, pipe(7), PIPE_BUF.
const CHUNK: usize = 4_096;

// How many times as many are copied of one output at most: a mebibyte.
const CHUNKS: u32 = 256;

// For how many milliseconds one copy waits for its reader.
const PATIENCE: u64 = 100;

/// Standard error, to which agents' output is copied. A write waits for a reader a tenth of a second at most, and no more once the
/// reader was waited for in vain, until it has read.
#[derive(Drop)]
pub struct Copier {
    // A descriptor of standard error. The type is that of a pipe, since a write to it fails where nobody reads, and raises no signal.
    stream: ChildStdin,
    is_stuck: Cell<bool>,
}

// A reading of the monotonic clock in milliseconds, zero where it fails.
fn millis_now(clock: &impl Clock) -> u64 {
    match clock.monotonic() {
        Ok(now) => u64::try_from(now.as_millis()).unwrap_or(u64::MAX),
        Err(_) => 0,
    }
}

// Waits for at most this many milliseconds until a write to a descriptor would not block, and returns whether it is so; `true` also
// where it would fail. POSIX, poll.
fn is_writable(descriptor: i32, millis: u32) -> bool {
    let mut asked = [pollfd {
        fd: descriptor,
        events: POLLOUT,
        revents: 0,
    }];
    poll(&mut asked, i32::try_from(millis).unwrap_or(0)) != 0
}

// The bytes at an offset of a file, as many as fit.
fn chunk_at<'a>(file: &File, offset: u64, room: &'a mut [u8]) -> io::Result<&'a [u8]> {
    let length = file.read_at(room, offset)?;
    Ok(&room[..length])
}

impl Copier {
    /// Copies to this stream, by another descriptor. It fails if the stream is closed, or if this process may open no more descriptors.
    pub fn new(stream: &impl AsFd) -> io::Result<Copier> {
        Ok(Copier {
            stream: ChildStdin::from(stream.as_fd().try_clone_to_owned()?),
            is_stuck: Cell::new(false),
        })
    }

    // How many milliseconds this write may wait, where a copy may wait until then.
    fn wait(&self, clock: &impl Clock, until: u64) -> u32 {
        if self.is_stuck.get() {
            return 0;
        }
        until.saturating_sub(millis_now(clock)).min(PATIENCE) as u32
    }

    // Writes these bytes, all of them, or fails.
    fn send(&self, clock: &impl Clock, bytes: &[u8], until: u64) -> io::Result<()> {
        let is_ready = is_writable(self.stream.as_raw_fd(), self.wait(clock, until));
        self.is_stuck.set(!is_ready);
        if !is_ready {
            let message = "nobody reads standard error, so an agent's output was left out";
            return Err(io::Error::new(ErrorKind::TimedOut, message));
        }
        let mut stream = &self.stream;
        if stream.write(bytes)? < bytes.len() {
            return Err(io::Error::from(ErrorKind::WriteZero));
        }
        Ok(())
    }

    // Ends a line that was begun: the last byte that was copied is this one.
    fn end_line(&self, clock: &impl Clock, last: u8, until: u64) -> io::Result<()> {
        match last {
            b'\n' => Ok(()),
            _ => self.send(clock, b"\n", until),
        }
    }

    /// Copies what is in a file, a mebibyte at most, and a newline if it does not end with one.
    pub fn copy(&self, clock: &impl Clock, file: &File) -> io::Result<()> {
        let until = millis_now(clock).saturating_add(PATIENCE);
        let mut room = [0u8; CHUNK];
        let mut offset = 0;
        let mut last = b'\n';
        for _ in 0..CHUNKS {
            let chunk = chunk_at(file, offset, &mut room)?;
            let Some(end) = chunk.last() else {
                return self.end_line(clock, last, until);
            };
            self.send(clock, chunk, until)?;
            offset = offset.saturating_add(chunk.len() as u64);
            last = *end;
        }
        self.end_line(clock, last, until)?;
        let message = "an agent wrote a mebibyte or more, and the rest was left out";
        Err(io::Error::new(ErrorKind::InvalidData, message))
    }
}
