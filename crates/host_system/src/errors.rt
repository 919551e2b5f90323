//! Standard error that never blocks.
use crate::line::BoundedLine;
use crate::ready::is_writable;
use std::cell::Cell;
use std::fmt::Display;
use std::io::{self, Eprint, ErrorKind, Print, Stderr, Write};
use std::os::fd::AsRawFd;

/// Standard error that never blocks: a line that cannot be written at once is left out, and before the next line that is written
/// comes the number of those left out. A line is cut at 4,096 bytes.
#[derive(Drop)]
pub struct ErrorLines {
    stderr: Stderr,
    // How many lines were left out since the last one that was written.
    left_out: Cell<u64>,
}

impl ErrorLines {
    /// Standard error of which no line was left out yet.
    pub fn new(stderr: Stderr) -> ErrorLines {
        ErrorLines {
            stderr,
            left_out: Cell::new(0),
        }
    }

    // A text, after the number of lines that were left out before it.
    fn encoded<D: Display + Drop>(&self, value: D) -> BoundedLine {
        let mut line = BoundedLine::new();
        let count = self.left_out.get();
        // what does not fit is cut; that is no error
        if count > 0 {
            let _ = writeln!(
                line,
                "ocfexec: messages dropped before this one, since standard error could not be written: {count}"
            );
        }
        let _ = write!(line, "{value}");
        line
    }

    // Writes bytes at once, all of them, or fails.
    fn write(&self, bytes: &[u8]) -> io::Result<()> {
        if !is_writable(self.stderr.as_raw_fd()) {
            return Err(io::Error::from(ErrorKind::WouldBlock));
        }
        if self.stderr.write_some(bytes)? < bytes.len() {
            return Err(io::Error::from(ErrorKind::WriteZero));
        }
        Ok(())
    }

    // Writes a line, or counts it as left out.
    fn send(&self, line: &BoundedLine) -> io::Result<()> {
        let sent = self.write(line.as_bytes());
        let count = match sent {
            Ok(()) => 0,
            Err(_) => self.left_out.get().saturating_add(1),
        };
        self.left_out.set(count);
        sent
    }
}

impl Eprint for ErrorLines {
    fn eprint<D: Display + Drop>(&self, value: D) -> io::Result<()> {
        self.send(&self.encoded(value))
    }

    fn eprintln<D: Display + Drop>(&self, value: D) -> io::Result<()> {
        let mut line = self.encoded(value);
        line.end();
        self.send(&line)
    }
}
