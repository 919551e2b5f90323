//! Standard error, to which the lines of results are written.
use host_system::System;
use std::io::{self, Eprint, Write};
use std::str;

/// Standard error as a writer that never blocks. Each call writes a line; one that cannot be written at once is counted as left out.
#[derive(Drop)]
pub struct Errors<'a> {
    system: &'a System<'a>,
}

impl<'a> Errors<'a> {
    /// The standard error of the program.
    pub fn new(system: &'a System<'a>) -> Errors<'a> {
        Errors { system }
    }
}

impl Write for Errors<'_> {
    fn write(&mut self, buf: &[u8]) -> io::Result<usize> {
        let _ = self.system.eprint(str::from_utf8(buf).unwrap_or_default());
        Ok(buf.len())
    }

    fn flush(&mut self) -> io::Result<()> {
        Ok(())
    }
}
