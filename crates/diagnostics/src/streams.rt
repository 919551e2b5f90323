//! The errors of standard input and standard output.
use crate::standard_error::{advise, explain, name};
use exec_faults::Fault;
use exec_lines::{Output, Patient};
use host_system::System;
use std::cell::Cell;
use std::io::{self, ErrorKind, Read, Write};

/// The first error that a stream met, if any.
#[derive(Drop)]
pub struct FirstError {
    met: Cell<Option<io::Error>>,
}

/// A reader or a writer whose first error is noted. An error after which the call is just repeated does not count.
#[derive(Drop)]
pub struct Noted<'a, T> {
    inner: T,
    first: &'a FirstError,
}

impl<T> Noted<'_, T> {
    fn note(&self, error: io::Error) {
        let again = matches!(error.kind(), ErrorKind::WouldBlock | ErrorKind::Interrupted);
        if !again && self.first.met.get().is_none() {
            self.first.met.set(Some(error));
        }
    }
}

impl<R: Read> Read for Noted<'_, R> {
    fn read(&mut self, buf: &mut [u8]) -> io::Result<usize> {
        let read = self.inner.read(buf);
        if let Err(error) = &read {
            self.note(*error);
        }
        read
    }
}

impl<W: Write> Write for Noted<'_, W> {
    fn write(&mut self, buf: &[u8]) -> io::Result<usize> {
        let written = self.inner.write(buf);
        if let Err(error) = &written {
            self.note(*error);
        }
        written
    }

    fn flush(&mut self) -> io::Result<()> {
        let flushed = self.inner.flush();
        if let Err(error) = &flushed {
            self.note(*error);
        }
        flushed
    }
}

/// Standard output for what is shown, whose descriptor may be non-blocking: a write waits while it takes nothing.
#[derive(Drop)]
pub struct Shown<'a, W: Write> {
    output: Patient<Noted<'a, W>>,
}

impl<W: Write> Write for Shown<'_, W> {
    fn write(&mut self, buf: &[u8]) -> io::Result<usize> {
        if buf.is_empty() {
            return Ok(0);
        }
        self.output.put(buf)
    }

    fn flush(&mut self) -> io::Result<()> {
        self.output.flush_out()
    }
}

impl FirstError {
    /// No error yet.
    pub fn none() -> FirstError {
        FirstError {
            met: Cell::new(None),
        }
    }

    /// This error.
    pub fn of(error: io::Error) -> FirstError {
        FirstError {
            met: Cell::new(Some(error)),
        }
    }

    /// Whether it is that the reader has gone.
    pub fn is_unread(&self) -> bool {
        match self.met.get() {
            Some(error) => error.kind() == ErrorKind::BrokenPipe,
            None => false,
        }
    }

    /// Standard input, over a reader of it, which notes its first error here.
    pub fn input<R: Read>(&self, inner: R) -> Patient<Noted<'_, R>> {
        Patient::new(Noted { inner, first: self }, libc::STDIN_FILENO)
    }

    /// Standard output, over a writer of it, which notes its first error here.
    pub fn output<W: Write>(&self, inner: W) -> Patient<Noted<'_, W>> {
        Patient::new(Noted { inner, first: self }, libc::STDOUT_FILENO)
    }

    /// The same for what is shown.
    pub fn shown<W: Write>(&self, inner: W) -> Shown<'_, W> {
        Shown {
            output: self.output(inner),
        }
    }
}

// Reports that input or output failed, with the stream and its error for a person. If neither met an error, the program ended because
// the reader of its output has gone.
fn report(system: &System<'_>, input: &FirstError, output: &FirstError) {
    name(system, Fault::InputOrOutput);
    match (input.met.get(), output.met.get()) {
        (Some(error), _) => {
            explain(
                system,
                format_args!("standard input could not be read: {error}"),
            );
        }
        (None, Some(error)) => {
            explain(
                system,
                format_args!("standard output could not be written: {error}"),
            );
        }
        (None, None) => explain(system, "the reader of standard output has gone"),
    }
}

/// Reports a failure of output that ended the program before any command was read.
pub fn report_shown(system: &System<'_>, output: &FirstError, ended: Result<(), Fault>) {
    if let Err(Fault::InputOrOutput) = ended {
        report(system, &FirstError::none(), output);
    }
}

/// Reports a failure of input or output that ended a session before its input did, with advice.
pub fn report_run(
    system: &System<'_>,
    input: &FirstError,
    output: &FirstError,
    ended: Result<(), Fault>,
) {
    if let Err(Fault::InputOrOutput) = ended {
        report(system, input, output);
        advise(system, Fault::InputOrOutput);
    }
}
