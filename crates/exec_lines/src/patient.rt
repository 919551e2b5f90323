//! Readers and writers whose descriptor may be non-blocking.
ghost use Rattle.std.specs.Prelude.{◌≡◌, ◌≢◌, ◌<◌, ◌≤◌, Ok, IsTrue, IfErr, None, OnErr, OnOk, Some, length};
ghost use Rattle.std.specs.Io.{ReadsAtMost};
ghost use Rattle.std.specs.Io.KnownBytes.{ReadConsumes};
ghost use Rattle.std.specs.IoError.{error_kind};
ghost use Rattle.exec_lines.specs.Descriptors.{has_failed};

use crate::output::Output;
use crate::polled::Polled;
use ocf_types::NUM_MAX;
use std::io::{self, ErrorKind, Read, Write};

// The length of one wait, in milliseconds.
const ONCE: u32 = 1_000;

// The interval at which a waiting read checks that the replies still have a reader, in milliseconds.
const UNTIL_A_LOOK: u32 = 500;

/// A reader or a writer of a descriptor that may be non-blocking: it polls the descriptor and tries again where a call would
/// block.
#[derive(Drop)]
pub struct Patient<T> {
    pub(crate) polled: Polled<T>,
    // The descriptor of the replies, if a read is to fail once they have no reader.
    replies: Option<i32>,
}

impl<T> Patient<T> {
    /// A reader or a writer of this descriptor.
    pub fn new(inner: T, descriptor: i32) -> Patient<T>
        ensures inner { result.polled.inner ≡ inner }
        ensures descriptor { result.polled.descriptor ≡ Some descriptor }
    {
        Patient {
            polled: Polled::new(inner, Some(descriptor)),
            replies: None,
        }
    }

    /// A reader or a writer that has no descriptor, as one in memory: no call would block.
    pub fn of(inner: T) -> Patient<T>
        ensures inner { result.polled.inner ≡ inner }
        ensures none { result.polled.descriptor ≡ None }
    {
        Patient {
            polled: Polled::new(inner, None),
            replies: None,
        }
    }

    /// The same reader, whose reads fail with the kind `BrokenPipe` within a second after the other end of this descriptor is
    /// closed, if there is no input.
    pub fn with_replies(mut self, descriptor: i32) -> Patient<T>
        ensures polled { result.polled ≡ self.polled }
        ensures replies { result.replies ≡ Some descriptor }
    {
        self.replies = Some(descriptor);
        self
    }

    // Waits for input as long as the replies have a reader.
    fn await_input(&mut self) -> io::Result<()>
        ensures inner { self.new.polled.inner ≡ self.old.polled.inner }
        ensures waits { OnOk result (self.old.polled.note.answers.again ≤ self.new.polled.note.answers.again) }
        ensures breaks { OnErr result (IsTrue (has_failed self.new.polled.note.answers)) }
    {
        let Some(replies) = self.replies else {
            return Ok(());
        };
        for _ in 0..NUM_MAX {
            if self.polled.is_readable(UNTIL_A_LOOK) {
                return Ok(());
            }
            if self.polled.is_unread(replies) {
                return Err(io::Error::from(ErrorKind::BrokenPipe));
            }
        }
        Err(io::Error::from(ErrorKind::TimedOut))
    }
}

impl<R: Read> Patient<R> {
    /// Reads once there are bytes, or the descriptor says that the input has ended, or fails.
    pub(crate) fn read(&mut self, buf: &mut [u8]) -> io::Result<usize>
        ensures bound { ReadsAtMost result buf.new }
        ensures bytes { ReadConsumes (R.remaining self.old.polled.inner) (R.remaining self.new.polled.inner) result buf.new }
        ensures ends { result ≡ Ok 0 → 0 < length buf.new → IsTrue self.new.polled.note.answers.ended }
        ensures breaks { IfErr result
            (λ e. error_kind e ≢ ErrorKind.Interrupted → IsTrue (has_failed self.new.polled.note.answers)) }
    {
        for _ in 0..NUM_MAX {
            self.await_input()?;
            match self.polled.read(buf) {
                Err(error) if error.kind() == ErrorKind::WouldBlock => {
                    self.polled.is_readable(ONCE);
                }
                read => return read,
            }
        }
        Err(io::Error::from(ErrorKind::TimedOut))
    }
}

impl<W: Write> Output for Patient<W> {
    ghost use Rattle.exec_lines.specs.Descriptors.{has_failed};

    ghost contents = { λ w. W.contents w.polled.inner };

    ghost flushed = { λ w. w.polled.note.answers.flushed };

    ghost broke = { λ w. has_failed w.polled.note.answers };

    fn put(&mut self, bytes: &[u8]) -> io::Result<usize> {
        for _ in 0..NUM_MAX {
            match self.polled.write(bytes) {
                Ok(0) => return Err(io::Error::from(ErrorKind::WriteZero)),
                Err(error) if error.kind() == ErrorKind::WouldBlock => {
                    self.polled.is_writable(ONCE);
                }
                Err(error) if error.kind() == ErrorKind::Interrupted => {}
                written => return written,
            }
        }
        Err(io::Error::from(ErrorKind::TimedOut))
    }

    fn flush_out(&mut self) -> io::Result<()> {
        self.polled.flush()
    }

    fn has_reader(&self) -> bool {
        self.polled.has_reader()
    }
}
