//! Readers whose bytes can be looked at before they are taken.
ghost use Rattle.std.specs.Prelude.{◌≡◌, ◌≢◌, ◌+◌, ◌<◌, ◌≤◌, ℕ, false, List, [], IsTrue, IfErr, OnOk, OnErr, Option, Some, drop, length, take};
ghost use Rattle.std.specs.IoError.{error_kind};
ghost use Rattle.std.specs.Io.KnownBytes.{Consumes, IsAtEnd, Keeps};
ghost use Rattle.exec_lines.specs.Descriptors.{SystemAnswers, has_failed};

use std::io::{self, ErrorKind};

/// A reader whose bytes can be looked at before they are taken, and that can be polled.
pub trait Buffered {
    // The bytes that were read and not yet taken.
    ghost ahead: { Self → List ℕ };

    // All bytes that are left, these included, where they are known.
    ghost remaining: { Self → Option (List ℕ) };

    // What the system said of it.
    ghost answers: { Self → SystemAnswers };

    /// The bytes that were read and not yet taken.
    fn ahead(&self) -> &[u8]
        ensures { result.now ≡ ahead self.now };

    /// Makes one read, if there are no bytes that were not yet taken.
    fn fill(&mut self) -> io::Result<()>
        ensures kept { Keeps (remaining self.old) (remaining self.new) }
        ensures end { OnOk result (ahead self.new ≡ [] → IsAtEnd (remaining self.new)) }
        ensures ends { OnOk result (ahead self.new ≡ [] → IsTrue (answers self.new).ended) }
        ensures breaks { IfErr result
            (λ e. error_kind e ≢ ErrorKind.Interrupted → IsTrue (has_failed (answers self.new))) };

    /// Takes so many of the bytes that were read.
    fn take(&mut self, count: usize)
        requires { count ≤ length (ahead self.old) }
        ensures ahead { ahead self.new ≡ drop count (ahead self.old) }
        ensures taken { Consumes (remaining self.old) (remaining self.new) (take count (ahead self.old)) }
        ensures ends { IsTrue (answers self.old).ended → IsTrue (answers self.new).ended };

    /// Waits for at most this many milliseconds until a read would not block, and returns whether it would not. Bytes that were not yet
    /// taken are read without a wait. Nothing is read.
    fn is_ready(&mut self, millis: u32) -> bool
        ensures ahead { ahead self.new ≡ ahead self.old }
        ensures remaining { remaining self.new ≡ remaining self.old }
        ensures some { ahead self.old ≢ [] → IsTrue result }
        ensures waits { (answers self.new).waited ≤ (answers self.old).waited + millis }
        ensures again { result ≡ false → (answers self.old).again < (answers self.new).again };
}

/// All bytes are ready at once.
impl Buffered for &[u8] {
    ghost use Rattle.exec_lines.specs.Descriptors.{whole};

    ghost ahead = { λ s. s.now };

    ghost remaining = { λ s. Some s.now };

    ghost answers = { λ s. whole s.now };

    fn ahead(&self) -> &[u8] {
        self
    }

    fn fill(&mut self) -> io::Result<()> {
        Ok(())
    }

    fn take(&mut self, count: usize) {
        *self = &self[count..];
    }

    fn is_ready(&mut self, _millis: u32) -> bool {
        true
    }
}
