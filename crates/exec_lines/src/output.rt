//! The output of a session: replies and notices.
ghost use Rattle.std.specs.Prelude.{◌≡◌, ◌≢◌, ◌≤◌, ℕ, Bool, List, [], IsTrue, IfOk, OnOk, OnErr, Option, length};
ghost use Rattle.std.specs.Io.KnownBytes.{WriteAppends, Keeps};

use std::io;

/// Output whose reader may be gone.
pub trait Output {
    // The bytes that it holds, where they are known.
    ghost contents: { Self → Option (List ℕ) };

    // Whether all that was put was flushed, and whether a write or a flush failed.
    ghost flushed: { Self → Bool };

    ghost broke: { Self → Bool };

    /// Makes one write and returns how many of the bytes it took, at least one. It waits while the output takes none, and an interrupted
    /// write is made again.
    fn put(&mut self, bytes: &[u8]) -> io::Result<usize>
        requires { bytes.now ≢ [] }
        ensures some { IfOk result (λ n. 1 ≤ n) }
        ensures bound { IfOk result (λ n. n ≤ length bytes.now) }
        ensures bytes { WriteAppends (contents self.old) (contents self.new) result bytes.now }
        ensures breaks { OnErr result (IsTrue (broke self.new)) };

    /// Flushes what was put, so that after `Ok` the system has it.
    fn flush_out(&mut self) -> io::Result<()>
        ensures bytes { Keeps (contents self.old) (contents self.new) }
        ensures flushed { OnOk result (IsTrue (flushed self.new)) }
        ensures breaks { OnErr result (IsTrue (broke self.new)) };

    /// Whether the output may still have a reader.
    fn has_reader(&self) -> bool;
}

impl<W: Output> Output for &mut W {
    ghost contents = { λ w. W.contents w.now };

    ghost flushed = { λ w. W.flushed w.now };

    ghost broke = { λ w. W.broke w.now };

    fn put(&mut self, bytes: &[u8]) -> io::Result<usize> {
        (**self).put(bytes)
    }

    fn flush_out(&mut self) -> io::Result<()> {
        (**self).flush_out()
    }

    fn has_reader(&self) -> bool {
        (**self).has_reader()
    }
}
