//! The input of a session: lines of commands.
ghost use Rattle.std.specs.Prelude.{◌≡◌, ◌++◌, [], ◌∷◌, Bool, IsTrue, Ok, OnErr};
ghost use Rattle.exec_lines.specs.Buffer.{line_bytes};
ghost use Rattle.exec_lines.specs.Inputs.{InputView, InputEvent, TakesPiece};
ghost use Rattle.exec_lines.specs.Inputs.InputEvent.{Polled, Peeked};

use crate::buffer::LineBuffer;
use crate::line::Piece;
use std::io;

/// Input that can be polled, and whose lines are read in pieces. It logs what it was asked.
pub trait Input {
    ghost view: { Self → InputView };

    // Whether the end of the input was found, and whether a read failed.
    ghost ended: { Self → Bool };

    ghost broke: { Self → Bool };

    /// Waits for at most this many milliseconds until a read would not block, and returns whether it would not. The end of the
    /// input and a fault count as ready; a read reports them. Nothing is read.
    fn is_ready(&mut self, millis: u32) -> bool
        ensures left { (view self.new).left ≡ (view self.old).left }
        ensures asked { (view self.new).asked ≡ (view self.old).asked ++ Polled millis result ∷ [] };

    /// Whether the bytes already read hold a whole line, so that the next line needs no wait.
    fn has_line(&mut self) -> bool
        ensures left { (view self.new).left ≡ (view self.old).left }
        ensures asked { (view self.new).asked ≡ (view self.old).asked ++ Peeked result ∷ [] };

    /// Makes one read: takes the bytes that it gives, up to a newline, and appends what of them fits to the line in the buffer. An
    /// interrupted read is one without bytes.
    fn take_piece(&mut self, buffer: &mut LineBuffer) -> io::Result<Piece>
        ensures takes { TakesPiece (view self.old) (view self.new) (line_bytes buffer.old) (line_bytes buffer.new) result }
        ensures ends { result ≡ Ok Piece.Nothing → IsTrue (ended self.new) }
        ensures breaks { OnErr result (IsTrue (broke self.new)) };
}
