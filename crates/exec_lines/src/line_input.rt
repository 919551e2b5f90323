//! A session's input over a reader whose bytes can be looked at.
ghost use Rattle.std.specs.Prelude.{◌≡◌, ◌≢◌, ◌↔◌, ◌+◌, ◌<◌, ◌≤◌, false, [], ◌∷◌, ◌++◌, Contains, IfOk, IsTrue, OnErr, Ok};
ghost use Rattle.std.specs.IoError.{error_kind};
ghost use Rattle.std.specs.Io.KnownBytes.{IsAtEnd};
ghost use Rattle.std.specs.declared.io.Error.{Error};
ghost use Rattle.exec_lines.specs.Buffer.{line_bytes};
ghost use Rattle.exec_lines.specs.Inputs.{TakesPiece, took};
ghost use Rattle.exec_lines.specs.Inputs.InputEvent.{Peeked, Polled};

use crate::buffer::LineBuffer;
use crate::buffered::Buffered;
use crate::input::Input;
use crate::line::{Piece, line_len};
use crate::note::InputNote;
use std::io::{self, ErrorKind};

/// Input over such a reader, which logs what it was asked.
#[derive(Drop)]
pub struct LineInput<R> {
    reader: R,
    note: InputNote,
}

impl<R: Buffered> LineInput<R> {
    /// Nothing was asked yet.
    pub fn new(reader: R) -> LineInput<R>
        ensures reader { result.reader ≡ reader }
        ensures unasked { result.note.asked ≡ [] }
    {
        LineInput {
            reader,
            note: InputNote::unasked(),
        }
    }

    // Takes the bytes that the reader has, up to a newline, and appends what of them fits to the line in the buffer.
    fn take_shown(&mut self, buffer: &mut LineBuffer) -> Piece
        requires end { R.ahead self.old.reader ≡ [] → IsAtEnd (R.remaining self.old.reader) }
        requires ended { R.ahead self.old.reader ≡ [] → IsTrue (R.answers self.old.reader).ended }
        ensures takes { TakesPiece {E = Error}
            (record { left = R.remaining self.old.reader; asked = self.old.note.asked })
            (record { left = R.remaining self.new.reader; asked = self.new.note.asked })
            (line_bytes buffer.old) (line_bytes buffer.new) (Ok result) }
        ensures ends { result ≡ Piece.Nothing → IsTrue (R.answers self.new.reader).ended }
    {
        let bytes = self.reader.ahead();
        let len = line_len(bytes);
        let part = &bytes[..len];
        buffer.append(part);
        let piece = Piece::of(bytes, len);
        // TRUSTED: one read was made, and these are the bytes that are taken of what it gave.
        self.note.follow(&(part, piece));
        self.reader.take(len + piece.newline_len());
        piece
    }

    // After a read that failed. One that was interrupted is one without bytes.
    fn fail(&mut self, error: io::Error) -> io::Result<Piece>
        ensures reader { self.new.reader ≡ self.old.reader }
        ensures asked { self.new.note.asked ≡ self.old.note.asked ++ took [] result ∷ [] }
        ensures part { IfOk result (λ p. p ≡ Piece.Part) }
        ensures fails { OnErr result (error_kind error ≢ ErrorKind.Interrupted) }
    {
        let piece = if error.kind() == ErrorKind::Interrupted {
            Ok(Piece::Part)
        } else {
            Err(error)
        };
        // TRUSTED: one read was made, and took nothing.
        self.note.follow(&piece);
        piece
    }
}

impl<R: Buffered> Input for LineInput<R> {
    ghost use Rattle.exec_lines.specs.Descriptors.{has_failed};

    ghost view = { λ i. record { left = R.remaining i.reader; asked = i.note.asked } };

    ghost ended = { λ i. (R.answers i.reader).ended };

    ghost broke = { λ i. has_failed (R.answers i.reader) };

    fn is_ready(&mut self, millis: u32) -> bool
        ensures left { R.remaining self.new.reader ≡ R.remaining self.old.reader }
        ensures asked { self.new.note.asked ≡ self.old.note.asked ++ Polled millis result ∷ [] }
        ensures some { R.ahead self.old.reader ≢ [] → IsTrue result }
        ensures waits { (R.answers self.new.reader).waited ≤ (R.answers self.old.reader).waited + millis }
        ensures again { result ≡ false → (R.answers self.old.reader).again < (R.answers self.new.reader).again }
    {
        let is_ready = self.reader.is_ready(millis);
        // TRUSTED: the reader was polled once, for at most this time, and this is its answer.
        self.note.follow(&(millis, is_ready));
        is_ready
    }

    fn has_line(&mut self) -> bool
        ensures left { R.remaining self.new.reader ≡ R.remaining self.old.reader }
        ensures asked { self.new.note.asked ≡ self.old.note.asked ++ Peeked result ∷ [] }
        ensures line { IsTrue result ↔ Contains (R.ahead self.old.reader) 10 }
    {
        let has_line = self.reader.ahead().contains(&b'\n');
        // TRUSTED: nothing was read or polled: only the bytes that were read before were looked at.
        self.note.follow(&has_line);
        has_line
    }

    fn take_piece(&mut self, buffer: &mut LineBuffer) -> io::Result<Piece> {
        match self.reader.fill() {
            Ok(()) => Ok(self.take_shown(buffer)),
            Err(error) => self.fail(error),
        }
    }
}
