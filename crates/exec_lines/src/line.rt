//! Pieces of lines, and the lines that they make.
ghost use Rattle.std.specs.Prelude.{◌≡◌, ◌↔◌, List, ℕ, [], IsTrue, length, take};
ghost use Rattle.std.specs.List.{position_or_len};
ghost use Rattle.exec_lines.specs.Buffer.{line_bytes};
ghost use Rattle.exec_lines.specs.Lines.{is_newline, line_room};
ghost use Rattle.exec_lines.specs.Pieces.{answer_at, newline_count, piece_of};

use crate::buffer::LineBuffer;
use std::alloc::Allocator;

/// The next line of the input, or its end.
#[derive(Clone, Copy)]
pub enum Next {
    /// A line of at most 131,072 bytes.
    Line,
    /// A longer line.
    TooLong,
    /// The end of the input.
    End,
}

/// How the bytes of one read end.
#[derive(Clone, Copy)]
pub enum Piece {
    /// Bytes of the line, but not yet its end.
    Part,
    /// The last bytes of the line and its newline.
    Last,
    /// No bytes: the end of the input.
    Nothing,
}

impl Piece {
    // The piece of these bytes, of which so many are before the first newline.
    pub(crate) fn of(bytes: &[u8], len: usize) -> Piece
        ensures { result ≡ piece_of (length bytes.now) len }
    {
        if len < bytes.len() {
            Piece::Last
        } else if bytes.is_empty() {
            Piece::Nothing
        } else {
            Piece::Part
        }
    }

    // How many newlines end it.
    pub(crate) fn newline_len(self) -> usize
        ensures { result ≡ newline_count self }
    {
        match self {
            Piece::Last => 1,
            Piece::Part | Piece::Nothing => 0,
        }
    }
}

// How many of these bytes are before the first newline.
pub(crate) fn line_len(bytes: &[u8]) -> usize
    ensures { result ≡ position_or_len is_newline bytes.now }
{
    match bytes.iter().position(|byte| *byte == b'\n') {
        Some(len) => len,
        None => bytes.len(),
    }
}

// Whether the input ended before a line began.
fn is_end<A: Allocator>(buffer: &LineBuffer<A>, piece: Piece) -> bool
    ensures { IsTrue result ↔ ((piece ≡ Piece.Nothing) × (line_bytes buffer.now ≡ [])) }
{
    piece == Piece::Nothing && buffer.line().is_empty()
}

impl Next {
    /// The line in the buffer, of which this piece was read last.
    pub fn of<A: Allocator>(buffer: &LineBuffer<A>, piece: Piece) -> Next
        ensures { (line : List ℕ) → line_bytes buffer.now ≡ take line_room line
            → result ≡ answer_at piece line }
    {
        if is_end(buffer, piece) {
            Next::End
        } else if buffer.is_full() {
            Next::TooLong
        } else {
            Next::Line
        }
    }
}
