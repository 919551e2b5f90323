//! Reads of a session, and what a line is read as.
ghost use Rattle.std.specs.Prelude.{◌≡◌, ℕ, List, [], Err, IfOk, OnErr, OnOk, take};
ghost use Rattle.exec_lines.specs.Buffer.{line_bytes};
ghost use Rattle.exec_lines.specs.Lines.{line_answer, line_room};
ghost use Rattle.session_machine.specs.May.{MayRead};
ghost use Rattle.session_machine.specs.Replies.{HasMemoryCause, HasTagOf, IsReadAs};
ghost use Rattle.exec_session.specs.Reading.{IsGot, IsNoted, ReadsOn, got_of};
ghost use Rattle.exec_session.specs.Standing.{Continues, SameButBuffer};

use crate::session::Session;
use exec_commands::{Line, Tag, read_command, read_strictly};
use exec_lines::{LineBuffer, Next};
use growth::Refused;
use ocf_model::Refusal;
use session_machine::{Edge, Failed, Mode};
use std::alloc::Global;

/// What a read gave.
#[derive(Clone, Copy)]
pub enum Got {
    /// A part of the next line, or a line of no bytes.
    Nothing,
    /// A whole line, or one that is too long.
    Line(Next),
    /// The end of the input.
    End,
}

// The request in a line, or why it is refused, and the line's tag. In `serve` a line may ask for the end of the session, lines are read
// more strictly, and they have tags.
fn read_line(mode: Mode, alloc: Global, bytes: &[u8]) -> (Result<Line, Refusal>, Option<Tag>)
    ensures reads { IsReadAs mode bytes.now result.0 }
    ensures tag { HasTagOf mode bytes.now result.0 result.1 }
    ensures memory { HasMemoryCause result.0 }
{
    match mode {
        Mode::Run => (read_command(alloc, bytes), None),
        Mode::Serve => match read_strictly(alloc, bytes) {
            Ok(served) => (Ok(served.line), served.tag),
            Err(refusal) => (Err(refusal), None),
        },
    }
}

// What the whole line in the buffer is read as, and its tag; a line that is too long is refused.
fn line_in(
    mode: Mode,
    alloc: Global,
    buffer: &LineBuffer,
    next: Next,
) -> (Result<Line, Refusal>, Option<Tag>)
    ensures reads { (bytes : List ℕ) → line_bytes buffer.now ≡ take line_room bytes
        → next ≡ line_answer bytes → IsReadAs mode bytes result.0 }
    ensures tag { (bytes : List ℕ) → line_bytes buffer.now ≡ take line_room bytes
        → next ≡ line_answer bytes → HasTagOf mode bytes result.0 result.1 }
    ensures memory { HasMemoryCause result.0 }
{
    match next {
        Next::Line => read_line(mode, alloc, buffer.line()),
        Next::TooLong | Next::End => (Err(Refusal::Syntax), None),
    }
}

// What a read gave, after which the buffer has this much of the line: the next line, if it is complete.
fn got_in(next: Option<Next>, buffer: &LineBuffer) -> Got
    ensures { result ≡ got_of next (line_bytes buffer.now) }
{
    match next {
        None => Got::Nothing,
        Some(Next::End) => Got::End,
        Some(Next::Line) if buffer.line().is_empty() => Got::Nothing,
        Some(next) => Got::Line(next),
    }
}

// The line as it was noted: where no memory was there for its tag, it is refused for that.
fn as_noted(line: Result<Line, Refusal>, noted: Result<(), Refused>) -> Result<Line, Refusal>
    ensures same { OnOk noted (result ≡ line) }
    ensures refused { OnErr noted (result ≡ Err Refusal.Memory) }
{
    match noted {
        Ok(()) => line,
        Err(_) => Err(Refusal::Memory),
    }
}

impl<E: Edge + Drop> Session<E> {
    /// Reads once.
    pub fn read(&mut self) -> Result<Got, Failed>
        requires may { MayRead self.old.trace.state }
        requires kept { line_bytes self.old.pending.buffer
            ≡ take line_room self.old.trace.state.part }
        ensures same { SameButBuffer self.old self.new }
        ensures continues { Continues self.old.trace self.new.trace result }
        ensures reads { OnOk result (ReadsOn self.old.trace self.new.trace) }
        ensures got { IfOk result
            (λ got. IsGot self.new.trace.state (line_bytes self.new.pending.buffer) got) }
    {
        let next = self.edge.read(&mut self.pending.buffer)?;
        Ok(got_in(next, &self.pending.buffer))
    }

    /// Notes the line that was read, with its tag, and gives it; the buffer is empty after that.
    pub fn note(&mut self, next: Next) -> Result<Line, Refusal>
        requires got { IsGot self.old.trace.state
            (line_bytes self.old.pending.buffer) (Got.Line next) }
        ensures same { SameButBuffer self.old self.new }
        ensures empty { line_bytes self.new.pending.buffer ≡ [] }
        ensures noted { IsNoted self.old.trace self.new.trace result }
    {
        let mode = self.edge.rules().mode;
        let (line, tag) = line_in(mode, self.alloc, &self.pending.buffer, next);
        self.pending.buffer.clear();
        let noted = self.edge.note_line(&line, tag);
        as_noted(line, noted)
    }
}
