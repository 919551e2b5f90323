//! Takes lines: a command may wait for those after it, and a line may be held.
ghost use Rattle.std.specs.Prelude.{◌≡◌, ◌≤◌, ◌<◌, ◌+◌, false, true, None, Some, IsTrue};
ghost use Rattle.session_machine.specs.Session.{of_command};
ghost use Rattle.exec_session.specs.Held.{MayAnswerAtOnce, held_lines};
ghost use Rattle.exec_session.specs.Rounds.{AnswersRoundOn, Goes, HasFound, IsRound, TakesOn, TakesOneOn};
ghost use Rattle.exec_session.specs.Standing.{IsBetween, SameRest};
ghost use Rattle.exec_session.specs.Waits.{Asks};
ghost use Rattle.session_machine.specs.Limits.{polls_a_turn, reads_a_turn};
ghost use Rattle.exec_session.specs.declared.held.Held.TheVariants.{Leave};
ghost use Rattle.session_machine.specs.May.{IsAtRest, MayRead};
ghost use Rattle.session_machine.specs.After.{is_held};

use crate::flow::Flow;
use crate::held::{Held, held_in};
use crate::reading::Got;
use crate::session::Session;
use exec_commands::Line;
use ocf_model::Refusal;
use ocf_types::{Command, Request};
use session_machine::{Edge, Failed, Mode};

// The most reads between two turns.
const READS_A_TURN: u32 = 64;

impl<E: Edge + Drop> Session<E> {
    /// Whether the line that is held asks for the end of the session.
    pub fn is_leaving(&self) -> bool
        ensures leaves { IsTrue result → self.now.pending.held ≡ Some Leave }
        ensures rests { result ≡ false → IsAtRest (held_lines self.now.pending.held) }
    {
        matches!(self.pending.held, Some(Held::Leave))
    }

    // Queues a command after the others, and answers all of them unless the next line is already there.
    fn take_command(&mut self, command: Command) -> Result<Flow, Failed>
        requires open { self.old.trace.state.executor.is_open ≡ true }
        requires found { HasFound self.old (of_command command) }
        ensures takes { Goes TakesOn self.old self.new result }
    {
        let has_next = self.edge.has_line();
        self.pending.gathered.push(command);
        if has_next && !self.pending.gathered.is_full() {
            return Ok(Flow::GoesOn);
        }
        self.answer_waiting(false)
    }

    // Answers the commands that wait, and then this line, unless the session ends before that.
    fn take_other(&mut self, line: Result<Line, Refusal>) -> Result<Flow, Failed>
        requires at_once { MayAnswerAtOnce self.old.trace.state.rules.mode line }
        requires found { HasFound self.old line }
        ensures takes { Goes TakesOn self.old self.new result }
    {
        if self.answer_waiting(false)? == Flow::Over {
            return Ok(Flow::Over);
        }
        self.answer(line)?;
        self.flow(false)
    }

    // Takes the line that was read. One that is held waits for its answer. A command waits while the line after it is already there;
    // otherwise all that wait are answered together. Any other line is answered after them.
    fn take_line(&mut self, line: Result<Line, Refusal>) -> Result<Flow, Failed>
        requires found { HasFound self.old line }
        requires looked { is_held self.old.trace.state.rules.mode line ≡ true
            → self.old.trace.state.own.looked ≡ true }
        ensures takes { Goes TakesOn self.old self.new result }
    {
        let line = match held_in(self.edge.rules().mode, line) {
            Ok(held) => {
                self.pending.held = Some(held);
                return self.answer_waiting(false);
            }
            Err(other) => other,
        };
        match line {
            Ok(Line::Request(Request::Command(command))) if self.executor.is_open() => {
                self.take_command(command)
            }
            line => self.take_other(line),
        }
    }

    /// Continues the line in the buffer by one read; a complete line is taken. Commands do not wait for the rest of an incomplete one.
    pub fn take_read(&mut self) -> Result<Flow, Failed>
        requires may { MayRead self.old.trace.state }
        requires between { IsBetween self.old.trace.state self.old.pending }
        requires free { self.old.pending.held ≡ None }
        ensures takes { Goes TakesOneOn self.old self.new result }
    {
        match self.read()? {
            Got::Nothing => self.answer_waiting(false),
            Got::End => self.answer_waiting(true),
            Got::Line(next) => {
                let line = self.note(next);
                self.take_line(line)
            }
        }
    }

    // Whether a further line may be read now: none is held, and input is there.
    fn has_input(&mut self) -> bool
        requires serves { self.old.trace.state.rules.mode ≡ Mode.Serve }
        requires between { IsBetween self.old.trace.state self.old.pending }
        requires few { (self.old.trace.state.own.reads < reads_a_turn)
            × (self.old.trace.state.own.polls < polls_a_turn) }
        ensures asks { SameRest self.old self.new × Asks self.old.trace self.new.trace
            × (self.new.trace.state.own.polls ≤ self.old.trace.state.own.polls + 1) }
        ensures there { result ≡ true
            → MayRead self.new.trace.state × (self.new.pending.held ≡ None) }
        ensures none { result ≡ false → self.new.pending.held ≡ None
            → self.new.trace.state.own.looked ≡ true }
    {
        if self.pending.held.is_some() {
            return false;
        }
        self.edge.poll(0)
    }

    // Takes the lines that are there, 64 reads at most, up to the first that is held, and answers the commands that wait then, unless the
    // session ends before.
    fn take_lines(&mut self) -> Result<Flow, Failed>
        requires serves { self.old.trace.state.rules.mode ≡ Mode.Serve }
        requires round { IsRound self.old }
        requires free { self.old.pending.held ≡ None }
        ensures answers { Goes AnswersRoundOn self.old self.new result }
    {
        for _reads in 0..READS_A_TURN {
            if !self.has_input() {
                return self.answer_waiting(false);
            }
            if self.take_read()? == Flow::Over {
                return Ok(Flow::Over);
            }
        }
        self.answer_waiting(false)
    }

    /// Answers the line that is held, if its agent has answered. If none is held, answers the lines that are there, unless the session
    /// ends before.
    pub fn answer_round(&mut self) -> Result<Flow, Failed>
        requires serves { self.old.trace.state.rules.mode ≡ Mode.Serve }
        requires round { IsRound self.old }
        ensures answers { Goes AnswersRoundOn self.old self.new result }
    {
        if self.pending.held.is_none() {
            return self.take_lines();
        }
        if !self.answer_held()? {
            return Ok(Flow::GoesOn);
        }
        self.pending.held = None;
        self.flow(false)
    }
}
