//! Drains, watches and the orderly end of a session in `serve`: turns one after another.
ghost use Rattle.std.specs.Prelude.{◌≡◌, ◌≢◌, ◌≤◌, ◌+◌, [], ◌∷◌, length, IfOk, Ok, OnOk, true};
ghost use Rattle.ocf_model.specs.declared.reply.TurnEnd.TheVariants.{Disk};
ghost use Rattle.exec_turn.specs.Actives.{any_running};
ghost use Rattle.session_machine.specs.After.{after_drain_turn};
ghost use Rattle.session_machine.specs.Drains.{end_after};
ghost use Rattle.session_machine.specs.Session.{Drain, at_then, lines_in};
ghost use Rattle.exec_session.specs.Standing.{HasAnswered, IsOver, ReadsOpen, StaysLonger, Steps};
ghost use Rattle.exec_session.specs.Steps.{HasFinished, HasPaused, IsDrained, IsDraining, IsLeaving, MayPauseNow, drain_at, drain_line};

use crate::pause::Pause;
use crate::session::Session;
use exec_replies::{DrainEnd, LineReply};
use ocf_model::TurnEnd;
use ocf_types::NUM_MAX;
use session_machine::{Edge, Failed, Terms};

// How a drain ends after this number of turns, the last of which ended like this, with the executor idle or not, at this time.
// `None`: it goes on.
fn end_after(terms: Terms, turns: u64, now: u64, end: TurnEnd, idle: bool) -> Option<DrainEnd>
    ensures { result ≡ end_after terms turns now end idle }
{
    if end != TurnEnd::Done {
        return Some(DrainEnd::Turn(end));
    }
    if terms.ends_idle && idle {
        Some(DrainEnd::Idle)
    } else if terms.until <= now {
        Some(DrainEnd::Limit)
    } else if terms.most <= turns {
        Some(DrainEnd::Turns)
    } else {
        None
    }
}

impl<E: Edge + Drop> Session<E> {
    // Makes one turn of a drain, and sends its notices. Gives how the turn ended.
    fn drain_turn(&mut self, now: u64) -> Result<TurnEnd, Failed>
        requires due { (drain : Drain) × IsDraining self.old.trace.state drain now }
        ensures steps { Steps self.old self.new result }
        ensures stays { OnOk result (StaysLonger self.old.trace self.new.trace) }
        ensures turned { (drain : Drain) → IsDraining self.old.trace.state drain now
            → IfOk result (λ end. self.new.trace.state.at
            ≡ at_then (after_drain_turn drain now end)) }
        ensures open { IfOk result (λ end. end ≢ Disk
            → self.new.trace.state.executor.is_open ≡ true) }
    {
        let Some(end) = self.turn(now) else {
            return Ok(TurnEnd::Disk);
        };
        self.send_notices()?;
        Ok(end)
    }

    // Pauses for this many microseconds, and asks whether anybody reads the output.
    fn pause(&mut self, micros: u64) -> Result<(), Failed>
        requires pauses { MayPauseNow self.old.trace.state micros }
        ensures steps { Steps self.old self.new result }
        ensures paused { OnOk result (HasPaused self.old.trace self.new.trace) }
    {
        if micros > 0 {
            self.edge.rest(micros);
        }
        if self.edge.has_reader() {
            Ok(())
        } else {
            Err(Failed)
        }
    }

    // Makes turns until a drain ends, which begins at the last clock reading. It pauses between two turns in which nothing happened, and
    // breaks off where nobody reads the output any more.
    fn drain(&mut self, terms: Terms, start: u64) -> Result<DrainEnd, Failed>
        requires due { IsDraining self.old.trace.state (drain_at terms start) start }
        ensures steps { Steps self.old self.new result }
        ensures stays { OnOk result (StaysLonger self.old.trace self.new.trace) }
        ensures drained { IfOk result (λ end. IsDrained self.new.trace.state end) }
    {
        let mut now = start;
        let mut pause = Pause::new(start);
        for turns in 0..NUM_MAX {
            pause.before_turn(self.edge.micros(), now);
            let end = self.drain_turn(now)?;
            pause.after_turn(self.executor.book());
            let micros = pause.between_turns(self.edge.micros(), self.executor.idle());
            self.pause(micros)?;
            now = self.edge.now();
            if let Some(end) = end_after(terms, turns + 1, now, end, self.executor.idle()) {
                return Ok(end);
            }
        }
        Err(Failed)
    }

    /// Drains from now on, for at most this many milliseconds, and sends how that ended. A watch goes on where nothing is queued or running.
    pub fn answer_drain(&mut self, ends_idle: bool, limit: u32) -> Result<(), Failed>
        requires reads { ReadsOpen self.old.trace.state }
        requires is { lines_in self.old.trace.state ≡ Ok (drain_line ends_idle limit) ∷ [] }
        ensures steps { Steps self.old self.new result }
        ensures answered { OnOk result (HasAnswered self.old.trace self.new.trace []) }
    {
        let start = self.edge.now();
        let terms = Terms {
            ends_idle,
            until: start + u64::from(limit),
            most: self.edge.rules().most_turns,
        };
        let end = self.drain(terms, start)?;
        self.reply(&LineReply::Drain(end))
    }

    // Makes a turn now that begins nothing, and sends its notices.
    fn finish_turn(&mut self, pause: &mut Pause) -> Result<(), Failed>
        requires leaves { IsLeaving self.old.trace.state }
        requires runs { any_running self.old.trace.state.executor.state ≡ true }
        ensures steps { Steps self.old self.new result }
        ensures longer { OnOk result
            (length self.old.trace.events + 1 ≤ length self.new.trace.events) }
        ensures finished { OnOk result (HasFinished self.new.trace.state pause.new) }
    {
        let now = self.edge.now();
        pause.before_turn(self.edge.micros(), now);
        self.executor.clear_book();
        let end = self.executor.finish(now);
        self.edge.note_finish(&self.executor, end);
        pause.after_turn(self.executor.book());
        self.send_notices()
    }

    /// Makes turns that begin nothing as long as anything runs, and sends their notices, and then the last line of the session. If a disk
    /// fault closes the executor, it sends the line of that fault instead. It breaks off where nobody reads the output any more.
    pub fn leave(&mut self) -> Result<(), Failed>
        requires leaves { IsLeaving self.old.trace.state }
        ensures steps { Steps self.old self.new result }
        ensures over { OnOk result (IsOver self.new.trace.state.at) }
    {
        let mut pause = Pause::new(0);
        for _turns in 0..NUM_MAX {
            if !self.executor.runs_any() {
                return self.reply(&LineReply::Left);
            }
            self.finish_turn(&mut pause)?;
            if !self.executor.is_open() {
                return self.send_end(TurnEnd::Disk);
            }
            let micros = pause.between_turns(self.edge.micros(), self.executor.idle());
            self.pause(micros)?;
        }
        Err(Failed)
    }
}
