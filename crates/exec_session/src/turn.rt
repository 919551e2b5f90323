//! Turns of a session.
ghost use Rattle.std.specs.Prelude.{◌≡◌, ◌≢◌, [], ◌∷◌, if◌then◌else◌, false, MatchOption, OnOk, Some, true};
ghost use Rattle.ocf_model.specs.declared.reply.TurnEnd.TheVariants.{Disk};
ghost use Rattle.session_machine.specs.After.{news_of, notices_of, reading};
ghost use Rattle.session_machine.specs.May.{IsDue, IsOwnTurn, IsTurnDue};
ghost use Rattle.session_machine.specs.Session.{ReadsOn, Sending, ended_by};
ghost use Rattle.exec_session.specs.Rounds.{Goes};
ghost use Rattle.exec_session.specs.Standing.{Flows, KnowsTurn, SameRest, Sends, Steps};
ghost use Rattle.exec_session.specs.declared.flow.Flow.TheVariants.{GoesOn};
ghost use Rattle.exec_session.specs.Steps.{HasTurned, MakesOwnTurn, OnlySends};

use crate::flow::Flow;
use crate::room::make_room;
use crate::session::Session;
use exec_client::{Message, TurnNotices};
use ocf_model::TurnEnd;
use session_machine::{Edge, Failed};

// Whether the end of an own turn is news.
fn is_news(before: TurnEnd, end: TurnEnd) -> bool
    ensures news { news_of before end ≡ if result then ended_by end ∷ [] else [] }
{
    end != before && end != TurnEnd::Done && end != TurnEnd::Disk
}

impl<E: Edge + Drop> Session<E> {
    /// Tidies if that is due, then has the executor make a turn at this time, the last clock reading. `None`: the disk failed in the tidy,
    /// and there is no turn.
    pub fn turn(&mut self, now: u64) -> Option<TurnEnd>
        requires open { self.old.trace.state.executor.is_open ≡ true }
        requires shown { self.old.trace.state.shown ≡ Some now }
        requires due { IsTurnDue self.old.trace.state self.old.trace.state.at now }
        ensures rest { SameRest self.old self.new }
        ensures turned { HasTurned self.old.trace self.new.trace result }
        ensures stays_open { MatchOption result (self.new.trace.state.executor.is_open ≡ false)
            (λ end. end ≢ Disk → self.new.trace.state.executor.is_open ≡ true) }
    {
        self.executor.clear_book();
        if !make_room(&self.edge, &mut self.pace, &mut self.executor, now) {
            self.edge.note_fault(&self.executor);
            return None;
        }
        let end = self.executor.turn(now);
        self.edge.note_turn(&self.executor, end);
        Some(end)
    }

    /// Sends the notices of the last turn.
    pub fn send_notices(&mut self) -> Result<(), Failed>
        requires due { IsDue self.old.trace.state self.old.trace.state.at
            (notices_of self.old.trace.state.executor) }
        ensures steps { Steps self.old self.new result }
        ensures sent { OnOk result (Sends self.old.trace self.new.trace
            (notices_of self.old.trace.state.executor)) }
    {
        let notices = TurnNotices::of_executor(&self.executor);
        self.edge.send(&self.executor, &Message::Notices(notices))
    }

    // Sends the notices of a turn that it made by itself, and how it ended if that is news, after one that ended like `before`.
    fn send_turn(&mut self, before: TurnEnd, end: TurnEnd) -> Result<(), Failed>
        requires at { self.old.trace.state.at
            ≡ Sending (notices_of self.old.trace.state.executor ∷ news_of before end) ReadsOn }
        ensures steps { Steps self.old self.new result }
        ensures sends { OnOk result (OnlySends self.old.trace self.new.trace) }
        ensures at { OnOk result (self.new.trace.state.at ≡ reading self.new.trace.state) }
    {
        self.send_notices()?;
        if is_news(before, end) {
            return self.send_end(end);
        }
        Ok(())
    }

    /// Makes a turn by itself, and sends its notices, and how it ended if that is news.
    pub fn own_turn(&mut self) -> Result<Flow, Failed>
        requires goes_on { Flows GoesOn self.old.trace.state }
        requires own { IsOwnTurn self.old.trace.state }
        requires knows { KnowsTurn self.old }
        ensures makes { Goes MakesOwnTurn self.old self.new result }
    {
        let before = self.own_end;
        let now = self.edge.now();
        self.pause.before_turn(self.edge.micros(), now);
        let Some(end) = self.turn(now) else {
            return self.flow(false);
        };
        self.pause.after_turn(self.executor.book());
        self.own_end = end;
        self.send_turn(before, end)?;
        self.flow(false)
    }
}
