//! Turns, and the agent processes.
ghost use Rattle.std.specs.Prelude.{◌≡◌};
ghost use Rattle.exec_turn.specs.Actives.{any_running};
ghost use Rattle.executor.specs.TurnCalls.{Abandons, FinishesWhile, TurnsWhile, with_empty_book};

use crate::On;
use child_model::{Children, Entry};
use exec_turn::{finish_turn, runs_any, take_turn};
use growth::Grows;
use ocf_model::TurnEnd;
use ocf_types::Notice;
use store_model::Store;

impl<S: Store + Drop, C: Children + Drop, A: Grows> On<S, C, A> {
    /// A turn at a moment in milliseconds since 1970: polls running actions, records their results, and begins and spawns the
    /// actions that have to begin. It begins nothing for a resource that the children hold.
    ///
    /// A result is recorded before it is reported, and a begin before its action is spawned. A disk fault closes the executor. A
    /// closed one does nothing.
    pub fn turn(&mut self, now: u64) -> TurnEnd
        ensures turns { TurnsWhile self.old.is_open S.view now self.old self.new result }
    {
        if !self.ledger.is_open() {
            return TurnEnd::Closed;
        }
        self.ledger.lemma_known();
        let end = take_turn(
            &self.site,
            &mut self.ledger,
            &mut self.children,
            &mut self.buffers,
            now,
        );
        self.ledger.lemma_known();
        end
    }

    /// A turn that begins nothing, at a moment in milliseconds since 1970: polls running actions, kills those past their timeout,
    /// and records their results. Queued actions stay queued, and due monitors stay due.
    ///
    /// A result is recorded before it is reported. A disk fault closes the executor. A closed one does nothing.
    pub fn finish(&mut self, now: u64) -> TurnEnd
        ensures finishes { FinishesWhile self.old.is_open S.view now self.old self.new result }
    {
        if !self.ledger.is_open() {
            return TurnEnd::Closed;
        }
        self.ledger.lemma_known();
        let end = finish_turn(&mut self.ledger, &mut self.children, &mut self.buffers, now);
        self.ledger.lemma_known();
        end
    }

    /// Whether an action of any resource runs.
    pub fn runs_any(&self) -> bool
        ensures value { result ≡ any_running self.now.state }
    {
        runs_any(self.ledger.state())
    }

    /// The results that the last turn recorded, in their order.
    pub fn notices(&self) -> &[Notice]
        ensures value { result.now ≡ self.now.reported }
    {
        self.buffers.notices()
    }

    /// The children's book: all their answers since it was last emptied.
    pub fn book(&self) -> &[Entry]
        ensures value { result.now ≡ self.now.children.book }
    {
        self.children.book()
    }

    /// Empties the children's book.
    pub fn clear_book(&mut self)
        ensures cleared { self.new ≡ with_empty_book self.old }
    {
        self.children.clear_book();
    }

    /// Gives up every agent process and asks for its end, and closes the executor: the running actions are reported as interrupted when
    /// the journal is opened again. Processes may live on.
    pub fn abandon(&mut self)
        ensures abandoned { Abandons self.old self.new }
    {
        self.children.give_up_all();
        self.ledger.close();
    }
}
