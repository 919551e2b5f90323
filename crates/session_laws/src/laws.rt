//! Laws of sessions, each the contract of a function that does nothing.
//!
//! The first is that of what clients were sent. The others, by numbers, hold of each behaviour of the machine of a session
//! (`session_machine`), and so of all that a session does through an edge.
ghost use Rattle.std.specs.Prelude.{◌≡◌, ◌≢◌, ◌<◌, List, false};
ghost use Rattle.std.specs.List.{AllByRecursion};
ghost use Rattle.ocf_model.specs.LawfulState.{IsLawfulState};
ghost use Rattle.ocf_types.specs.Kinds.{Event as Recorded};
ghost use Rattle.ocf_model.specs.State.{State, after_all};
ghost use Rattle.child_model.specs.Children.{ChildrenView};
ghost use Rattle.executor.specs.ExecutorView.{ExecutorView};
ghost use Rattle.executor.specs.OnStores.{IsOver};
ghost use Rattle.executor_laws.specs.Incarnations.{AreIncarnations, GoesOnFrom, IncarnationsLeave, SurvivingEvents, Incarnation};
ghost use Rattle.executor_laws.specs.Promise.{IsKept};
ghost use Rattle.executor_laws.specs.Behaves.{Behaves as Seen};
ghost use Rattle.executor_laws.specs.SeenIncarnations.{seen};
ghost use Rattle.exec_client.specs.BackedBy.{BackedBy};
ghost use Rattle.exec_client.specs.SentItem.{SentItem};
ghost use Rattle.session_machine.specs.Behaviours.{Behaves, May};
ghost use Rattle.session_machine.specs.Events.{Event};
ghost use Rattle.session_machine.specs.First.{IsFirst};
ghost use Rattle.session_machine.specs.Session.{SessionState};
ghost use Rattle.session_laws.specs.SentOver.{SentOver};
ghost use Rattle.session_laws.specs.Numbers.{HasBook, is_book_full, is_journal_full, last_epoch};

use executor_laws::laws::promise_on;
use store_model::Store;

/// The promise, with what clients were sent. Each list of events that remains of a history of incarnations has for each acknowledgement
/// and each notice that a client was sent in any incarnation an event of its own, in the order in which they were sent: `backed`. So the
/// list for which all of `executor_laws::laws::promise` holds, over a pair of files, has them; and so has that of
/// `executor_laws::laws::promise_on`, over any store: `holds`.
pub fn lemma_sent_holds<S: Store>()
    ensures backed { (start : State) (incarnations : List (Incarnation S)) (reported : List SentItem) (zs : List Recorded)
        → SentOver incarnations reported → SurvivingEvents start incarnations zs → BackedBy reported zs }
    ensures holds { (start : State) (incarnations : List (Incarnation S))
        (is : AreIncarnations S.view (GoesOnFrom S.view start) incarnations) (reported : List SentItem)
        → SentOver incarnations reported
        → (x : State) → IsLawfulState start → IncarnationsLeave S.view start incarnations x
        → (zs : List Recorded) × (x ≡ after_all start zs)
        × Seen start (seen S.view (GoesOnFrom S.view start) incarnations is) zs × SurvivingEvents start incarnations zs
        × IsKept start (seen S.view (GoesOnFrom S.view start) incarnations is) zs × BackedBy reported zs }
{
    promise_on::<S>();
}

/// No turn of a session ends because its book of agents' answers has no room, if its executor was opened with a lawful state, and with
/// room in the book for three answers for each resource that there may be. An executor has that room where the agents had it that its
/// opening was handed.
pub fn lemma_book_never_full<S: Store>()
    ensures never { (first s : SessionState S) (events : List (Event S))
        → IsFirst first → IsLawfulState first.executor.state → HasBook first.executor.children
        → Behaves S.view first events s
        → AllByRecursion (λ e. is_book_full e ≡ false) events }
    ensures opened { (from : ChildrenView) (x : ExecutorView S)
        → HasBook from → IsOver from x → HasBook x.children }
{}

/// With a tidy mark above 0 no command is refused because the journal has no space, and no turn ends for that, as long as the journal's epoch
/// is not the greatest, so that no tidy ends as `epoch-spent`. Before each request, group commit and turn the tail is at most at the second
/// mark, and from there the longest request, 64 of them, or a turn of as many resources as there may be leave the reserve free.
pub fn lemma_journal_never_full<S: Store>()
    ensures { (first s : SessionState S) (events : List (Event S)) (e : Event S)
        → IsFirst first → IsLawfulState first.executor.state → 0 < first.rules.tidy_at
        → Behaves S.view first events s → May S.view s e
        → (S.view s.executor.store).epoch ≢ last_epoch
        → is_journal_full e ≡ false }
{}
