//! Laws of calls, sessions and histories of incarnations, each the contract of a function that does nothing.
ghost use Rattle.std.specs.Prelude.{◌≡◌, ◌≢◌, ◌≤◌, ◌++◌, ℕ, List, Option, IsTrue, [], Some, false};
ghost use Rattle.std.specs.List.{AllByRecursion};
ghost use Rattle.ocf_types.specs.Kinds.{Command, Event};
ghost use Rattle.ocf_model.specs.Answer.{Reply};
ghost use Rattle.ocf_model.specs.LawfulState.{IsLawfulState};
ghost use Rattle.ocf_model.specs.State.{State, after_all, empty};
ghost use Rattle.ocf_types.specs.declared.notice.Notice.{Notice};
ghost use Rattle.disk_model.specs.Image.{Image};
ghost use Rattle.two_parts.specs.declared.damage.Damage.{Damage};
ghost use Rattle.child_model.specs.Children.{ChildrenView};
ghost use Rattle.child_model.specs.declared.answer.Entry.{Entry};
ghost use Rattle.exec_journal.specs.Found.{FoundAs, IsFirstLayout, IsFreshPair};
ghost use Rattle.exec_journal.specs.Journal.{JournalView};
ghost use Rattle.exec_journal.specs.Opening.{Opens};
ghost use Rattle.exec_journal.specs.Reserve.{PairHasReserve};
ghost use Rattle.exec_journal.specs.StoreViews.{store_view};
ghost use Rattle.store_model.specs.Calls.{OpensStore};
ghost use Rattle.exec_turn.specs.AgentsLive.{AgentsLive};
ghost use Rattle.executor_laws.specs.Joins.{SameIsolated, as_calls};
ghost use Rattle.executor.specs.Exchanges.{Calls, Does, Exchange, Batch};
ghost use Rattle.executor_laws.specs.Incarnations.{GoesOnFrom, InOpening, AreIncarnations, IncarnationsLeave, IncarnationsOpen, SurvivingEvents, OpensAfter, Lasted, Incarnation};
ghost use Rattle.executor_laws.specs.Machine.{LacksMemory};
ghost use Rattle.executor_laws.specs.OnFiles.{BeginsAs, FilesGoOn, FilesLeave};
ghost use Rattle.executor.specs.OnStores.{NotOpenedOn, OpensFrom, OpensOn};
ghost use Rattle.executor.specs.Openings.{NotOpened, Opened, closed_pair};
ghost use Rattle.executor_laws.specs.Promise.{IsKept};
ghost use Rattle.executor.specs.CommandBatches.{TakesCommands};
ghost use Rattle.executor.specs.CommandExchanges.{CallsCommands};
ghost use Rattle.executor_laws.specs.Behaves.{Behaves};
ghost use Rattle.executor_laws.specs.SeenIncarnations.{seen};
ghost use Rattle.executor_laws.specs.Projections.{AreRising, DistinctKeys, IsAnswered, IsFree, IsFreeSession, entries_of_runs, events_of, own_runs, part, projection_of};
ghost use Rattle.exec_ledger.specs.Together.{Answered};
ghost use Rattle.exec_ledger.specs.Pieces.{Effects};
ghost use Rattle.executor.specs.Sessions.{Input, Session};
ghost use Rattle.executor.specs.ExecutorView.{ExecutorView};
ghost use Rattle.executor_laws.specs.Isolated.{Alone, Isolated, cut, isolated_after_all, isolated_of};
ghost use Rattle.executor.specs.declared.opening.OpenError.{OpenError};
ghost use Rattle.executor.specs.declared.opening.OpenError.TheVariants as why;

use disk_model::Disk;
use exec_journal::laws::{lemma_found_once, lemma_journal_holds};
use ocf_model::laws::{layouts, lemma_lawful_states};
use store_model::Store;

/// Each resource's part of any calls is a behaviour of the machine that has this resource alone, whatever the children answered
/// and however the actions of others ran in between. Its part is: the commands and questions that are about it, each turn, the
/// entries of its runs, and its events. Of commands that arrived together it has those that are about it, one by one; tidies
/// are nothing to it. The machine begins with the resource's own history, monitors and due moments; call and run numbers are
/// handed in. The law holds while none of its replies reports a shortage that resources share or a closed executor, each turn
/// ends done, moments do not go back, and the resource is not held in any turn that may begin actions; the replies to others,
/// and whether others are held, do not matter.
pub fn lemma_each_alone<S: Store>()
    ensures alone { (x z : ExecutorView S) (calls : List Exchange) (d : Effects) (id : List ℕ)
        → DistinctKeys x.state → (made : Calls S.view x calls z d)
        → IsFree S.view id x calls z d made → AllByRecursion IsAnswered (part id calls)
        → AreRising x.state.clock calls
        → Alone id (isolated_of x id) (part id calls)
        (entries_of_runs (own_runs id x.state d.events) d.entries)
        (events_of id d.events) }
    // the machine ends where the calls end
    ensures ends { (x z : ExecutorView S) (calls : List Exchange) (d : Effects) (id : List ℕ)
        → Calls S.view x calls z d
        → AllByRecursion IsAnswered (part id calls) → AreRising x.state.clock calls
        → SameIsolated (isolated_after_all (isolated_of x id) (events_of id d.events))
        (isolated_of z id) }
    // the same of a session, whose calls are its inputs with their replies
    ensures session { (x z : ExecutorView S) (inputs : List Input) (replies : List Reply) (d : Effects)
        (id : List ℕ)
        → DistinctKeys x.state → (made : Session S.view x inputs replies z d)
        → IsFreeSession S.view id x inputs replies z d made
        → AllByRecursion IsAnswered (part id (as_calls inputs replies))
        → AreRising x.state.clock (as_calls inputs replies)
        → Alone id (isolated_of x id) (part id (as_calls inputs replies))
        (entries_of_runs (own_runs id x.state d.events) d.entries)
        (events_of id d.events) }
    // and of a batch of commands, even if its record failed
    ensures batch { (now : ℕ) (x : ExecutorView S) (commands : List Command) (replies : List Reply)
        (es : List Event) (id : List ℕ)
        → Answered now x.state commands replies es
        → AllByRecursion IsAnswered (projection_of id (Batch now commands replies))
        → x.state.clock ≤ cut now
        → Alone id (isolated_of x id) (projection_of id (Batch now commands replies)) []
        (events_of id es) }
{}

/// A resource's part of some calls, and its part of others that begin where the first ones end, are one behaviour of the machine
/// that has this resource alone.
pub fn lemma_projections_join()
    ensures { (id : List ℕ) (x y : Isolated) (is js : List Exchange) (es fs : List Entry) (vs us : List Event) → Alone id x is es vs
        → SameIsolated (isolated_after_all x vs) y → Alone id y js fs us
        → Alone id x (is ++ js) (es ++ fs) (vs ++ us) }
{}

/// A session is the calls of its inputs.
pub fn lemma_session_is_calls<S: Store>()
    ensures { (x z : ExecutorView S) (inputs : List Input) (replies : List Reply) (d : Effects)
        → Session S.view x inputs replies z d
        → Calls S.view x (as_calls inputs replies) z d }
{}

/// Commands that were taken together are calls, one after the other: each a command by itself, or a batch.
pub fn lemma_commands_are_calls<S: Store>()
    ensures { (now : ℕ) (commands : List Command) (given : List Reply) (x y : ExecutorView S)
        → TakesCommands S.view now commands x y given
        → CallsCommands S.view now commands x y given }
{}

/// An executor remembers the report of its opening, whatever is called.
pub fn lemma_report_stays<S: Store>()
    ensures { (x y : ExecutorView S) (calls : List Exchange) (d : Effects) → Calls S.view x calls y d
        → y.opening_report ≡ x.opening_report }
{}

/// Lack of memory is reported only where the executor's allocator refuses memory: with an allocator that never refuses, no call
/// reports it.
pub fn lemma_memory_is_there<S: Store>()
    ensures reported { (x y : ExecutorView S) (call : Exchange) (d : Effects) → Does S.view call x y d
        → LacksMemory call → IsTrue x.refuses }
    ensures none { (x y : ExecutorView S) (calls : List Exchange) (d : Effects) → Calls S.view x calls y d
        → x.refuses ≡ false → AllByRecursion (λ call. LacksMemory call → ⊥) calls }
{}

/// In a lawful state whose running actions each have an agent process of their own, as in each state of an open executor, ids
/// differ and runs differ.
pub fn lemma_distinct_keys()
    ensures apart { (s : State) (live : List ℕ) → IsLawfulState s → AgentsLive s live
        → DistinctKeys s }
{}

/// The promise, of an executor over any store. Take any history of incarnations, crashed at any moment, and any state that its last
/// crash may leave. Then there is one list of events with these properties. The state is the one after them. The observations of the
/// history are a behaviour of the machine, which knows no store, and the list is what remains of that behaviour and of the calls. Each
/// acknowledgement has the event of its own command in the list, each notice its result, and each start of an agent its begin.
/// Openings report as interrupted what boots interrupt. The list is in order.
pub fn promise_on<S: Store>()
    ensures { (start : State) (incarnations : List (Incarnation S))
        (is : AreIncarnations S.view (GoesOnFrom S.view start) incarnations) (x : State)
        → IsLawfulState start → IncarnationsLeave S.view start incarnations x
        → (zs : List Event) × (x ≡ after_all start zs)
        × Behaves start (seen S.view (GoesOnFrom S.view start) incarnations is) zs × SurvivingEvents start incarnations zs
        × IsKept start (seen S.view (GoesOnFrom S.view start) incarnations is) zs }
{
    S::lemma_lawful();
}

/// After any history of openings, calls and crashes at any moment, whatever a crash left opens, with space for its boot: `opens`. So
/// an opening after a history gives the state after what remains, with what ran reported as interrupted, and never reports a full
/// store: `opened`, `not_full`.
///
/// An opening of a store, and then that of an executor over it, is the opening of an incarnation: `joined`. A refused one is an
/// incarnation, too: `refused`. Its boot may remain only where the device failed: lack of memory, foreign children and a full store
/// come before the boot.
pub fn lemma_history_on<S: Store>()
    ensures opens { (start : State) (incarnations : List (Incarnation S))
        → AreIncarnations S.view (GoesOnFrom S.view start) incarnations → IncarnationsOpen S.view incarnations }
    ensures opened { (start : State) (incarnations : List (Incarnation S)) (old : S) (from : ChildrenView)
        (now : ℕ) (x : ExecutorView S) (ran queued : List Notice)
        → AreIncarnations S.view (GoesOnFrom S.view start) incarnations → GoesOnFrom S.view start incarnations old
        → OpensOn S.view old from now x ran queued
        → (S.view x.store).honest → OpensAfter start incarnations now x.state ran queued }
    ensures joined { (old mid : S) (s : State) (from : ChildrenView) (now : ℕ) (x : ExecutorView S) (ran queued : List Notice)
        → OpensStore (S.view old) (S.view mid) s → OpensFrom S.view (λ t. t ≡ s) mid from now x ran queued
        → OpensOn S.view old from now x ran queued }
    ensures refused { (old mid new : S) (s : State) (from to : ChildrenView) (now : ℕ) (fault : OpenError)
        → OpensStore (S.view old) (S.view mid) s → NotOpenedOn S.view s mid new from to now fault
        → Lasted S.view (InOpening old new now (Some fault)) }
    ensures not_full { (start : State) (incarnations : List (Incarnation S)) (old mid new : S) (s : State)
        (from to : ChildrenView) (now : ℕ) (fault : OpenError)
        → AreIncarnations S.view (GoesOnFrom S.view start) incarnations → GoesOnFrom S.view start incarnations old
        → OpensStore (S.view old) (S.view mid) s → NotOpenedOn S.view s mid new from to now fault
        → (S.view new).honest → fault ≢ why.Full }
{
    S::lemma_lawful();
}

/// The promise, of an executor over two files. Take any history of incarnations, crashed at any moment, and any pair of files that its
/// last crash may leave. Then there is one list of events with these properties. The pair is found as the state after them. The
/// observations of the history are a behaviour of the machine, which knows no disk, and the list is what remains of that behaviour
/// and of the calls. Each acknowledgement has the event of its own command in the list, each notice its result, and each start of an
/// agent its begin. Openings report as interrupted what boots interrupt. The list is in order.
///
/// It is `promise_on`, since two files are a store: whatever is left of them opens as a state.
pub fn promise<D: Disk>()
    ensures { (start : State) (incarnations : List (Incarnation (JournalView D)))
        (is : AreIncarnations (store_view D.view) (FilesGoOn D.view start) incarnations) (c : Image)
        → FilesLeave D.view start incarnations c
        → (zs : List Event) × FoundAs (after_all start zs) c
        × Behaves start (seen (store_view D.view) (FilesGoOn D.view start) incarnations is) zs
        × SurvivingEvents start incarnations zs
        × IsKept start (seen (store_view D.view) (FilesGoOn D.view start) incarnations is) zs }
{
    lemma_found_once();
    lemma_lawful_states();
    layouts();
}

/// After any history of openings, calls and crashes at any moment, every pair that may be left is found as the state after what
/// remains of each incarnation, one after the other: its boot, and a prefix of its events that has all events that a call had
/// recorded when it returned, and the begin of each start that was requested before the crash. The pair has its reserve.
/// So an opening after a history gives the state after what remains, with what ran reported as interrupted, and never reports
/// damage or a full journal.
///
/// An opening of an executor over two files is the opening of an incarnation: `opening`. A refused opening is an incarnation, too. Its
/// boot may remain only where the device failed: lack of memory, foreign children, a full journal and damage come before the boot.
/// Where only the journal was opened, for reading, that is an incarnation without a boot, however it ended.
///
/// A history begins on any pair that is found as a state and has its reserve: a fresh pair is such a pair, with the
/// empty state, and so is a journal of the first layout, with the state that it leads to.
pub fn lemma_whole_history<D: Disk>()
    ensures fresh { (c : Image) → IsFreshPair c → BeginsAs empty c }
    ensures first { (start : State) (c : Image) → FoundAs start c → IsFirstLayout c
        → BeginsAs start c }
    ensures holds { (start : State) (incarnations : List (Incarnation (JournalView D)))
        → AreIncarnations (store_view D.view) (FilesGoOn D.view start) incarnations
        → (c : Image) → FilesLeave D.view start incarnations c
        → (zs : List Event) × SurvivingEvents start incarnations zs × FoundAs (after_all start zs) c }
    ensures reserved { (start : State) (incarnations : List (Incarnation (JournalView D)))
        → AreIncarnations (store_view D.view) (FilesGoOn D.view start) incarnations
        → (c : Image) → FilesLeave D.view start incarnations c
        → PairHasReserve c }
    ensures opened { (start : State) (incarnations : List (Incarnation (JournalView D))) (old : D) (from : ChildrenView)
        (now : ℕ) (x : ExecutorView (JournalView D)) (ran queued : List Notice)
        → AreIncarnations (store_view D.view) (FilesGoOn D.view start) incarnations
        → FilesGoOn D.view start incarnations (closed_pair old)
        → Opened D.view old from now x ran queued
        → (D.view x.store.disk).honest → OpensAfter start incarnations now x.state ran queued }
    ensures not_refused { (start : State) (incarnations : List (Incarnation (JournalView D))) (old new : D)
        (from to : ChildrenView) (now : ℕ) (fault : OpenError)
        → AreIncarnations (store_view D.view) (FilesGoOn D.view start) incarnations
        → FilesGoOn D.view start incarnations (closed_pair old) → NotOpened D.view old new from to now fault
        → (D.view new).honest
        → (fault ≢ why.Full) × ((d : Damage) → fault ≢ why.Damaged d) }
    ensures opening { (old : D) (from : ChildrenView) (now : ℕ) (x : ExecutorView (JournalView D)) (ran queued : List Notice)
        → Opened D.view old from now x ran queued
        → OpensOn (store_view D.view) (closed_pair old) from now x ran queued }
    ensures refused { (old new : D) (from to : ChildrenView) (now : ℕ) (fault : OpenError)
        → NotOpened D.view old new from to now fault
        → Lasted (store_view D.view) (InOpening (closed_pair old) (closed_pair new) now (Some fault)) }
    ensures looked { (old new : D) (now : ℕ) (end : Option OpenError)
        → Opens (D.view old) (D.view new)
        → Lasted (store_view D.view) (InOpening (closed_pair old) (closed_pair new) now end) }
{
    lemma_found_once();
    lemma_journal_holds();
}
