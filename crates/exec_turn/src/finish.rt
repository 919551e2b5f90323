//! A turn that begins nothing.
ghost use Rattle.std.specs.Prelude.{◌≡◌, ◌≢◌, ◌↔◌, ◌<◌, ◌*◌, true, false, length};
ghost use Rattle.ocf_model.specs.Answer.{moment};
ghost use Rattle.exec_ledger.specs.LedgerView.{due_in};
ghost use Rattle.exec_ledger.specs.BatchStarts.{batch_start_of};
ghost use Rattle.exec_turn.specs.Actives.{any_running};
ghost use Rattle.exec_turn.specs.Turns.{ChildrenMatch, Finishes, turn_notices};

use crate::buffers::TurnBuffers;
use crate::turn::record_polls;
use child_model::Children;
use exec_ledger::{Ledger, StoreFault};
use exec_state::State;
use growth::Grows;
use ocf_model::{StateView, TurnEnd};
use store_model::Store;

/// Whether an action of any resource runs.
pub fn runs_any<A: Grows>(state: &State<A>) -> bool
    ensures value { result ≡ any_running state.now.state }
{
    for index in 0..state.len() {
        if state.running_at(index).is_some() {
            return true;
        }
    }
    false
}

/// A turn over an open ledger at a moment in milliseconds since 1970 that begins nothing: every running action is polled, in
/// order of registration, and killed where it runs past its timeout. Queued actions stay queued, and due monitors stay due.
///
/// All agents that were given up are ended, each with its processes, before a result is recorded, and a result is recorded before it
/// is reported. The turn ends with `BookFull`, having done nothing, where the children's book
/// has no capacity for two entries per resource; with `Disk` if a device of the store failed, which closes the ledger; else with
/// `Done`. It allocates nothing itself; the children may, in `end_killed`.
pub fn finish_turn<T: Store + Drop, C: Children, A: Grows>(
    ledger: &mut Ledger<T, A>,
    children: &mut C,
    buffers: &mut TurnBuffers<A>,
    now: u64,
) -> TurnEnd
    requires open { ledger.old.is_open ≡ true }
    requires matched { ChildrenMatch ledger.old.state (C.view children.old) }
    ensures finishes { Finishes T.view ledger.old.store ledger.new.store
        (batch_start_of T.view ledger.old (moment ledger.old.state now)) ledger.new.state
        (due_in ledger.new)
        (C.view children.old) (C.view children.new) (turn_notices buffers.new) result }
    ensures full { result ≡ TurnEnd.BookFull
        ↔ (C.view children.old).room < 2 * length ledger.old.state.resources }
    ensures unchanged { result ≡ TurnEnd.BookFull
        → (ledger.new ≡ ledger.old) × (children.new ≡ children.old) }
    ensures closes { ledger.new.is_open ≡ false ↔ (result ≡ TurnEnd.Disk) }
    ensures matched { result ≢ TurnEnd.Disk → ChildrenMatch ledger.new.state (C.view children.new) }
{
    T::lemma_lawful();
    ledger.lemma_known();
    let state = ledger.state();
    if children.room() / 2 < state.len() {
        buffers.notices.clear();
        return TurnEnd::BookFull;
    }
    let at = state.moment(now);
    match record_polls(ledger, children, buffers, at) {
        Ok(()) => TurnEnd::Done,
        Err(StoreFault) => TurnEnd::Disk,
    }
}
