//! The law of one run of an executor: whatever was before it, and at whatever moment it is stopped. Each is the contract of a function that
//! does nothing.
ghost use Rattle.std.specs.Prelude.{◌≡◌, ◌≤◌, ◌++◌, ℕ, List};
ghost use Rattle.ocf_types.specs.declared.notice.Notice.{Notice};
ghost use Rattle.child_model.specs.Children.{ChildrenView};
ghost use Rattle.exec_journal.specs.Journal.{JournalView};
ghost use Rattle.exec_journal.specs.StoreViews.{store_view};
ghost use Rattle.exec_ledger.specs.Pieces.{Effects};
ghost use Rattle.executor.specs.ExecutorView.{ExecutorView};
ghost use Rattle.executor.specs.Openings.{NotOpened, Opened, closed_pair};
ghost use Rattle.executor.specs.declared.opening.OpenError.{OpenError};
ghost use Rattle.executor.specs.Exchanges.{Calls, Exchange};
ghost use Rattle.executor_laws.specs.Incarnations.{Lasted};
ghost use Rattle.executor_laws.specs.KeepsPromise.{KeepsPromise, RefusalKeepsPromise};
ghost use Rattle.executor_laws.specs.Runs.{IsRun, Returned, Run, in_opening};

use crate::laws::promise;
use disk_model::Disk;
use store_model::Store;

/// A run of an executor over any store is an incarnation, at whatever moment it is stopped: in its opening (`opening`), or when any
/// of its calls, the first ones, had returned (`returned`; `stopped` of `specs/Runs.antt`).
pub fn lemma_runs_are_incarnations<S: Store>()
    ensures opening { (r : Run S) → IsRun S.view r → Lasted S.view (in_opening r) }
    ensures returned { (r : Run S) (first later : List Exchange) → IsRun S.view r
        → first ++ later ≡ r.calls → Returned S.view r first later }
{}

/// A run over a pair of files keeps the promise: after any history that may have left the pair, and at whatever moment it is stopped.
pub fn lemma_run_keeps_promise<D: Disk>()
    ensures { (disk : D) (from : ChildrenView) (now : ℕ) (ran queued : List Notice) (x y : ExecutorView (JournalView D))
        (calls : List Exchange) (effects : Effects)
        → Opened D.view disk from now x ran queued → Calls (store_view D.view) x calls y effects
        → KeepsPromise D.view (record { store = closed_pair disk; now = now; opened = x; calls = calls; last = y; effects = effects }) }
{
    promise::<D>();
}

/// So does an opening that is refused.
pub fn lemma_refusal_keeps_promise<D: Disk>()
    ensures { (disk last : D) (from to : ChildrenView) (now : ℕ) (why : OpenError)
        → NotOpened D.view disk last from to now why
        → RefusalKeepsPromise D.view disk last now why }
{
    promise::<D>();
}
