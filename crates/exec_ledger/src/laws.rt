//! Lemmas about what a crash leaves, each the contract of a function that does nothing.
ghost use Rattle.ocf_model.specs.State.{State};
ghost use Rattle.store_model.specs.Batches.{HasReserve};
ghost use Rattle.store_model.specs.Calls.{IsSettled};
ghost use Rattle.exec_ledger.specs.Pieces.{CrashCondition, Effects};

use store_model::Store;

/// Whatever a crash during a part of a call leaves opens, with space for its boot, if the store held its state and its reserve before.
pub fn lemma_opens<S: Store>()
    ensures opens { (old new : S) (s t : State) (did : Effects) → CrashCondition S.view old new s t did
        → IsSettled (S.view old) s → HasReserve (S.view old).tail s → (S.view new).honest
        → (S.view new).opens (S.view old).clock × (S.view new).boots (S.view old).clock }
{
    S::lemma_lawful();
}
