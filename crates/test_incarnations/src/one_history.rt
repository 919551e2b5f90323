//! The history of the example in docs/STATEMENT.md, which computes.
ghost use Rattle.std.specs.Prelude.{◌≡◌, [], ◌∷◌, List};
ghost use Rattle.ocf_types.specs.Kinds.{Event};
ghost use Rattle.ocf_model.specs.State.{empty};
ghost use Rattle.executor_laws.specs.Behaves.{Behaves};
ghost use Rattle.executor_laws.specs.Promise.{IsKept};
ghost use Rattle.test_incarnations.specs.OneHistory.{begins, boots, in_opening, one_history, queues, registers, remaining, unstarted};

/// What is observed of this history is a behaviour of the machine, of which these four events remain and no others, and they keep the
/// promise. Had the crashes come earlier, the begin or the boot might have been lost.
pub fn lemma_one_history()
    ensures behaves { Behaves empty one_history remaining }
    ensures only { (zs : List Event) → Behaves empty one_history zs → zs ≡ remaining }
    ensures kept { IsKept empty one_history remaining }
    ensures begin_kept { Behaves empty unstarted (registers ∷ queues ∷ begins ∷ []) }
    ensures begin_lost { Behaves empty unstarted (registers ∷ queues ∷ []) }
    ensures boot_kept { Behaves empty in_opening (registers ∷ queues ∷ begins ∷ boots ∷ []) }
    ensures boot_lost { Behaves empty in_opening (registers ∷ queues ∷ begins ∷ []) }
{}
