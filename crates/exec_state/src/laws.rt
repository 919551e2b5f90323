//! Laws of the definitions, each the contract of a function that does nothing.
ghost use Rattle.std.specs.Prelude.{◌≡◌, ℕ, List};
ghost use Rattle.ocf_types.specs.Kinds.{Event};
ghost use Rattle.ocf_model.specs.Applies.{Applies};
ghost use Rattle.ocf_model.specs.Due.{due_after, due_at};
ghost use Rattle.ocf_model.specs.State.{State};
ghost use Rattle.exec_state.specs.StateValue.{StateValue, due_of, monitors_due_at};
ghost use Rattle.exec_state.specs.MonitorsAfter.{monitors_after};
ghost use Rattle.exec_state.specs.Lawful.{IsLawfulValue};

/// The due moments are a finite map from resource id and call. Each event changes it as the definition says, and an opening
/// makes all monitors due at one moment.
pub fn lemma_due_moments()
    ensures after { (s : StateValue) (e : Event) (id : List ℕ) (call : ℕ) → IsLawfulValue s
        → Applies s.state e
        → due_of (monitors_after s.state e s.monitors) id call
        ≡ due_after s.state (due_of s.monitors) e id call }
    ensures restart { (s : State) (at : ℕ) (id : List ℕ) (call : ℕ)
        → due_of (monitors_due_at at s) id call ≡ due_at s at id call }
{}
