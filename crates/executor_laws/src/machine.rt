//! Laws of the machine, which knows no disk and no journal, each the contract of a function that does nothing.
ghost use Rattle.std.specs.Prelude.{List};
ghost use Rattle.ocf_types.specs.Kinds.{Event};
ghost use Rattle.ocf_model.specs.LawfulState.{IsLawfulState};
ghost use Rattle.ocf_model.specs.State.{State};
ghost use Rattle.executor_laws.specs.Histories.{Follow};
ghost use Rattle.executor_laws.specs.Promise.{IsKept};
ghost use Rattle.executor_laws.specs.Behaves.{Behaves, Seen};

/// The events that remain of a behaviour of the machine from a lawful state apply, each in the state that those before it lead to.
pub fn runs_apply()
    ensures { (start : State) (xs : List Seen) (zs : List Event) → IsLawfulState start
        → Behaves start xs zs → Follow start zs }
{}

/// The events that a behaviour of the machine from a lawful state left keep the promise.
pub fn behaviours_keep()
    ensures { (start : State) (xs : List Seen) (zs : List Event) → IsLawfulState start
        → Behaves start xs zs → IsKept start xs zs }
{}
