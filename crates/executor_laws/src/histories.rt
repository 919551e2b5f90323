//! Laws of all lists of events that apply one after the other, each the contract of a function that does nothing: the facts that
//! an administrator relies on in the events that a history of incarnations left.
ghost use Rattle.std.specs.Prelude.{ℕ, List};
ghost use Rattle.ocf_types.specs.Kinds.{Event};
ghost use Rattle.ocf_model.specs.LawfulState.{IsLawfulState};
ghost use Rattle.ocf_model.specs.State.{State};
ghost use Rattle.executor_laws.specs.Histories.{BeginInOrder, EndsBetween, Follow, InterruptedOnce, RunsAscend};

/// No run number is begun twice: each is above all that began before it, also after an opening.
pub fn runs_ascend()
    ensures { (s : State) (es : List Event) → Follow s es → RunsAscend s es }
{}

/// Between two begins of a resource the first one's run ends: by its result, or by a boot, which reports it as interrupted.
pub fn ends_between()
    ensures { (s : State) (es : List Event) → Follow s es → EndsBetween es }
{}

/// A run without an end before a boot is reported as interrupted by that boot, once and with its call, and by no other boot.
pub fn interrupted_once()
    ensures { (s : State) (es : List Event) → IsLawfulState s → Follow s es → InterruptedOnce s es }
{}

/// The actions that a resource begins, monitors aside, are among those that were queued, in the order of their calls and each
/// once.
pub fn begin_in_order()
    ensures { (s : State) (es : List Event) (id : List ℕ) → Follow s es → BeginInOrder s id es }
{}
