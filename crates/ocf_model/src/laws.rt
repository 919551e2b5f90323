//! Laws of the definitions, each the contract of a function that does nothing.
ghost use Rattle.std.specs.Prelude.{◌≡◌, ◌≢◌, ◌↔◌, ℕ, ◌≤◌, List, length, Some, Ok, IsTrue, IsSomeAnd, false};
ghost use Rattle.ocf_types.specs.declared.event.Step.TheVariants as step;
ghost use Rattle.ocf_types.specs.declared.event.Change.TheVariants as change;
ghost use Rattle.ocf_types.specs.declared.outcome.RunEnd.{RunEnd};
ghost use Rattle.ocf_types.specs.Limits.{num_max, boot_len, longest_result, longest_begin, longest_small, longest_state};
ghost use Rattle.ocf_types.specs.Kinds.{Event, Command, Step, Change};
ghost use Rattle.ocf_types.specs.Lawful.{HasEncoding, HasEncodingIn, IsId, IsLawfulEvent, IsLawfulCommand};
ghost use Rattle.ocf_types.specs.Encoding.{encoded_event, HasNoParams};
ghost use Rattle.ocf_model.specs.State.{State, empty, resource_at, named, others, after, after_in, after_all, after_all_in, in_first};
ghost use Rattle.ocf_model.specs.State.{IsRegistration};
ghost use Rattle.ocf_model.specs.Applies.{Applies, AppliesIn};
ghost use Rattle.ocf_types.specs.declared.layout.Layout.TheVariants.{First};
ghost use Rattle.std.specs.List.{AllByRecursion};
ghost use Rattle.ocf_model.specs.Boot.{any_busy, boot, boot_at, IsLast};
ghost use Rattle.ocf_model.specs.Answer.{event_of, IsRegister};
ghost use Rattle.ocf_model.specs.LawfulState.{IsLawfulState, IsLawfulStateIn};
ghost use Rattle.ocf_model.specs.StateEncoding.{encoded_state};
ghost use Rattle.ocf_model.specs.Resource.{Resource, ended_of};
ghost use Rattle.ocf_model.specs.Notices.{drop_notice, last_failure, run_notice};
ghost use Rattle.ocf_types.specs.Expected.{is_failure};
ghost use Rattle.ocf_types.specs.declared.operation.Op.{Op};
ghost use Rattle.ocf_types.specs.declared.operation.Running.{Running};
ghost use Rattle.ocf_types.specs.declared.outcome.Outcome.TheVariants.{Interrupted, Run};

/// A second boot changes nothing.
pub fn lemma_boot_is_once()
    ensures { (s : State) (m n : ℕ) → boot (boot s m) n ≡ boot s m }
{}

/// After a boot, the action that ran is the last result of its resource: interrupted at the boot's moment, with its call, its
/// run and the moment at which it began.
pub fn lemma_running_is_interrupted()
    ensures { (s : State) (at : ℕ) (id : List ℕ) (r : Resource) (x : Running)
        → resource_at s id ≡ Some r → r.history.running ≡ Some x
        → IsSomeAnd (resource_at (after s (boot_at at)) id)
        (λ q. IsLast (ended_of Interrupted at x) q.history.ended) }
{}

/// After a failed notice the state keeps its result as the last failure of its resource; any other notice leaves the last
/// failure as it was. A boot reports no failure, and leaves the last failure as it was.
pub fn lemma_failures_are_kept()
    ensures result { (s : State) (at : ℕ) (id : List ℕ) (end : RunEnd) (r : Resource) (x : Running)
        → resource_at s id ≡ Some r → r.history.running ≡ Some x
        → IsSomeAnd
        (resource_at (after s (record { at = at; change = change.Step id (step.Result x.run end) })) id)
        (λ q. q.history.failed ≡ last_failure (run_notice id (Run end) at x) r.history.failed) }
    ensures boot { (s : State) (at : ℕ) (id : List ℕ) (r : Resource) → resource_at s id ≡ Some r
        → IsSomeAnd (resource_at (after s (boot_at at)) id)
        (λ q. q.history.failed ≡ r.history.failed) }
    ensures interrupted { (at : ℕ) (id : List ℕ) (x : Running)
        → is_failure (run_notice id Interrupted at x) ≡ false }
    ensures dropped { (at : ℕ) (id : List ℕ) (o : Op) → is_failure (drop_notice id at o) ≡ false }
{}

/// The empty state is lawful, and an event that applies in a lawful state leads to a lawful one. So every state that events
/// lead to keeps the limits and conditions of an encoded state.
pub fn lemma_lawful_states()
    ensures empty { IsLawfulState empty }
    ensures after { (s : State) (e : Event) → IsLawfulState s → Applies s e
        → IsLawfulState (after s e) }
{}

/// An event that names one resource changes no other one, and keeps the order of the others.
pub fn lemma_others_stay()
    ensures resource { (s : State) (e : Event) (id other : List ℕ) → named e.change ≡ Some id
        → id ≢ other
        → resource_at (after s e) other ≡ resource_at s other }
    ensures order { (s : State) (e : Event) (id : List ℕ) → named e.change ≡ Some id
        → others id (after s e).resources ≡ others id s.resources }
{}

/// In a lawful state the event of a lawful command applies, and so does a boot that is needed. Only a command to register
/// leads to a registration.
pub fn lemma_events_apply()
    ensures command { (s : State) (now : ℕ) (c : Command) (e : Event) → IsLawfulState s
        → IsLawfulCommand c
        → event_of s now c ≡ Ok e → Applies s e }
    ensures boot { (s : State) (at : ℕ) → s.clock ≤ at → at ≤ num_max → IsTrue (any_busy s)
        → Applies s (boot_at at) }
    ensures registers { (s : State) (now : ℕ) (c : Command) (e : Event) → event_of s now c ≡ Ok e
        → IsRegistration e.change → IsRegister c }
{}

/// The greatest lengths of encodings, in bytes. So a begin and the results of all running actions fit the reserve, and a
/// snapshot of any lawful state fits a part.
pub fn lemma_lengths()
    ensures result { (at run : ℕ) (id : List ℕ) (end : RunEnd) → IsId id
        → length (encoded_event (record { at = at; change = change.Step id (step.Result run end) }))
        ≤ longest_result }
    ensures begin { (at call run : ℕ) (id : List ℕ) → IsId id
        → length (encoded_event (record { at = at; change = change.Step id (step.Begin call run) }))
        ≤ longest_begin }
    ensures boot { (at : ℕ) → length (encoded_event (boot_at at)) ≡ boot_len }
    ensures small { (at : ℕ) (c : Change) → IsLawfulEvent (record { at = at; change = c })
        → HasNoParams c
        → length (encoded_event (record { at = at; change = c })) ≤ longest_small }
    ensures state { (s : State) → IsLawfulState s → length (encoded_state s) ≤ longest_state }
{}

/// The second layout encodes everything that the first one does, with the same meaning. A state that is lawful in the first
/// layout is lawful. An event that the first layout encodes does the same in both, apart from what the first does not record,
/// and keeps a state lawful in the first layout.
pub fn layouts()
    ensures lawful { (s : State) → IsLawfulStateIn First s → IsLawfulState s }
    ensures whole { (s : State) → IsLawfulStateIn First s → in_first s ≡ s }
    ensures encoded { (e : Event) → HasEncodingIn First e → HasEncoding e }
    ensures applies { (s : State) (e : Event) → HasEncodingIn First e → Applies s e
        ↔ AppliesIn First (in_first s) e }
    ensures after { (s : State) (e : Event) → HasEncodingIn First e
        → in_first (after s e) ≡ after_in First (in_first s) e }
    ensures after_all { (s : State) (es : List Event) → AllByRecursion (HasEncodingIn First) es
        → in_first (after_all s es) ≡ after_all_in First (in_first s) es }
    ensures stays { (s : State) (e : Event) → IsLawfulStateIn First s → AppliesIn First s e
        → IsLawfulStateIn First (after_in First s e) }
{}
