//! What the events of a journal's records hold of each resource.
ghost use Rattle.std.specs.Prelude.{◌≡◌, ◌<◌, ◌++◌, ◌∷◌, [], List, length, IfOk, OnOk};
ghost use Rattle.std.specs.List.{flat_map};
ghost use Rattle.ocf_model.specs.Indexes.{entry_at};
ghost use Rattle.ocf_model.specs.Resource.{ended_of};
ghost use Rattle.resource_status.specs.Conditions.{held_in};
ghost use Rattle.resource_status.specs.Facts.{FactOf, IsRecordOf, ended_facts, facts_by, facts_of, fact_of, forgotten, named_facts, none_recorded, recorded_at, taken};

use crate::condition::{Recorded, after, held_in};
use crate::ends::{end_of, ending};
use exec_state::State;
use growth::{Grows, Refused};
use indexmap::IndexMap;
use ocf_model::StateView;
use ocf_types::{Change, Ended, Event, Moment, Outcome, Params, RscId, Running, Step};
use std::alloc::Global;

/// What the records hold of each resource, by its id.
pub type RecordedById = IndexMap<RscId, Recorded>;

/// One fact that records hold of a resource.
#[derive(Clone, Copy)]
pub enum Fact {
    /// This is what is held of it; nothing, where it was registered.
    Held(Recorded),
    /// Its results were forgotten by command.
    Forgotten,
    /// An action of it ended.
    Ended(Ended),
}

// What is held of a resource that is new.
fn none_recorded() -> Recorded
    ensures { result ≡ none_recorded }
{
    Recorded {
        known: None,
        cut: false,
    }
}

// What is held of a resource after its results were forgotten: it may be in any condition, unless it never ran.
fn forgotten(recorded: &Recorded) -> Recorded
    ensures { result ≡ forgotten recorded.now }
{
    Recorded {
        known: None,
        cut: recorded.cut || recorded.known.is_some(),
    }
}

// What is held of a resource after one more fact.
fn taken(recorded: &Recorded, fact: &Fact) -> Recorded
    ensures { result ≡ taken recorded.now fact.now }
{
    match fact {
        Fact::Held(held) => *held,
        Fact::Forgotten => forgotten(recorded),
        Fact::Ended(ended) => Recorded {
            known: after(recorded.known, ended),
            cut: recorded.cut,
        },
    }
}

/// What the records hold of a resource.
pub fn recorded_of(recorded: &RecordedById, id: &RscId) -> Recorded
    ensures { result ≡ recorded_at recorded.now.entries id.now }
{
    match recorded.get(id) {
        Some(recorded) => *recorded,
        None => none_recorded(),
    }
}

// Takes one more fact of a resource.
fn take(recorded: &mut RecordedById, id: &RscId, fact: &Fact) -> Result<(), Refused>
    ensures recorded { (facts : List FactOf) → IsRecordOf recorded.old.entries facts
        → OnOk result (IsRecordOf recorded.new.entries (facts ++ fact_of id.now fact.now ∷ [])) }
{
    let next = taken(&recorded_of(recorded, id), fact);
    Global::reserve_entries(recorded, 1)?;
    let Ok(_) = recorded.insert(id.copied(), next) else {
        unreachable!()
    };
    Ok(())
}

// Takes what a change names: a new resource, or one whose results are forgotten.
fn take_named(recorded: &mut RecordedById, change: &Change<Params>) -> Result<(), Refused>
    ensures recorded { (facts : List FactOf) → IsRecordOf recorded.old.entries facts
        → OnOk result (IsRecordOf recorded.new.entries (facts ++ named_facts change.now)) }
{
    match change {
        Change::Register(registration) => {
            take(recorded, &registration.id, &Fact::Held(none_recorded()))
        }
        Change::Step(id, Step::Forget) => take(recorded, id, &Fact::Forgotten),
        _ => Ok(()),
    }
}

// The result of a run that ended at that moment.
fn ended_of(running: Running, outcome: Outcome, at: Moment) -> Ended
    ensures { result ≡ ended_of outcome at running }
{
    Ended {
        call: running.call,
        run: running.run.get(),
        action: running.task.action(),
        interval: running.interval,
        since: running.since,
        at,
        outcome,
    }
}

// Takes the result of the resource at an index, if the event ends its running action.
fn take_index(
    recorded: &mut RecordedById,
    state: &State,
    event: &Event,
    index: usize,
) -> Result<(), Refused>
    requires { index < length state.now.state.resources }
    ensures recorded { (facts : List FactOf) → IsRecordOf recorded.old.entries facts → OnOk result
        (IsRecordOf recorded.new.entries (facts ++ ended_facts event.now (entry_at state.now.state index))) }
{
    let id = state.id_at(index);
    let Some(outcome) = end_of(&event.change, id) else {
        return Ok(());
    };
    let Some(running) = state.running_at(index) else {
        return Ok(());
    };
    let ended = ended_of(running, outcome, event.at);
    take(recorded, id, &Fact::Ended(ended))
}

// Takes the results of all resources whose running actions the event ends.
fn take_ended(recorded: &mut RecordedById, state: &State, event: &Event) -> Result<(), Refused>
    ensures recorded { (facts : List FactOf) → IsRecordOf recorded.old.entries facts → OnOk result
        (IsRecordOf recorded.new.entries
        (facts ++ flat_map (ended_facts event.now) state.now.state.resources)) }
{
    let (from, to) = ending(state, &event.change);
    for index in from..to {
        take_index(recorded, state, event, index)?;
    }
    Ok(())
}

/// Takes the facts of an event, by the state before it.
pub fn take_event(recorded: &mut RecordedById, state: &State, event: &Event) -> Result<(), Refused>
    ensures recorded { (facts : List FactOf) → IsRecordOf recorded.old.entries facts → OnOk result
        (IsRecordOf recorded.new.entries (facts ++ facts_by state.now.state event.now)) }
{
    take_named(recorded, &event.change)?;
    take_ended(recorded, state, event)
}

/// What the histories of a state hold of each resource.
pub fn recorded_in(alloc: Global, state: &State) -> Result<RecordedById, Refused>
    ensures recorded { IfOk result (λ recorded. IsRecordOf recorded.entries (facts_of state.now.state)) }
{
    let mut recorded = RecordedById::new(alloc);
    for index in 0..state.len() {
        let held = held_in(state, index);
        take(&mut recorded, state.id_at(index), &Fact::Held(held))?;
    }
    Ok(recorded)
}
