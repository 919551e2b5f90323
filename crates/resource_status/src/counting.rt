//! The counts of all resources.
ghost use Rattle.std.specs.Prelude.{◌≡◌, ◌<◌, ◌++◌, ◌∷◌, [], List, length, OnOk};
ghost use Rattle.std.specs.List.{flat_map};
ghost use Rattle.ocf_model.specs.Indexes.{entry_at};
ghost use Rattle.resource_status.specs.Counts.{Tallies, count_at};
ghost use Rattle.resource_status.specs.Runs.{Ran, ended_by, left_by, ran_after, ran_as, without};

use crate::count::RunCount;
use crate::ends::{end_of, ending};
use exec_state::State;
use growth::{Grows, Refused};
use indexmap::IndexMap;
use ocf_codes::failed;
use ocf_model::StateView;
use ocf_types::{Change, Event, Params, RscId};
use std::alloc::Global;

/// The counts by id of the resources that have had a run end.
pub type RunCounts = IndexMap<RscId, RunCount>;

/// The counts of a resource.
pub fn count_of(counts: &RunCounts, id: &RscId) -> RunCount
    ensures { result ≡ count_at counts.now.entries id.now }
{
    match counts.get(id) {
        Some(count) => *count,
        None => RunCount::none(),
    }
}

// Counts one more run of a resource.
fn add(counts: &mut RunCounts, id: &RscId, failed: bool) -> Result<(), Refused>
    ensures counted { (runs : List Ran) → Tallies counts.old.entries runs
        → OnOk result (Tallies counts.new.entries (runs ++ ran_as id.now failed ∷ [])) }
{
    let count = count_of(counts, id).one_more(failed);
    Global::reserve_entries(counts, 1)?;
    let Ok(_) = counts.insert(id.copied(), count) else {
        unreachable!()
    };
    Ok(())
}

// Forgets the runs of a resource.
fn forget(counts: &mut RunCounts, id: &RscId)
    ensures { (runs : List Ran) → Tallies counts.old.entries runs
        → Tallies counts.new.entries (without id.now runs) }
{
    counts.swap_remove(id);
}

// Forgets the runs that a change removes: those of the resource that it unregisters.
fn forget_by(counts: &mut RunCounts, change: &Change<Params>)
    ensures { (runs : List Ran) → Tallies counts.old.entries runs
        → Tallies counts.new.entries (left_by change.now runs) }
{
    if let Change::Unregister(id) = change {
        forget(counts, id);
    }
}

// Counts the run of the resource at an index, if the change ends one.
fn count_index(
    counts: &mut RunCounts,
    state: &State,
    change: &Change<Params>,
    index: usize,
) -> Result<(), Refused>
    requires { index < length state.now.state.resources }
    ensures counted { (runs : List Ran) → Tallies counts.old.entries runs → OnOk result
        (Tallies counts.new.entries
        (runs ++ ended_by change.now (entry_at state.now.state index))) }
{
    let id = state.id_at(index);
    let Some(outcome) = end_of(change, id) else {
        return Ok(());
    };
    let Some(running) = state.running_at(index) else {
        return Ok(());
    };
    let task = running.task;
    add(
        counts,
        id,
        failed(task.action(), task.check().expect, outcome),
    )
}

// Counts the runs of all resources that a change ends.
fn count_ended(
    counts: &mut RunCounts,
    state: &State,
    change: &Change<Params>,
) -> Result<(), Refused>
    ensures counted { (runs : List Ran) → Tallies counts.old.entries runs → OnOk result
        (Tallies counts.new.entries
        (runs ++ flat_map (ended_by change.now) state.now.state.resources)) }
{
    let (from, to) = ending(state, change);
    for index in from..to {
        count_index(counts, state, change, index)?;
    }
    Ok(())
}

/// Counts the runs that an event ends, by the state before it, and forgets those of a resource that it unregisters.
pub fn count_event(counts: &mut RunCounts, state: &State, event: &Event) -> Result<(), Refused>
    ensures counted { (runs : List Ran) → Tallies counts.old.entries runs → OnOk result
        (Tallies counts.new.entries (ran_after state.now.state runs event.now)) }
{
    forget_by(counts, &event.change);
    count_ended(counts, state, &event.change)
}
