//! The resources that have a failed action.
ghost use Rattle.std.specs.Prelude.{◌≡◌, ◌<◌, ◌++◌, length, IfErr, IfOk, OnOk};
ghost use Rattle.exec_journal.specs.Opening.{Opens};
ghost use Rattle.ocf_model.specs.Indexes.{entry_at};
ghost use Rattle.exec_faults.specs.Faults.{HasCause};
ghost use Rattle.status_report.specs.Failed.{AreFailed, failed_id, failed_ids};

use disk_model::Disk;
use exec_faults::Fault;
use exec_journal::Journal;
use exec_state::State;
use growth::{Grows, Refused, push};
use ocf_model::StateView;
use ocf_types::RscId;
use status_table::StatusOptions;
use std::alloc::Global;

// Adds the id of a resource if it is asked for and has a failed action.
fn add_failed_id(
    ids: &mut Vec<RscId>,
    options: &StatusOptions,
    state: &State,
    index: usize,
) -> Result<(), Refused>
    requires { index < length state.now.state.resources }
    ensures ids { OnOk result (ids.new.items
        ≡ ids.old.items ++ failed_id options.now (entry_at state.now.state index)) }
{
    let id = state.id_at(index);
    if options.asks_for(id) && state.failed_at(index).is_some() {
        push(ids, id.copied())
    } else {
        Ok(())
    }
}

// The ids of these resources, in order of registration.
#[tactic(auto, using(crate::proofs::FailedLemmas::id_more))]
fn failed_ids(alloc: Global, options: &StatusOptions, state: &State) -> Result<Vec<RscId>, Refused>
    ensures ids { IfOk result (λ ids. ids.items ≡ failed_ids options.now state.now.state) }
{
    let mut ids = Vec::new(alloc);
    for index in 0..state.len() {
        add_failed_id(&mut ids, options, state, index)?;
    }
    Ok(ids)
}

/// Opens a journal without a boot, and returns its disk and the ids of the resources that are asked for and have a failed action, in order
/// of registration.
#[tactic(auto, using(exec_faults::proofs::FaultLemmas::opening_cause))]
pub fn failed<D: Disk + Drop>(
    alloc: Global,
    disk: D,
    options: &StatusOptions,
) -> (D, Result<Vec<RscId>, Fault>)
    ensures ids { (D.view result.0).honest
        → IfOk result.1 (λ ids. AreFailed (D.view disk).reads options.now ids.items) }
    ensures opens { Opens (D.view disk) (D.view result.0) }
    ensures memory { IfErr result.1 (HasCause ⟦<Global as Grows>⟧.refuses) }
{
    match Journal::open(alloc, disk) {
        Ok((journal, state)) => match failed_ids(alloc, options, &state) {
            Ok(ids) => (journal.into_disk(), Ok(ids)),
            Err(_) => (journal.into_disk(), Err(Fault::ReplyMemory)),
        },
        Err((fault, disk)) => (disk, Err(Fault::from(fault))),
    }
}
