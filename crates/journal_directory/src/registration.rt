//! A resource of a journal, whose agent and parameters an action that is run once takes.
ghost use Rattle.std.specs.Prelude.{◌<◌, IfSome, length};

use crate::show::read_whole;
use crate::waits::goes_on_of;
use disk_model::Disk;
use exec_faults::Fault;
use exec_journal::Journal;
use exec_state::State;
use file_disk::RamDisk;
use host_system::System;
use journal_files::{FaultForm, disk_or_fault, has_executor};
use ocf_model::StateView;
use ocf_types::{AgentType, Params, Part, Provider, RscId};

// How often the files are read before a journal is reported as damaged: another program may be writing them.
const LOOKS: usize = 4;

/// A registered resource.
#[derive(Drop)]
pub struct RegisteredResource {
    pub provider: Provider,
    pub agent: AgentType,
    pub params: Params,
    /// Whether an action of it runs, or what an interrupted action left does.
    pub is_busy: bool,
}

// The index of the resource with this id.
fn index_of(state: &State, id: &RscId) -> Option<usize>
    ensures { IfSome result (λ index. index < length state.now.state.resources) }
{
    for index in 0..state.len() {
        if state.id_at(index) == id {
            return Some(index);
        }
    }
    None
}

// The resource at this index.
fn resource_at(
    system: &System<'_>,
    directory: &str,
    state: &State,
    index: usize,
) -> Result<RegisteredResource, Fault>
    requires { index < length state.now.state.resources }
{
    let rt = system.host();
    let runs = state.running_at(index).is_some() && has_executor(rt, directory) != Some(false);
    let Ok(params) = state.params_at(index).copied(rt.alloc()) else {
        return Err(Fault::Memory);
    };
    Ok(RegisteredResource {
        provider: state.provider_at(index).copied(),
        agent: state.agent_at(index).copied(),
        params,
        is_busy: runs || goes_on_of(rt, directory, state.id_at(index)),
    })
}

// The journal's parts as they are now.
fn parts_in(system: &System<'_>, directory: &str) -> Result<RamDisk, Fault> {
    let read = read_whole(system.host(), directory);
    let mut disk = disk_or_fault(system, FaultForm::WithCause, directory, read)?;
    match (disk.len(Part::A), disk.len(Part::B)) {
        (Ok(0), Ok(0)) => Err(Fault::NoJournal),
        _ => Ok(disk),
    }
}

// The resource with this id in the journal as its files are now.
fn registered_now(
    system: &System<'_>,
    directory: &str,
    id: &RscId,
) -> Result<RegisteredResource, Fault> {
    let disk = parts_in(system, directory)?;
    match Journal::open(system.host().alloc(), disk) {
        Ok((_, state)) => match index_of(&state, id) {
            Some(index) => resource_at(system, directory, &state, index),
            None => Err(Fault::NoResource),
        },
        Err((fault, _)) => Err(fault.into()),
    }
}

/// The resource with this id in the journal of this directory, which is only read. A cause that the files have is reported here, all
/// other faults by the caller.
pub fn registered(
    system: &System<'_>,
    directory: &str,
    id: &RscId,
) -> Result<RegisteredResource, Fault> {
    for _ in 1..LOOKS {
        let read = registered_now(system, directory, id);
        if !matches!(read, Err(Fault::Damaged(_))) {
            return read;
        }
    }
    registered_now(system, directory, id)
}
