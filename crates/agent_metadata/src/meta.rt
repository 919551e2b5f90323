//! The metadata of agents.
ghost use Rattle.std.specs.Prelude.{◌≡◌, ◌≢◌, ◌≤◌, [], IfErr, IfOk, IsTrue, vec_len};
ghost use Rattle.agent_metadata.specs.Asking.{IsIdle};
ghost use Rattle.agent_metadata.specs.MetaCalls.{IsMetaCall};
ghost use Rattle.agent_metadata.specs.MetaRuns.{RunsBy};
ghost use Rattle.agent_system.specs.Commands.{leader_of};
ghost use Rattle.ocf_types.specs.Limits.{metadata_limit};
ghost use Rattle.ocf_types.specs.declared.outcome.MetaFault.TheVariants.{Failed};

use crate::meta_child::{MetaCall, MetaChild, MetaPoll};
use agent_system::AgentSystem;
use growth::Grows;
use ocf_types::MetaFault;
use pauses::Pauses;
use std::alloc::Allocator;
use std::io::Eprint;
use std::rt::Clock;

/// The metadata of an agent as it writes them, at most [`METADATA_LIMIT`] bytes. OCF Resource Agent API 1.1, meta-data.
///
/// The agent gets no variable of a resource; its standard output is read, and its standard error is discarded. The call returns
/// when the agent has ended and no other process holds its output, or after `limit` milliseconds where there is a limit. Errors
/// come in this order: those of [`MetaChild::start`]; those of [`MetaChild::poll`].
pub fn run_meta<R: AgentSystem + Clock + Eprint, A: Grows, S: Allocator>(
    rt: &mut R,
    alloc: A,
    call: &MetaCall<'_, S>,
    limit: Option<u32>,
) -> Result<Vec<u8, A>, MetaFault>
    requires idle { IsIdle (R.view rt.old).sights }
    ensures length { IfOk result (λ metadata. vec_len metadata ≤ metadata_limit) }
    ensures failed { IfErr result (λ fault. fault ≢ Failed 0) }
    ensures asked { RunsBy (leader_of call.now.leading.now) (IsMetaCall call.now.site.now
        call.now.provider.now call.now.agent.now) (R.view rt.old) (R.view rt.new) result }
    ensures live { (R.view rt.new).sights.live ≡ [] }
    ensures memory { IfErr result (λ fault. fault ≡ MetaFault.Memory → IsTrue A.refuses) }
{
    let mut child = MetaChild::start(rt, alloc, call, limit)?;
    let mut pauses = Pauses::within(limit.unwrap_or(u32::MAX));
    for _ in 0..u64::MAX {
        match child.poll(rt, alloc) {
            MetaPoll::Waits(still) => child = still,
            MetaPoll::Answered(answer) => return answer,
        }
        child.wait(rt, &mut pauses);
    }
    child.give_up(rt, alloc);
    Err(MetaFault::Read)
}
