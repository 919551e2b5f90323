//! A resource that is held until the processes of an earlier action have ended.
ghost use Rattle.std.specs.Prelude.{◌≡◌, IsTrue, nat_le};
ghost use Rattle.agent_system.specs.SystemView.{process_in};
ghost use Rattle.child_keeper.specs.Waits.{IsWaitFor, IsWaitIn};

use crate::agents::Agent;
use agent_system::AgentProcess;
use agents_file::Kept;
use ocf_types::Action;
use process_ends::GivenUpAction;
use std::alloc::Allocator;

/// What is kept of an action that was given up, beside its processes: until they have ended its resource begins no other.
#[derive(Drop)]
pub struct WaitOf {
    pub action: Action,
    /// The slot of the action's entry in the record of who runs, if it has one.
    pub slot: Option<usize>,
    /// When the processes are killed, in milliseconds of the monotonic clock.
    pub until: u64,
    /// Whether they were killed once.
    pub is_killed: bool,
    /// Whether the wait was reported.
    pub is_reported: bool,
}

/// A wait for the end of the processes of an action, during which the resource begins no other.
pub type Wait<C, A> = GivenUpAction<WaitOf, C, A>;

/// The wait for an agent that was given up. It is killed at once.
pub fn wait_for<C: Drop, A: Allocator>(alloc: A, agent: Agent<C>) -> Wait<C, A>
    ensures { IsWaitFor agent result }
{
    let Agent {
        process,
        action,
        spawned_at: _,
        child,
        slot,
        uncopied: _,
    } = agent;
    GivenUpAction {
        what: WaitOf {
            action,
            slot,
            until: 0,
            is_killed: false,
            is_reported: false,
        },
        process,
        child: Some(child),
        known: Vec::new(alloc),
        is_due: false,
    }
}

/// The wait for an agent that an earlier executor spawned: it is killed at this reading of the monotonic clock.
pub fn wait_in<C: Drop, A: Allocator>(alloc: A, kept: &Kept, until: u64) -> Wait<C, A>
    ensures { IsWaitIn kept.now.entry result }
{
    let entry = &kept.entry;
    GivenUpAction {
        what: WaitOf {
            action: entry.action,
            slot: Some(kept.slot),
            until,
            is_killed: false,
            is_reported: true,
        },
        process: AgentProcess {
            run: entry.run,
            id: entry.id.copied(),
            pid: entry.pid,
            start: Some(entry.start),
        },
        child: None,
        known: Vec::new(alloc),
        is_due: false,
    }
}

/// The number of a process that it waits for: the agent's, or that of a process that was seen last.
pub fn pid_of<C: Drop, A: Allocator>(wait: &Wait<C, A>) -> u32 {
    match (&wait.child, wait.known.last()) {
        (None, Some(process)) => process.pid,
        _ => wait.process.pid,
    }
}
