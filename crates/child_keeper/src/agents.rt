//! The agents that live, each under its run, and those that were given up.
ghost use Rattle.std.specs.Prelude.{◌≡◌, ◌↔◌, ◌+◌, ◌<◌, ◌≤◌, ◌==◌, ◌++◌, [], ◌∷◌, Contains, IfOk, IfSome, IsTrue, IfNone, OnSome};
ghost use Rattle.std.specs.Prelude.{Some, length, slice_get, vec_len};
ghost use Rattle.std.specs.List.{list_any, position_from};
ghost use Rattle.std.specs.Str.{bytes_eq};
ghost use Rattle.std.specs.Vec.{vec_capacity};
ghost use Rattle.child_keeper.specs.Agents.{others_of, run_of, runs_of};
ghost use Rattle.child_model.specs.Children.{live_limit};

use agent_logs::Uncopied;
use agent_system::AgentProcess;
use growth::{Grows, Refused, with_capacity};
use ocf_types::{Action, RESOURCES_LIMIT, RscId, RunId};
use std::alloc::Allocator;
use std::time::Duration;

/// How many agent processes may live at once: one for each resource that can be registered.
pub const LIVE_LIMIT: usize = RESOURCES_LIMIT;

/// An agent's process, and the action that it performs.
#[derive(Drop)]
pub struct Agent<C: Drop> {
    /// The process, with its run and its resource.
    pub process: AgentProcess,
    pub action: Action,
    /// When it was spawned, by the monotonic clock.
    pub spawned_at: Duration,
    /// The process, as the system's calls take it.
    pub child: C,
    /// The slot of its entry in the record of who runs, if it has one.
    pub slot: Option<usize>,
    /// What is to be copied of its output at its end.
    pub uncopied: Uncopied,
}

/// Agents that were not reaped yet: those that live, in the order in which they were spawned, and those that were given up, in the
/// order in which that happened.
#[derive(Drop)]
pub struct Agents<C: Drop, A: Allocator> {
    pub agents: Vec<Agent<C>, A>,
    pub given_up: Vec<Agent<C>, A>,
    pub ghost room: { live_limit ≤ vec_capacity agents },
    pub ghost room_given_up: { live_limit ≤ vec_capacity given_up },
    pub ghost few: { vec_len agents + vec_len given_up ≤ live_limit },
}

// The index of the first agent of a run.
fn first_of<C: Drop>(agents: &[Agent<C>], run: RunId) -> Option<usize>
    ensures { result ≡ position_from (λ a. run_of a == run) 0 agents.now }
{
    agents
        .iter()
        .position(|agent| agent.process.run.get() == run.get())
}

// Whether an agent of this resource is among these.
fn any_of<C: Drop>(agents: &[Agent<C>], id: &RscId) -> bool
    ensures { result ≡ list_any (λ a. bytes_eq id.now a.process.id) agents.now }
{
    agents.iter().any(|agent| *id == agent.process.id)
}

impl<C: Drop, A: Grows> Agents<C, A> {
    /// Empty lists with the capacity for all that may live. It fails only where memory is refused.
    pub fn new(alloc: A) -> Result<Agents<C, A>, Refused<A>>
        ensures none { IfOk result (λ a. a.agents.items ≡ []) }
        ensures ended { IfOk result (λ a. a.given_up.items ≡ []) }
    {
        let agents = with_capacity(alloc, LIVE_LIMIT)?;
        let given_up = with_capacity(alloc, LIVE_LIMIT)?;
        Ok(Agents { agents, given_up })
    }
}

impl<C: Drop, A: Allocator> Agents<C, A> {
    /// Adds an agent that lives. It takes no memory.
    pub fn add(&mut self, agent: Agent<C>)
        requires few { length self.old.agents.items < LIVE_LIMIT }
        requires ended { self.old.given_up.items ≡ [] }
        ensures added { self.new.agents.items ≡ self.old.agents.items ++ agent ∷ [] }
        ensures given_up { self.new.given_up ≡ self.old.given_up }
    {
        self.agents.push_reserved(agent);
    }

    // The index of the first agent of a run.
    fn first(&self, run: RunId) -> Option<usize>
        ensures { result ≡ position_from (λ a. run_of a == run) 0 self.now.agents.items }
    {
        first_of(self.agents.as_slice(), run)
    }

    /// The index of the agent of a run.
    pub fn index(&self, run: RunId) -> usize
        requires lives { Contains (runs_of self.now.agents.items) run }
        ensures within { result < vec_len self.now.agents }
        ensures found { slice_get (runs_of self.now.agents.items) result ≡ Some run }
    {
        match self.first(run) {
            Some(index) => index,
            None => unreachable!(),
        }
    }

    /// Removes the agent of a run and returns it.
    pub fn take(&mut self, run: RunId) -> Agent<C>
        requires lives { Contains (runs_of self.old.agents.items) run }
        ensures agent { Contains self.old.agents.items result }
        ensures run { result.process.run ≡ run }
        ensures others { self.new.agents.items ≡ others_of run self.old.agents.items }
        ensures fewer { vec_len self.new.agents + 1 ≤ vec_len self.old.agents }
        ensures given_up { self.new.given_up ≡ self.old.given_up }
    {
        let index = self.index(run);
        let agent = self.agents.remove(index);
        self.agents
            .retain(|other| other.process.run.get() != run.get());
        agent
    }

    /// Adds an agent that was given up. It takes no memory.
    pub fn add_given_up(&mut self, agent: Agent<C>)
        requires few { vec_len self.old.agents + vec_len self.old.given_up < LIVE_LIMIT }
        ensures agents { self.new.agents ≡ self.old.agents }
        ensures given_up { self.new.given_up.items ≡ self.old.given_up.items ++ agent ∷ [] }
    {
        self.given_up.push_reserved(agent);
    }

    /// Removes the agent that was given up first and returns it: `None` if there is none.
    pub fn take_given_up(&mut self) -> Option<Agent<C>>
        ensures first { IfSome result
            (λ agent. self.old.given_up.items ≡ agent ∷ self.new.given_up.items) }
        ensures fewer { OnSome result (vec_len self.new.given_up + 1 ≡ vec_len self.old.given_up) }
        ensures none { IfNone result (self.new.given_up ≡ self.old.given_up) }
        ensures all { IfNone result (self.old.given_up.items ≡ []) }
        ensures agents { self.new.agents ≡ self.old.agents }
    {
        if self.given_up.is_empty() {
            None
        } else {
            Some(self.given_up.remove(0))
        }
    }

    /// Whether the agent of a run lives.
    pub fn contains(&self, run: RunId) -> bool
        ensures lives { IsTrue result ↔ Contains (runs_of self.now.agents.items) run }
    {
        match self.first(run) {
            Some(_) => true,
            None => false,
        }
    }

    /// Whether an agent of a resource lives.
    pub fn has_of(&self, id: &RscId) -> bool
        ensures value { result ≡ list_any (λ a. bytes_eq id.now a.process.id) self.now.agents.items }
    {
        any_of(self.agents.as_slice(), id)
    }

    /// The run of the agent that was spawned last: `None` if none lives.
    pub fn last_run(&self) -> Option<RunId>
        ensures lives { IfSome result (λ run. Contains (runs_of self.now.agents.items) run) }
        ensures none { IfNone result (self.now.agents.items ≡ []) }
    {
        match self.agents.last() {
            Some(agent) => Some(agent.process.run),
            None => None,
        }
    }

    /// The number of agents that live.
    pub fn len(&self) -> usize
        ensures { result ≡ length self.now.agents.items }
    {
        self.agents.len()
    }
}
