//! A state, in vectors.
ghost use Rattle.std.specs.Prelude.{◌≡◌};

use crate::resource_parts::ResourceParts;
use crate::state_view::StateView;
use ocf_types::{
    AgentType, CallId, Ended, Moment, Op, Params, Provider, Recur, RscId, RunId, Running,
};
use std::alloc::{Allocator, Global};
use std::marker::Model;

/// A lawful state in vectors, as it is read from a snapshot.
#[derive(Drop)]
pub struct StateParts<A: Allocator = Global> {
    next_call: CallId,
    next_run: RunId,
    clock: Moment,
    resources: Vec<ResourceParts<A>, A>,
}

impl<A: Allocator> Model for StateParts<A> {
    ghost use Rattle.ocf_model.specs.State.{State, state_of};
    ghost use Rattle.ocf_model.specs.LawfulState.{IsLawfulState};

    ghost Value = { State };

    ghost view = { λ s. state_of s.next_call s.next_run s.clock s.resources.items };

    ghost invariant = { λ s. IsLawfulState (state_of s.next_call s.next_run s.clock s.resources.items) };
}

impl<A: Allocator> StateParts<A> {
    ghost use Rattle.ocf_model.specs.LawfulState.{IsLawfulState};
    ghost use Rattle.ocf_model.specs.State.{state_of};

    /// The state of these numbers and resources, in order of registration.
    pub fn new(
        next_call: CallId,
        next_run: RunId,
        clock: Moment,
        resources: Vec<ResourceParts<A>, A>,
    ) -> Self
        requires { IsLawfulState (state_of next_call next_run clock resources.items) }
        ensures { result ≡ state_of next_call next_run clock resources.items }
    {
        StateParts {
            next_call,
            next_run,
            clock,
            resources,
        }
    }

    /// The resources, in order of registration.
    pub fn into_resources(self) -> Vec<ResourceParts<A>, A>
        ensures value { result.items ≡ self.resources }
        ensures lawful { IsLawfulState self }
    {
        self.resources
    }
}

impl<A: Allocator> StateView for StateParts<A> {
    type A = A;

    ghost plain = { λ s. s };

    fn next_call(&self) -> CallId {
        self.next_call
    }

    fn next_run(&self) -> RunId {
        self.next_run
    }

    fn clock(&self) -> Moment {
        self.clock
    }

    fn len(&self) -> usize {
        self.resources.len()
    }

    fn id_at(&self, index: usize) -> &RscId {
        &self.resources[index].registration().id
    }

    fn provider_at(&self, index: usize) -> &Provider {
        &self.resources[index].registration().provider
    }

    fn agent_at(&self, index: usize) -> &AgentType {
        &self.resources[index].registration().agent
    }

    fn params_at(&self, index: usize) -> &Params<A> {
        &self.resources[index].registration().params
    }

    fn queue_len(&self, index: usize) -> usize {
        self.resources[index].history().queue().len()
    }

    fn queued_at(&self, index: usize, at: usize) -> Op {
        self.resources[index].history().queue()[at]
    }

    fn running_at(&self, index: usize) -> Option<Running> {
        self.resources[index].history().running()
    }

    fn recurring_len(&self, index: usize) -> usize {
        self.resources[index].recurring().len()
    }

    fn recurring_at(&self, index: usize, at: usize) -> Recur {
        self.resources[index].recurring()[at]
    }

    fn ended_len(&self, index: usize) -> usize {
        self.resources[index].history().ended().len()
    }

    fn ended_at(&self, index: usize, at: usize) -> Ended {
        self.resources[index].history().ended()[at]
    }

    fn failed_at(&self, index: usize) -> Option<Ended> {
        self.resources[index].history().failed()
    }
}
