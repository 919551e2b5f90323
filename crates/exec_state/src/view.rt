//! A state, read number by number and item by item: a snapshot is written from it without a copy.
use crate::state::State;
use growth::Grows;
use ocf_model::StateView;
use ocf_types::{
    AgentType, CallId, Ended, Moment, Op, Params, Provider, Recur, RscId, RunId, Running,
};

impl<A: Grows> StateView for State<A> {
    type A = A;

    ghost plain = { λ s. s.state };

    fn next_call(&self) -> CallId {
        self.next_call
    }

    fn next_run(&self) -> RunId {
        self.next_run
    }

    fn clock(&self) -> Moment {
        self.clock
    }

    fn len(&self) -> usize {
        self.registry.len()
    }

    fn id_at(&self, index: usize) -> &RscId {
        self.registry.entry(index).0
    }

    fn provider_at(&self, index: usize) -> &Provider {
        &self.registry.entry(index).1.provider
    }

    fn agent_at(&self, index: usize) -> &AgentType {
        &self.registry.entry(index).1.agent
    }

    fn params_at(&self, index: usize) -> &Params<A> {
        &self.registry.entry(index).1.params
    }

    fn queue_len(&self, index: usize) -> usize {
        self.registry.entry(index).1.ops.queue_len()
    }

    fn queued_at(&self, index: usize, at: usize) -> Op {
        self.registry.entry(index).1.ops.queued_at(at)
    }

    fn running_at(&self, index: usize) -> Option<Running> {
        self.registry.entry(index).1.ops.running()
    }

    fn recurring_len(&self, index: usize) -> usize {
        self.registry.entry(index).1.monitors.len()
    }

    fn recurring_at(&self, index: usize, at: usize) -> Recur {
        self.registry.entry(index).1.monitors.monitor_at(at).recur
    }

    fn ended_len(&self, index: usize) -> usize {
        self.registry.entry(index).1.ops.ended_len()
    }

    fn ended_at(&self, index: usize, at: usize) -> Ended {
        self.registry.entry(index).1.ops.ended_at(at)
    }

    fn failed_at(&self, index: usize) -> Option<Ended> {
        self.registry.entry(index).1.ops.failed()
    }
}
