//! A state, read number by number and item by item.
ghost use Rattle.std.specs.Prelude.{◌≡◌, ◌<◌, ◌≤◌, length, Some, slice_get};
ghost use Rattle.ocf_model.specs.State.{State};
ghost use Rattle.ocf_model.specs.Indexes.{id_at, at_index};

use ocf_types::{
    AgentType, CallId, ENDED_KEPT, Ended, Moment, Op, Params, Provider, QUEUE_LIMIT,
    RECURRING_LIMIT, RESOURCES_LIMIT, Recur, RscId, RunId, Running,
};
use std::alloc::Allocator;

/// A state to be read: its numbers, and its resources by index, from 0, in order of registration.
pub trait StateView {
    /// The allocator of the parameters.
    type A: Allocator;

    /// The state, as plain lists.
    ghost plain: { Self → State };

    /// The next call id.
    fn next_call(&self) -> CallId
        ensures { result ≡ (plain self.now).next_call };

    /// The next run number.
    fn next_run(&self) -> RunId
        ensures { result ≡ (plain self.now).next_run };

    /// The moment of the last event.
    fn clock(&self) -> Moment
        ensures { result ≡ (plain self.now).clock };

    /// The number of resources, at most [`RESOURCES_LIMIT`].
    fn len(&self) -> usize
        ensures value { result ≡ length (plain self.now).resources }
        ensures limit { result ≤ RESOURCES_LIMIT };

    fn id_at(&self, index: usize) -> &RscId
        requires { index < length (plain self.now).resources }
        ensures { result.now ≡ id_at (plain self.now) index };

    fn provider_at(&self, index: usize) -> &Provider
        requires { index < length (plain self.now).resources }
        ensures { result.now ≡ (at_index (plain self.now) index).provider };

    fn agent_at(&self, index: usize) -> &AgentType
        requires { index < length (plain self.now).resources }
        ensures { result.now ≡ (at_index (plain self.now) index).agent };

    fn params_at(&self, index: usize) -> &Params<Self::A>
        requires { index < length (plain self.now).resources }
        ensures { result.now ≡ (at_index (plain self.now) index).params };

    /// The number of queued actions of a resource, at most [`QUEUE_LIMIT`].
    fn queue_len(&self, index: usize) -> usize
        requires { index < length (plain self.now).resources }
        ensures value { result ≡ length (at_index (plain self.now) index).history.queue }
        ensures limit { result ≤ QUEUE_LIMIT };

    /// A queued action.
    fn queued_at(&self, index: usize, at: usize) -> Op
        requires resource { index < length (plain self.now).resources }
        requires item { at < length (at_index (plain self.now) index).history.queue }
        ensures { slice_get (at_index (plain self.now) index).history.queue at ≡ Some result };

    /// The running action of a resource.
    fn running_at(&self, index: usize) -> Option<Running>
        requires { index < length (plain self.now).resources }
        ensures { result ≡ (at_index (plain self.now) index).history.running };

    /// The number of recurring monitors of a resource, at most [`RECURRING_LIMIT`].
    fn recurring_len(&self, index: usize) -> usize
        requires { index < length (plain self.now).resources }
        ensures value { result ≡ length (at_index (plain self.now) index).recurring }
        ensures limit { result ≤ RECURRING_LIMIT };

    /// A recurring monitor.
    fn recurring_at(&self, index: usize, at: usize) -> Recur
        requires resource { index < length (plain self.now).resources }
        requires item { at < length (at_index (plain self.now) index).recurring }
        ensures { slice_get (at_index (plain self.now) index).recurring at ≡ Some result };

    /// The number of kept results of a resource, at most [`ENDED_KEPT`].
    fn ended_len(&self, index: usize) -> usize
        requires { index < length (plain self.now).resources }
        ensures value { result ≡ length (at_index (plain self.now) index).history.ended }
        ensures limit { result ≤ ENDED_KEPT };

    /// A result; the oldest is at 0.
    fn ended_at(&self, index: usize, at: usize) -> Ended
        requires resource { index < length (plain self.now).resources }
        requires item { at < length (at_index (plain self.now) index).history.ended }
        ensures { slice_get (at_index (plain self.now) index).history.ended at ≡ Some result };

    /// A resource's last result that failed.
    fn failed_at(&self, index: usize) -> Option<Ended>
        requires { index < length (plain self.now).resources }
        ensures { result ≡ (at_index (plain self.now) index).history.failed };
}
