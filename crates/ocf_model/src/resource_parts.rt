//! One resource of a state, in vectors.
ghost use Rattle.std.specs.Prelude.{◌≡◌};
ghost use Rattle.ocf_model.specs.Resource.{History, Resource};

use ocf_types::{Ended, Op, Params, Recur, Registration, Running};
use std::alloc::{Allocator, Global};
use std::marker::Model;

/// The queued actions, the running one, the results and the last failure of a resource, in vectors.
#[derive(Drop)]
pub struct HistoryParts<A: Allocator = Global> {
    queue: Vec<Op, A>,
    running: Option<Running>,
    ended: Vec<Ended, A>,
    failed: Option<Ended>,
}

impl<A: Allocator> Model for HistoryParts<A> {
    ghost use Rattle.ocf_model.specs.Resource.{History};

    ghost Value = { History };

    ghost view = { λ h. record { queue = h.queue.items; running = h.running; ended = h.ended.items; failed = h.failed } };
}

impl<A: Allocator> HistoryParts<A> {
    /// A history: the queued actions in order, the running one, the results, oldest first, and the last failure.
    pub fn new(
        queue: Vec<Op, A>,
        running: Option<Running>,
        ended: Vec<Ended, A>,
        failed: Option<Ended>,
    ) -> Self
        ensures { result ≡ record { queue = queue.items; running = running; ended = ended.items; failed = failed } }
    {
        HistoryParts {
            queue,
            running,
            ended,
            failed,
        }
    }

    /// The queued actions, in order.
    pub fn queue(&self) -> &[Op]
        ensures { result.now ≡ self.now.queue }
    {
        self.queue.as_slice()
    }

    /// The running action.
    pub fn running(&self) -> Option<Running>
        ensures { result ≡ self.now.running }
    {
        self.running
    }

    /// The results, oldest first.
    pub fn ended(&self) -> &[Ended]
        ensures { result.now ≡ self.now.ended }
    {
        self.ended.as_slice()
    }

    /// The last result that failed.
    pub fn failed(&self) -> Option<Ended>
        ensures { result ≡ self.now.failed }
    {
        self.failed
    }
}

/// A registered resource, in vectors.
#[derive(Drop)]
pub struct ResourceParts<A: Allocator = Global> {
    registration: Registration<Params<A>>,
    history: HistoryParts<A>,
    recurring: Vec<Recur, A>,
}

impl<A: Allocator> Model for ResourceParts<A> {
    ghost use Rattle.std.specs.Prelude.{List, ℕ};
    ghost use Rattle.ocf_model.specs.Resource.{Resource};
    ghost use Rattle.ocf_model.specs.State.{resource_of};

    ghost Value = { List ℕ × Resource };

    ghost view = { λ r. resource_of r.registration r.history r.recurring.items };
}

impl<A: Allocator> ResourceParts<A> {
    ghost use Rattle.ocf_model.specs.State.{resource_of};

    /// The resource of a registration, with its history and its recurring monitors.
    pub fn new(
        registration: Registration<Params<A>>,
        history: HistoryParts<A>,
        recurring: Vec<Recur, A>,
    ) -> Self
        ensures { result ≡ resource_of registration history recurring.items }
    {
        ResourceParts {
            registration,
            history,
            recurring,
        }
    }

    /// The recurring monitors, in order of acceptance.
    pub fn recurring(&self) -> &[Recur]
        ensures { result.now ≡ self.now.1.recurring }
    {
        self.recurring.as_slice()
    }

    /// The queued actions, the running one, the results and the last failure.
    pub fn history(&self) -> &HistoryParts<A>
        ensures { result.now ≡ self.now.1.history }
    {
        &self.history
    }

    /// Names and parameters.
    pub fn registration(&self) -> &Registration<Params<A>>
        ensures id { result.now.id ≡ self.now.0 }
        ensures provider { result.now.provider ≡ self.now.1.provider }
        ensures agent { result.now.agent ≡ self.now.1.agent }
        ensures params { result.now.params ≡ self.now.1.params }
    {
        &self.registration
    }

    /// Its registration, its history and its recurring monitors.
    pub fn into_parts(self) -> (Registration<Params<A>>, HistoryParts<A>, Vec<Recur, A>)
        ensures { resource_of result.0 result.1 result.2.items ≡ self }
    {
        (self.registration, self.history, self.recurring)
    }
}
