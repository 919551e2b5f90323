//! The results that are kept.
ghost use Rattle.std.specs.Prelude.{◌≡◌, ◌<◌, ◌≤◌, [], ◌∷◌, ◌++◌, length, map, slice_get, IfOk};
ghost use Rattle.std.specs.Prelude.{option_to_list};
ghost use Rattle.ocf_model.specs.Resource.{kept, last_in, last_ended, ended_of, dropped_of};

use crate::entries::{dropped_of, ended_of};
use crate::queued::Queued;
use circular_buffer::HeapCircularBuffer;
use growth::{Grows, Refused};
use ocf_types::{ENDED_KEPT, Ended, Layout, Moment, Outcome, Running};
use std::alloc::{Allocator, Global};
use std::marker::Model;

/// The last results of one resource, oldest first: as many as [`ENDED_KEPT`].
#[derive(Drop)]
pub(crate) struct Results<A: Allocator = Global> {
    ring: HeapCircularBuffer<Ended, A>,
}

impl<A: Allocator> Model for Results<A> {
    ghost use Rattle.std.specs.Prelude.{◌≡◌, ◌≤◌, List, length};
    ghost use Rattle.ocf_model.specs.Resource.{kept};
    ghost use Rattle.ocf_types.specs.declared.operation.Ended.{Ended};

    ghost Value = { List Ended };

    ghost view = { λ r. r.ring.items };

    ghost invariant = { λ r. (r.ring.capacity ≡ kept) × (length r.ring.items ≤ kept) };
}

impl<A: Grows> Results<A> {
    /// No results, with capacity for all that are kept.
    pub(crate) fn new(alloc: A) -> Result<Results<A>, Refused<A>>
        ensures none { IfOk result (λ r. r ≡ []) }
    {
        let ring = A::ring(alloc, ENDED_KEPT)?;
        Ok(Results { ring })
    }
}

impl<A: Allocator> Results<A> {
    /// The number of results.
    pub(crate) fn len(&self) -> usize
        ensures value { result ≡ length self.now }
        ensures limit { result ≤ kept }
    {
        self.ring.len()
    }

    /// A result; the oldest is at 0.
    pub(crate) fn at(&self, index: usize) -> Ended
        requires { index < length self.now }
        ensures { slice_get self.now index ≡ Some result }
    {
        match self.ring.get(index) {
            Some(ended) => *ended,
            None => unreachable!(),
        }
    }

    /// Appends the result of the action that ran, if any. If the ring is full, the oldest result is dropped.
    pub(crate) fn push_run(&mut self, running: Option<Running>, outcome: Outcome, at: Moment)
        ensures { self.new ≡ last_ended
            (self.old ++ map (ended_of outcome at) (option_to_list running)) }
    {
        let ring = &mut self.ring;
        if let Some(running) = running {
            ring.push_back(ended_of(running, outcome, at));
        }
    }

    /// Appends queued actions, in order, as dropped. If the ring is full, the oldest result is dropped.
    pub(crate) fn push_dropped(&mut self, queue: &[Queued], at: Moment)
        ensures { self.new ≡ last_ended (self.old ++ map (dropped_of at) queue.now) }
    {
        let ring = &mut self.ring;
        for queued in queue {
            ring.push_back(dropped_of(queued.op(), at));
        }
    }

    /// Appends results, in order. If the ring is full, the oldest result is dropped.
    pub(crate) fn push_all(&mut self, results: &[Ended])
        ensures { self.new ≡ last_ended (self.old ++ results.now) }
    {
        let ring = &mut self.ring;
        for result in results {
            ring.push_back(*result);
        }
    }

    /// Appends a result. If the ring is full, the oldest result is dropped.
    pub(crate) fn push(&mut self, ended: Ended)
        ensures { self.new ≡ last_ended (self.old ++ ended ∷ []) }
    {
        self.ring.push_back(ended);
    }

    /// Keeps only the last results, as many as that layout keeps.
    pub(crate) fn cut(&mut self, layout: Layout)
        ensures { self.new ≡ last_in layout self.old }
    {
        self.ring.truncate_front(layout.kept());
    }

    /// Removes all results.
    pub(crate) fn clear(&mut self)
        ensures { self.new ≡ [] }
    {
        self.ring.clear();
    }
}
