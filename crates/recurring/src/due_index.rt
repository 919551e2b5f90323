//! The recurring monitors of all resources, by the moments at which they are due.
ghost use Rattle.std.specs.Prelude.{◌≡◌, ◌+◌, ◌<◌, ◌≤◌, ◌↔◌, ◌++◌, ◌∷◌, [], None, Any, IsTrue, IsSomeAnd, OnErr, OnOk, filter, length, not};
ghost use Rattle.std.specs.Map.{lookup};
ghost use Rattle.std.specs.Str.{bytes_eq};
ghost use Rattle.indexmap.specs.IndexMap.{set_value_at};
ghost use Rattle.ocf_model.specs.Due.{IsLeastDue};
ghost use Rattle.ocf_model.specs.State.{at_id};
ghost use Rattle.recurring.specs.Monitors.{pairs, IsFirstMoment};
ghost use Rattle.recurring.specs.DueIndex.{pairs_at, pairs_of_all, pairs_settled, pairs_without};

use crate::due_calls::DueCalls;
use crate::first_moments::FirstMoments;
use crate::recurrings::Recurrings;
use growth::{GROWTH_LIMIT, Grows};
use indexmap::IndexMap;
use ocf_types::{CallId, Moment, RECURRING_LIMIT, RscId};
use std::alloc::{AllocError, Allocator, Global};
use std::hash::{BuildHasherDefault, FoldHasher};
use std::marker::Model;

/// The greatest number of resources that the index keeps.
pub const INDEX_LIMIT: usize = GROWTH_LIMIT / 2;

/// The calls of each resource, in the order in which the resources were kept.
type Resources<A> = IndexMap<RscId, DueCalls, BuildHasherDefault<FoldHasher>, A>;

/// The recurring monitors of all resources, by due moment: for each resource, the calls of at most [`RECURRING_LIMIT`] monitors
/// with their due moments, in milliseconds. Contracts see the pairs of due moment and call by resource (`dues`), and the number
/// of further resources that can be kept without an allocation (`room`).
#[derive(Drop)]
pub struct DueIndex<A: Allocator + Copy = Global> {
    resources: Resources<A>,
    // The first moment of each resource, by its index.
    firsts: FirstMoments<A>,
}

impl<A: Allocator + Copy> Model for DueIndex<A> {
    ghost use Rattle.std.specs.Prelude.{◌-◌, min, length};
    ghost use Rattle.indexmap.specs.IndexMap.{spare};
    ghost use Rattle.recurring.specs.DueIndex.{Index, IsTied};

    ghost Value = { Index };

    ghost view = { λ x. record {
      dues = x.resources.entries;
      room = min (spare x.resources) (length x.firsts - length x.resources.entries);
    } };

    ghost invariant = { λ x. IsTied x.resources.entries x.firsts };
}

impl<A: Grows> DueIndex<A> {
    /// No resources. It takes no memory.
    pub fn new(alloc: A) -> DueIndex<A>
        ensures { result.dues ≡ [] }
    {
        DueIndex {
            resources: IndexMap::new(alloc),
            firsts: FirstMoments::new(alloc),
        }
    }

    /// Reserves memory for that many more resources. Up to [`INDEX_LIMIT`] resources in all, the only error is a refused
    /// allocation.
    pub fn reserve(&mut self, more: usize) -> Result<(), AllocError>
        ensures dues { self.new.dues ≡ self.old.dues }
        ensures room { OnOk result (more ≤ self.new.room) }
        ensures memory { OnErr result (length self.old.dues + more ≤ INDEX_LIMIT → IsTrue A.refuses) }
    {
        let len = self.resources.len();
        if len > INDEX_LIMIT || more > INDEX_LIMIT - len {
            return Err(AllocError);
        }
        A::reserve_entries(&mut self.resources, more)?;
        self.firsts.grow(len + more)?;
        Ok(())
    }

    /// Keeps a resource, which has no monitors yet.
    pub fn keep(&mut self, id: RscId)
        requires absent { lookup (bytes_eq id) self.old.dues ≡ None }
        requires room { 0 < self.old.room }
        ensures { self.new.dues ≡ self.old.dues ++ (id, []) ∷ [] }
    {
        let Ok(_) = self.resources.insert(id, DueCalls::new()) else {
            unreachable!()
        };
    }

    /// Removes the resource and all of its monitors. Later resources move down by one index.
    pub fn forget(&mut self, id: &RscId)
        ensures dues { self.new.dues ≡ filter (λ e. not (bytes_eq id.now e.0)) self.old.dues }
    {
        let Some(index) = self.resources.get_index_of(id) else {
            return;
        };
        self.resources.shift_remove_index(index);
        self.firsts.remove(index);
    }

    /// Appends a monitor of the resource: its call, due at that moment.
    pub fn add(&mut self, id: &RscId, call: CallId, due: u64)
        requires kept { IsSomeAnd (lookup (bytes_eq id.now) self.old.dues)
            (λ ps. length ps < RECURRING_LIMIT) }
        ensures dues { self.new.dues ≡ at_id id.now (λ ps. ps ++ (due, call) ∷ []) self.old.dues }
        ensures room { self.new.room ≡ self.old.room }
    {
        let Some(index) = self.resources.get_index_of(id) else {
            unreachable!()
        };
        let calls = &mut self.resources[index];
        calls.push(call, due);
        let first = calls.first_moment();
        self.firsts.set(index, first);
    }

    /// Removes the resource's monitor of that call. If there is none, nothing changes.
    pub fn remove(&mut self, id: &RscId, call: CallId)
        ensures dues { self.new.dues ≡ at_id id.now (pairs_without call) self.old.dues }
        ensures room { self.new.room ≡ self.old.room }
    {
        let Some(index) = self.resources.get_index_of(id) else {
            return;
        };
        let calls = &mut self.resources[index];
        calls.remove(call);
        let first = calls.first_moment();
        self.firsts.set(index, first);
    }

    /// Makes the resource's monitor of that call due at that moment. If there is none, nothing changes.
    pub fn settle(&mut self, id: &RscId, call: CallId, due: u64)
        ensures dues { self.new.dues ≡ at_id id.now (pairs_settled call due) self.old.dues }
        ensures room { self.new.room ≡ self.old.room }
    {
        let Some(index) = self.resources.get_index_of(id) else {
            return;
        };
        let calls = &mut self.resources[index];
        calls.settle(call, due);
        let first = calls.first_moment();
        self.firsts.set(index, first);
    }

    /// Replaces the resource's monitors by these, with their due moments.
    pub fn renew(&mut self, id: &RscId, monitors: &Recurrings)
        ensures dues { self.new.dues ≡ at_id id.now (λ ps. pairs monitors.now) self.old.dues }
        ensures room { self.new.room ≡ self.old.room }
    {
        let Some(index) = self.resources.get_index_of(id) else {
            return;
        };
        let calls = &mut self.resources[index];
        let first = calls.renew(monitors);
        self.firsts.set(index, first);
    }

    /// Replaces the monitors of the resource at an index by these, with their due moments. Resources are indexed from 0, in the
    /// order in which they were kept.
    pub fn renew_at(&mut self, index: usize, monitors: &Recurrings)
        requires { index < length self.old.dues }
        ensures dues { self.new.dues ≡ set_value_at self.old.dues index (pairs monitors.now) }
        ensures room { self.new.room ≡ self.old.room }
    {
        let calls = &mut self.resources[index];
        let first = calls.renew(monitors);
        self.firsts.set(index, first);
    }

    /// The call of the resource's first due monitor: of the least due moment, and among equals the lowest call. `None` exactly
    /// when none is due.
    pub fn due_of(&self, id: &RscId, now: Moment) -> Option<CallId>
        ensures { IsLeastDue (pairs_at self.now.dues id.now) now result }
    {
        match self.resources.get(id) {
            Some(calls) => calls.due(now),
            None => None,
        }
    }

    /// The least due moment of all monitors, in milliseconds; `None` exactly when there are no monitors.
    pub fn first_due(&self) -> Option<u64>
        ensures { IsFirstMoment (pairs_of_all self.now.dues) result }
    {
        self.firsts.first()
    }

    /// Whether a monitor of some resource is due at that moment.
    pub fn any_due(&self, now: Moment) -> bool
        ensures { IsTrue result ↔ Any (λ p. p.0 ≤ now) (pairs_of_all self.now.dues) }
    {
        match self.first_due() {
            Some(due) => due <= now.get(),
            None => false,
        }
    }
}
