//! The resources by id, in order of registration.
ghost use Rattle.std.specs.Prelude.{ℕ, List, ◌≡◌, ◌<◌, ◌≤◌, ◌++◌, ◌∷◌, [], None, map, not, filter, length, nat_le, is_some, option_map, option_and_then};
ghost use Rattle.std.specs.Prelude.{slice_index_or, IsTrue, IsSomeAnd, IsOk, IfOk, OnErr, OnOk};
ghost use Rattle.std.specs.Map.{keys_of, lookup};
ghost use Rattle.std.specs.List.{flat_map, list_any, position, AllByRecursion, IsDistinct};
ghost use Rattle.std.specs.Str.{bytes_eq};
ghost use Rattle.indexmap.specs.IndexMap.{values, spare};
ghost use Rattle.ocf_model.specs.Resource.{booted, history_in, is_busy};
ghost use Rattle.ocf_model.specs.State.{at_id, others, on_history, stepped, registered};
ghost use Rattle.ocf_model.specs.Due.{IsLeastDue};
ghost use Rattle.ocf_model.specs.Indexes.{no_entry};
ghost use Rattle.ocf_types.specs.declared.layout.Layout.TheVariants.{First};
ghost use Rattle.recurring.specs.Monitors.{all_due_at, pairs, IsFirstMoment};
ghost use Rattle.exec_state.specs.Seen.{seen, seen_all, monitors_of, monitors_all, CanTake, FitsRoom};
ghost use Rattle.exec_state.specs.MonitorsAfter.{monitors_stepped};
ghost use Rattle.exec_state.specs.Lawful.{recurs_by_id, recurring_by_id};
ghost use Rattle.exec_state.specs.Resting.{AllRest, RestBefore};
ghost use Rattle.exec_state.specs.StateValue.{all_pairs, dues_by_id, monitors_at};

use crate::registered::Registered;
use growth::{Grows, Refused, push};
use indexmap::IndexMap;
use ocf_model::ResourceParts;
use ocf_types::{CallId, Moment, Params, RESOURCES_LIMIT, Registration, RscId, Step};
use op_history::Ops;
use recurring::{DueIndex, INDEX_LIMIT, Recurrings};
use std::alloc::{AllocError, Allocator, Global};
use std::hash::{BuildHasherDefault, FoldHasher};
use std::marker::Model;

/// Resources by id, in order of registration.
type Resources<A> = IndexMap<RscId, Registered<A>, BuildHasherDefault<FoldHasher>, A>;

/// The registered resources, and the empty operations, allocated in advance, of the next one.
#[derive(Drop)]
pub(crate) struct Registry<A: Allocator + Copy = Global> {
    resources: Resources<A>,
    next_ops: Option<Ops<A>>,
    // The due moments of the recurring monitors.
    dues: DueIndex<A>,
    // A cached moment, in milliseconds since 1970, before which no resource begins an action: 0 if unknown, as after a change.
    rests_until: u64,
}

impl<A: Allocator + Copy> Model for Registry<A> {
    ghost use Rattle.std.specs.Prelude.{◌≡◌, ◌&&◌, is_some, nat_lt, IfSome};
    ghost use Rattle.indexmap.specs.IndexMap.{spare};
    ghost use Rattle.ocf_model.specs.Resource.{no_history};
    ghost use Rattle.exec_state.specs.Seen.{seen_all, monitors_all};
    ghost use Rattle.exec_state.specs.RegistryView.{RegistryView};
    ghost use Rattle.exec_state.specs.Resting.{RestBefore};
    ghost use Rattle.exec_state.specs.StateValue.{dues_by_id};

    ghost Value = { RegistryView };

    ghost view = { λ r. record {
      resources = seen_all r.resources.entries;
      monitors = monitors_all r.resources.entries;
      ready = is_some r.next_ops && (nat_lt 0 (spare r.resources) && nat_lt 0 r.dues.room);
    } };

    ghost invariant = { λ r. (IfSome r.next_ops (λ o. o ≡ no_history))
        × RestBefore (seen_all r.resources.entries) (monitors_all r.resources.entries) r.rests_until
        × (r.dues.dues ≡ dues_by_id (monitors_all r.resources.entries)) };
}

impl<A: Grows> Registry<A> {
    /// No resources. It takes no memory.
    #[tactic(auto, using(crate::proofs::Resting::rest_before_0))]
    pub(crate) fn new(alloc: A) -> Registry<A>
        ensures resources { result.resources ≡ [] }
        ensures monitors { result.monitors ≡ [] }
    {
        Registry {
            resources: IndexMap::new(alloc),
            next_ops: None,
            dues: DueIndex::new(alloc),
            rests_until: 0,
        }
    }

    /// The registry of these parts, with every recurring monitor due at that moment. Up to [`INDEX_LIMIT`] resources, the only
    /// error is a refused allocation.
    #[tactic(auto, using(crate::proofs::Resting::rest_before_0))]
    pub(crate) fn from_parts(
        alloc: A,
        due: Moment,
        parts: Vec<ResourceParts<A>, A>,
    ) -> Result<Registry<A>, AllocError>
        requires ids { IsDistinct bytes_eq (keys_of parts.items) }
        requires room { AllByRecursion (λ e. FitsRoom e.1) parts.items }
        ensures resources { IfOk result (λ r. r.resources ≡ parts.items) }
        ensures monitors { IfOk result
            (λ r. r.monitors ≡ map (λ e. (e.0, all_due_at due e.1.recurring)) parts.items) }
        ensures memory { OnErr result (length parts.items ≤ INDEX_LIMIT → IsTrue A.refuses) }
    {
        let mut resources = IndexMap::new(alloc);
        let mut dues = DueIndex::new(alloc);
        for part in parts {
            let (id, resource) = Registered::from_parts(alloc, due, part)?;
            dues.reserve(1)?;
            A::reserve_entries(&mut resources, 1)?;
            insert(&mut resources, &mut dues, id, resource);
        }
        Ok(Registry {
            resources,
            next_ops: None,
            dues,
            rests_until: 0,
        })
    }

    /// Lemma: the monitors are those of the resources.
    pub(crate) fn lemma_known(&self)
        ensures { recurs_by_id self.now.monitors ≡ recurring_by_id self.now.resources }
    {
        let _ = self.resources.len();
    }

    /// The number of resources.
    pub(crate) fn len(&self) -> usize
        ensures { result ≡ length self.now.resources }
    {
        self.resources.len()
    }

    /// Whether there are [`RESOURCES_LIMIT`] resources.
    pub(crate) fn is_full(&self) -> bool
        ensures { result ≡ nat_le RESOURCES_LIMIT (length self.now.resources) }
    {
        self.len() >= RESOURCES_LIMIT
    }

    /// The resource of that id.
    pub(crate) fn get(&self, id: &RscId) -> Option<&Registered<A>>
        ensures resource { option_map (λ r. seen r.now) result
            ≡ lookup (bytes_eq id.now) self.now.resources }
        ensures monitors { option_map (λ r. monitors_of r.now) result
            ≡ lookup (bytes_eq id.now) self.now.monitors }
    {
        self.resources.get(id)
    }

    /// Whether there is a resource of that id.
    pub(crate) fn contains(&self, id: &RscId) -> bool
        ensures { result ≡ is_some (lookup (bytes_eq id.now) self.now.resources) }
    {
        self.get(id).is_some()
    }

    /// The index of the resource of that id.
    pub(crate) fn index_of(&self, id: &RscId) -> Option<usize>
        ensures { result ≡ position (bytes_eq id.now) (keys_of self.now.resources) }
    {
        self.resources.get_index_of(id)
    }

    /// The resource at an index, and its id.
    pub(crate) fn entry(&self, index: usize) -> (&RscId, &Registered<A>)
        requires { index < length self.now.resources }
        ensures id { result.0.now ≡ (slice_index_or self.now.resources index no_entry).0 }
        ensures resource { seen result.1.now
            ≡ (slice_index_or self.now.resources index no_entry).1 }
        ensures by_id { lookup (bytes_eq result.0.now) self.now.resources
            ≡ Some (seen result.1.now) }
        ensures monitors { lookup (bytes_eq result.0.now) self.now.monitors
            ≡ Some (monitors_of result.1.now) }
    {
        let _len = self.resources.len();
        match self.resources.get_index(index) {
            Some(entry) => entry,
            None => unreachable!(),
        }
    }

    /// The ids, in order of registration.
    pub(crate) fn ids(&self, alloc: A) -> Result<Vec<RscId, A>, Refused<A>>
        ensures ids { IfOk result (λ v. v.items ≡ map (λ e. e.0) self.now.resources) }
    {
        let mut ids = Vec::new(alloc);
        for id in self.resources.keys() {
            push(&mut ids, id.copied())?;
        }
        Ok(ids)
    }

    /// Whether some resource has an action queued or running.
    pub(crate) fn any_busy(&self) -> bool
        ensures { result ≡ list_any (λ e. is_busy e.1.history) self.now.resources }
    {
        is_any_busy(&self.resources)
    }

    /// Reserves memory for one more resource. Up to [`INDEX_LIMIT`] resources, the only error is a refused allocation.
    pub(crate) fn reserve(&mut self) -> Result<(), AllocError>
        ensures ok { OnOk result (IsTrue self.new.ready) }
        ensures resources { self.new.resources ≡ self.old.resources }
        ensures monitors { self.new.monitors ≡ self.old.monitors }
        ensures memory { OnErr result (length self.old.resources < INDEX_LIMIT → IsTrue A.refuses) }
    {
        A::reserve_entries(&mut self.resources, 1)?;
        self.dues.reserve(1)?;
        if self.next_ops.is_none() {
            self.next_ops = Some(Ops::new(*self.resources.allocator())?);
        }
        Ok(())
    }

    /// Adds a resource, for which memory is reserved.
    #[tactic(auto, using(crate::proofs::Resting::rest_before_0))]
    pub(crate) fn register(&mut self, registration: Registration<Params<A>>)
        requires absent { lookup (bytes_eq registration.id) self.old.resources ≡ None }
        requires ready { IsTrue self.old.ready }
        ensures resources { self.new.resources
            ≡ self.old.resources ++ registered registration ∷ [] }
        ensures monitors { self.new.monitors ≡ self.old.monitors ++ (registration.id, []) ∷ [] }
    {
        let Some(ops) = self.next_ops.take() else {
            unreachable!()
        };
        self.rests_until = 0;
        let (id, resource) = Registered::new(registration, ops, Recurrings::new());
        insert(&mut self.resources, &mut self.dues, id, resource);
    }

    /// Removes the resource of that id. Later ones move down by one index.
    #[tactic(auto, using(crate::proofs::Resting::rest_before_0))]
    pub(crate) fn remove(&mut self, id: &RscId)
        ensures resources { self.new.resources ≡ others id.now self.old.resources }
        ensures monitors { self.new.monitors ≡ filter
            (λ e. not (bytes_eq id.now e.0)) self.old.monitors }
    {
        let _len = self.resources.len();
        self.rests_until = 0;
        self.resources.shift_remove(id);
        self.dues.forget(id);
    }

    /// Applies the step to the resource of that id.
    #[tactic(auto, using(crate::proofs::Resting::rest_before_0))]
    pub(crate) fn take_step(&mut self, id: &RscId, at: Moment, step: Step<Params<A>>)
        requires { IsSomeAnd (lookup (bytes_eq id.now) self.old.resources) (CanTake step) }
        ensures resources { self.new.resources ≡ at_id id.now (stepped at step) self.old.resources }
        ensures monitors { self.new.monitors
            ≡ at_id id.now (monitors_stepped at
            (option_and_then (λ r. r.history.running)
            (lookup (bytes_eq id.now) self.old.resources)) step) self.old.monitors }
    {
        self.rests_until = 0;
        let Some(index) = self.resources.get_index_of(id) else {
            unreachable!()
        };
        let resource = &mut self.resources[index];
        let may_change = resource.may_change_monitors(&step);
        resource.take_step(at, step);
        if may_change {
            self.dues.renew_at(index, &resource.monitors);
        }
    }

    /// Boots every resource.
    #[tactic(auto, using(crate::proofs::Resting::rest_before_0))]
    pub(crate) fn boot(&mut self, at: Moment)
        ensures resources { self.new.resources ≡ map
            (λ e. (e.0, on_history (booted at) e.1)) self.old.resources }
        ensures monitors { self.new.monitors ≡ self.old.monitors }
    {
        self.rests_until = 0;
        let resources = &mut self.resources;
        for index in 0..resources.len() {
            let resource = &mut resources[index];
            resource.boot(at);
        }
    }

    /// Removes what the journal's first layout does not keep of each resource.
    #[tactic(auto, using(crate::proofs::Resting::rest_before_0))]
    pub(crate) fn in_first(&mut self)
        ensures resources { self.new.resources ≡ map
            (λ e. (e.0, on_history (history_in First) e.1)) self.old.resources }
        ensures monitors { self.new.monitors ≡ self.old.monitors }
    {
        self.rests_until = 0;
        let resources = &mut self.resources;
        for index in 0..resources.len() {
            let resource = &mut resources[index];
            resource.in_first();
        }
    }

    /// Makes every recurring monitor due at that moment.
    #[tactic(auto, using(crate::proofs::Resting::rest_before_0))]
    pub(crate) fn restart(&mut self, at: Moment)
        ensures resources { self.new.resources ≡ self.old.resources }
        ensures monitors { self.new.monitors ≡ map
            (λ e. (e.0, all_due_at at e.1.recurring)) self.old.resources }
    {
        self.rests_until = 0;
        let (resources, dues) = (&mut self.resources, &mut self.dues);
        for index in 0..resources.len() {
            let resource = &mut resources[index];
            resource.restart(at);
            let Some((id, resource)) = resources.get_index(index) else {
                unreachable!()
            };
            dues.renew(id, &resource.monitors);
        }
    }

    /// Computes the next moment at which a resource may begin an action, unless it is cached since the last change.
    pub(crate) fn find_next_due(&mut self)
        ensures { self.new ≡ self.old }
    {
        if self.rests_until == 0 {
            self.rests_until = rests_until(&self.resources);
        }
    }

    /// The least moment at which a recurring monitor is due.
    pub(crate) fn first_due(&self) -> Option<u64>
        ensures { IsFirstMoment (all_pairs self.now.monitors) result }
    {
        self.dues.first_due()
    }

    /// The call of that resource's recurring monitor that is due first, of equals the lowest; `None` if none is due by `now`.
    pub(crate) fn due_of(&self, id: &RscId, now: Moment) -> Option<CallId>
        ensures { IsLeastDue (pairs (monitors_at self.now.monitors id.now)) now result }
    {
        self.dues.due_of(id, now)
    }

    /// Whether the cached moment is after `now`, so that no resource begins an action at `now`; `false` shows nothing.
    pub(crate) fn rests(&self, now: Moment) -> bool
        ensures { IsTrue result → AllRest self.now.resources self.now.monitors now }
    {
        now.get() < self.rests_until
    }
}

/// A moment before which none of these resources begins an action.
fn rests_until<A: Grows>(resources: &Resources<A>) -> u64
    ensures { RestBefore (seen_all resources.now.entries)
        (monitors_all resources.now.entries) result }
{
    let mut until = u64::MAX;
    for index in 0..resources.len() {
        let resource = &resources[index];
        let own = resource.rests_until();
        until = until.min(own);
    }
    until
}

/// Whether one of these has an action queued or running.
fn is_any_busy<A: Grows>(resources: &Resources<A>) -> bool
    ensures { result ≡ list_any (λ r. is_busy r.ops) (values resources.now) }
{
    resources.values().any(|resource| resource.ops.is_busy())
}

/// Adds a resource and its recurring monitors, for which memory is reserved.
fn insert<A: Grows>(
    resources: &mut Resources<A>,
    dues: &mut DueIndex<A>,
    id: RscId,
    resource: Registered<A>,
)
    requires absent { lookup (bytes_eq id) (seen_all resources.old.entries) ≡ None }
    requires tied { dues.old.dues ≡ dues_by_id (monitors_all resources.old.entries) }
    requires room { 0 < dues.old.room }
    requires spare { 0 < spare resources.old }
    ensures resources { seen_all resources.new.entries
        ≡ seen_all resources.old.entries ++ (id, seen resource) ∷ [] }
    ensures monitors { monitors_all resources.new.entries
        ≡ monitors_all resources.old.entries ++ (id, resource.monitors) ∷ [] }
    ensures tied { dues.new.dues ≡ dues_by_id (monitors_all resources.new.entries) }
{
    dues.keep(id.copied());
    dues.renew(&id, &resource.monitors);
    let Ok(_) = resources.insert(id, resource) else {
        unreachable!()
    };
}
