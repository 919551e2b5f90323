//! The pick: the action that a resource begins now.
ghost use Rattle.std.specs.Prelude.{◌≡◌, ◌<◌, ℕ, None, IsTrue, Option, length};
ghost use Rattle.ocf_model.specs.Due.{IsPickOf};
ghost use Rattle.ocf_model.specs.Indexes.{entry_at};
ghost use Rattle.recurring.specs.Monitors.{pairs, IsFirstMoment};
ghost use Rattle.exec_state.specs.Seen.{seen};
ghost use Rattle.exec_state.specs.StateValue.{Chooses, IsChoice, all_pairs, dues, run_of_pick};
ghost use Rattle.exec_state.specs.Resting.{Rests};

use crate::registered::Registered;
use crate::state::State;
use growth::Grows;
use ocf_model::StateView;
use ocf_types::{CallId, Moment, RscId, RunId, Running};

impl<A: Grows> State<A> {
    /// The action that the resource at an index begins at that moment, as it will run under that run number: the first queued
    /// one, else the recurring monitor that is due first. `None` if an action runs, or if nothing is queued and no monitor is due.
    pub fn pick(&self, index: usize, run: RunId, at: Moment) -> Option<Running>
        requires { index < length self.now.state.resources }
        ensures { Chooses (dues self.now) at run (entry_at self.now.state index) result }
    {
        self.registry.entry(index).1.pick(run, at)
    }

    /// The call of the action that the resource of that id begins at that moment: that of the first queued action, else that of
    /// the recurring monitor that is due first. `None` if there is no such resource, if an action runs, or if nothing is queued
    /// and no monitor is due.
    pub fn choose(&self, id: &RscId, now: Moment) -> Option<CallId>
        ensures { IsChoice self.now id.now now result }
    {
        match self.registry.get(id) {
            Some(resource) if resource.ops.is_busy() => resource.choose(now),
            Some(_) => self.registry.due_of(id, now),
            None => None,
        }
    }

    /// Computes the next moment at which a resource may begin an action, unless it is cached since the last event. Contracts
    /// see no change.
    pub fn find_next_due(&mut self)
        ensures { self.new ≡ self.old }
    {
        self.registry.find_next_due();
    }

    /// The least moment, in milliseconds since 1970, at which a recurring monitor is due; `None` exactly if there is none.
    pub fn first_due(&self) -> Option<u64>
        ensures { IsFirstMoment (all_pairs self.now.monitors) result }
    {
        self.registry.first_due()
    }

    /// Whether the moment that `find_next_due` cached shows that no resource begins an action at `now`. `false` shows nothing.
    pub fn rests(&self, now: Moment) -> bool
        ensures { IsTrue result → Rests self.now now }
    {
        self.registry.rests(now)
    }
}

impl<A: Grows> Registered<A> {
    /// The action that the resource begins now, as it will run under that run number.
    fn pick(&self, run: RunId, at: Moment) -> Option<Running>
        ensures { (call : Option ℕ)
            × IsPickOf self.now.ops.running self.now.ops.queue (pairs self.now.monitors) at call
            × (result ≡ run_of_pick at run (seen self.now) call) }
    {
        let call = self.choose(at)?;
        self.ops.next(self.monitors.of_call(call), run, at)
    }

    /// The call that the resource begins now, if any.
    fn choose(&self, now: Moment) -> Option<CallId>
        ensures { IsPickOf self.now.ops.running self.now.ops.queue
            (pairs self.now.monitors) now result }
    {
        if self.ops.running().is_some() {
            return None;
        }
        if self.ops.queue_len() > 0 {
            return Some(self.ops.queued_at(0).call);
        }
        self.monitors.due(now)
    }

    /// A moment before which the resource begins nothing, as long as it does not change.
    pub(crate) fn rests_until(&self) -> u64
        ensures { (now : ℕ) → now < result
            → IsPickOf self.now.ops.running self.now.ops.queue (pairs self.now.monitors) now None }
    {
        if self.ops.running().is_some() {
            return u64::MAX;
        }
        if self.ops.queue_len() != 0 {
            return 0;
        }
        self.monitors.first_due().unwrap_or(u64::MAX)
    }
}
