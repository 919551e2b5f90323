//! The recurring monitors of one resource.
ghost use Rattle.std.specs.Prelude.{◌≡◌, ◌↔◌, ◌<◌, ◌≤◌, [], ◌∷◌, ◌++◌, length, slice_get, nat_le, is_some, None, IsErr, OnOk, OnErr};
ghost use Rattle.std.specs.Result.{result_err};
ghost use Rattle.ocf_model.specs.Resource.{of_call, of_interval, without_interval};
ghost use Rattle.ocf_model.specs.Due.{IsLeastDue};
ghost use Rattle.recurring.specs.Monitors.{recurs, pairs, monitor_due_at, all_due_at, cancelled, refusal_of, settled, restarted, IsFirstMoment};

use crate::due_call::DueCall;
use crate::monitor::Monitor;
use arrayvec::ArrayVec;
use ocf_types::{CallId, Millis, Moment, RECURRING_LIMIT, Recur};
use std::marker::Model;
use thiserror::Error;

/// Why a recurring monitor is not added.
#[derive(Clone, Copy, Debug, PartialEq, Eq, Error)]
pub enum NotAdded {
    /// There is a monitor of this interval already.
    #[error("a recurring monitor of this resource has this interval")]
    Duplicate,
    /// There are [`RECURRING_LIMIT`] monitors already.
    #[error("this resource has the greatest allowed number of recurring monitors")]
    RecurringFull,
}

/// No recurring monitor has that interval.
#[derive(Clone, Copy, Debug, PartialEq, Eq, Error)]
#[error("no recurring monitor of this resource has this interval")]
pub struct NoSuchRecurring;

/// The recurring monitors of one resource with their due moments, in order of acceptance: at most
/// [`RECURRING_LIMIT`]. No call takes memory.
#[derive(Drop)]
pub struct Recurrings {
    monitors: ArrayVec<Monitor, { RECURRING_LIMIT }>,
}

impl Model for Recurrings {
    ghost use Rattle.std.specs.Prelude.{List};
    ghost use Rattle.recurring.specs.declared.monitor.Monitor.{Monitor};

    ghost Value = { List Monitor };

    ghost view = { λ r. r.monitors.items };
}

impl Recurrings {
    /// No monitors.
    pub fn new() -> Recurrings
        ensures { result ≡ [] }
    {
        Recurrings {
            monitors: ArrayVec::new_in(()),
        }
    }

    /// A list of these monitors, each due at that moment.
    pub fn due_at(recurs: &[Recur], due: Moment) -> Recurrings
        requires { length recurs.now ≤ RECURRING_LIMIT }
        ensures { result ≡ all_due_at due recurs.now }
    {
        let mut monitors = ArrayVec::new_in(());
        let due = due.get();
        for recur in recurs {
            let recur = *recur;
            monitors.push(Monitor { recur, due });
        }
        Recurrings { monitors }
    }

    /// The number of monitors, at most [`RECURRING_LIMIT`].
    pub fn len(&self) -> usize
        ensures value { result ≡ length self.now }
        ensures limit { result ≤ RECURRING_LIMIT }
    {
        self.monitors.len()
    }

    /// The monitors, in order of acceptance.
    pub(crate) fn as_slice(&self) -> &[Monitor]
        ensures value { result.now ≡ self.now }
        ensures limit { length result.now ≤ RECURRING_LIMIT }
    {
        self.monitors.as_slice()
    }

    /// The monitor at an index, from 0, in order of acceptance.
    pub fn monitor_at(&self, at: usize) -> Monitor
        requires { at < length self.now }
        ensures { slice_get self.now at ≡ Some result }
    {
        self.monitors.as_slice()[at]
    }

    /// Whether there are 8 monitors, so that none can be added.
    pub fn is_full(&self) -> bool
        ensures value { result ≡ nat_le RECURRING_LIMIT (length self.now) }
        ensures limit { length self.now ≤ RECURRING_LIMIT }
    {
        self.monitors.len() >= RECURRING_LIMIT
    }

    /// The monitor of that call.
    pub fn of_call(&self, call: CallId) -> Option<Recur>
        ensures { result ≡ of_call call (recurs self.now) }
    {
        self.monitors
            .as_slice()
            .iter()
            .map(|m| m.recur)
            .find(|m| m.call == call)
    }

    /// Whether there is a monitor of that interval.
    pub fn has_interval(&self, interval: Millis) -> bool
        ensures { result ≡ is_some (of_interval interval (recurs self.now)) }
    {
        self.of_interval(interval).is_some()
    }

    /// The monitor of that interval.
    fn of_interval(&self, interval: Millis) -> Option<Recur>
        ensures { result ≡ of_interval interval (recurs self.now) }
    {
        self.monitors
            .as_slice()
            .iter()
            .map(|m| m.recur)
            .find(|m| m.interval == interval)
    }

    /// Appends a monitor, due at that moment. It is refused exactly when there is one of its interval, or else when there are
    /// [`RECURRING_LIMIT`] monitors; then nothing changes.
    pub fn add(&mut self, recur: Recur, due: Moment) -> Result<(), NotAdded>
        ensures refused { result_err result ≡ refusal_of recur self.old }
        ensures unchanged { OnErr result (self.new ≡ self.old) }
        ensures monitors { OnOk result (self.new ≡ self.old ++ monitor_due_at due recur ∷ []) }
        ensures recurs { OnOk result (recurs self.new ≡ recurs self.old ++ recur ∷ []) }
    {
        if self.has_interval(recur.interval) {
            return Err(NotAdded::Duplicate);
        }
        if self.is_full() {
            return Err(NotAdded::RecurringFull);
        }
        let due = due.get();
        self.monitors.push(Monitor { recur, due });
        Ok(())
    }

    /// Removes the monitor of that interval. It is refused exactly when there is none; then nothing changes.
    pub fn cancel(&mut self, interval: Millis) -> Result<(), NoSuchRecurring>
        ensures refused { IsErr result ↔ (of_interval interval (recurs self.old) ≡ None) }
        ensures unchanged { OnErr result (self.new ≡ self.old) }
        ensures monitors { OnOk result (self.new ≡ cancelled interval self.old) }
        ensures recurs { OnOk result
            (recurs self.new ≡ without_interval interval (recurs self.old)) }
    {
        if !self.has_interval(interval) {
            return Err(NoSuchRecurring);
        }
        self.monitors.retain(|m| m.recur.interval != interval);
        Ok(())
    }

    /// Updates the monitor of that call after a run of it ended at that moment: it is due its interval later. If there is none,
    /// nothing changes.
    pub fn settle(&mut self, call: CallId, ended_at: Moment)
        ensures due { self.new ≡ settled call ended_at self.old }
        ensures recurs { recurs self.new ≡ recurs self.old }
    {
        for m in self.monitors.as_mut_slice() {
            m.settle(call, ended_at);
        }
    }

    /// Makes every monitor due at that moment.
    pub fn restart(&mut self, at: Moment)
        ensures due { self.new ≡ restarted at self.old }
        ensures recurs { recurs self.new ≡ recurs self.old }
    {
        for m in self.monitors.as_mut_slice() {
            *m = m.due_at(at.get());
        }
    }

    /// The call of the first due monitor: of the least due moment, and among equals the lowest call. `None` exactly when none is
    /// due.
    pub fn due(&self, now: Moment) -> Option<CallId>
        ensures { IsLeastDue (pairs self.now) now result }
    {
        let mut first: Option<DueCall> = None;
        for m in self.monitors.as_slice() {
            first = DueCall::of(m).first_due(first, now);
        }
        first.map(|d| d.call)
    }

    /// The least due moment, in milliseconds; `None` exactly when there are no monitors.
    pub fn first_due(&self) -> Option<u64>
        ensures { IsFirstMoment (pairs self.now) result }
    {
        let mut first: Option<u64> = None;
        for m in self.monitors.as_slice() {
            first = DueCall::of(m).first_moment(first);
        }
        first
    }
}
