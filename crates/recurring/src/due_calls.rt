//! The calls of one resource's recurring monitors with their due moments.
ghost use Rattle.std.specs.Prelude.{◌≡◌, ◌+◌, ◌<◌, ◌≤◌, ◌++◌, ◌∷◌, [], length, take, drop};
ghost use Rattle.ocf_model.specs.Due.{IsLeastDue};
ghost use Rattle.recurring.specs.Monitors.{pairs, IsFirstMoment};
ghost use Rattle.recurring.specs.DueIndex.{pairs_without, pairs_settled};

use crate::due_call::DueCall;
use crate::recurrings::Recurrings;
use arrayvec::ArrayVec;
use ocf_types::{CallId, Moment, RECURRING_LIMIT};
use std::marker::Model;

/// The calls of the recurring monitors of one resource, each with its due moment: at most [`RECURRING_LIMIT`]. Contracts
/// see them as pairs of due moment and call. No call takes memory.
#[derive(Drop)]
pub(crate) struct DueCalls {
    calls: ArrayVec<DueCall, { RECURRING_LIMIT }>,
}

impl Model for DueCalls {
    ghost use Rattle.std.specs.Prelude.{List, ℕ};
    ghost use Rattle.recurring.specs.DueCalls.{pairs_of};

    ghost Value = { List (ℕ × ℕ) };

    ghost view = { λ d. pairs_of d.calls.items };
}

impl DueCalls {
    /// No calls.
    pub(crate) fn new() -> DueCalls
        ensures { result ≡ [] }
    {
        DueCalls {
            calls: ArrayVec::new_in(()),
        }
    }

    /// Replaces the calls by those of these monitors, and returns the least of their due moments; `None` exactly when there are
    /// no monitors.
    pub(crate) fn renew(&mut self, monitors: &Recurrings) -> Option<u64>
        ensures calls { self.new ≡ pairs monitors.now }
        ensures first { IsFirstMoment (pairs monitors.now) result }
    {
        let monitors = monitors.as_slice();
        let calls = &mut self.calls;
        calls.truncate(monitors.len());
        let mut first = None;
        for index in 0..monitors.len() {
            let monitor = &monitors[index];
            put(calls, index, DueCall::of(monitor));
            first = DueCall::of(monitor).first_moment(first);
        }
        first
    }

    /// Appends a call.
    pub(crate) fn push(&mut self, call: CallId, due: u64)
        requires { length self.old < RECURRING_LIMIT }
        ensures { self.new ≡ self.old ++ (due, call) ∷ [] }
    {
        self.calls.push(DueCall { due, call });
    }

    /// Removes that call.
    pub(crate) fn remove(&mut self, call: CallId)
        ensures { self.new ≡ pairs_without call self.old }
    {
        self.calls.retain(|d| d.call != call);
    }

    /// Makes that call due at that moment.
    pub(crate) fn settle(&mut self, call: CallId, due: u64)
        ensures { self.new ≡ pairs_settled call due self.old }
    {
        for d in self.calls.as_mut_slice() {
            *d = d.settled(call, due);
        }
    }

    /// The first due call: of the least due moment, and among equals the lowest; `None` exactly when none is due.
    pub(crate) fn due(&self, now: Moment) -> Option<CallId>
        ensures { IsLeastDue self.now now result }
    {
        let mut first: Option<DueCall> = None;
        for d in self.calls.as_slice() {
            first = d.first_due(first, now);
        }
        first.map(|d| d.call)
    }

    /// The least due moment; `None` exactly when there are no calls.
    pub(crate) fn first_moment(&self) -> Option<u64>
        ensures { IsFirstMoment self.now result }
    {
        let mut first: Option<u64> = None;
        for d in self.calls.as_slice() {
            first = d.first_moment(first);
        }
        first
    }
}

/// Writes a call at an index, or appends it if the index is the length.
fn put(calls: &mut ArrayVec<DueCall, { RECURRING_LIMIT }>, index: usize, call: DueCall)
    requires index { index ≤ length calls.old.items }
    requires room { index < RECURRING_LIMIT }
    ensures { calls.new.items
        ≡ take index calls.old.items ++ call ∷ drop (index + 1) calls.old.items }
{
    if index < calls.len() {
        calls.as_mut_slice()[index] = call;
    } else {
        calls.push(call);
    }
}
