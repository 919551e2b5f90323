//! The call of a recurring monitor with its due moment.
ghost use Rattle.std.specs.Prelude.{◌≡◌, ◌≤◌, ◌↔◌, ◌⊎◌, ℕ, List, [], ◌∷◌, ◌++◌, IsTrue};
ghost use Rattle.ocf_model.specs.Due.{IsBefore};
ghost use Rattle.recurring.specs.Monitors.{IsFirstMoment};
ghost use Rattle.recurring.specs.DueCalls.{pair_of, due_call_of, settled_call, IsFirstDue};

use crate::monitor::Monitor;
use ocf_types::{CallId, Moment};
use std::default::MadeWith;

/// The call of a recurring monitor, and its due moment.
#[derive(Clone, Copy)]
pub(crate) struct DueCall {
    /// In milliseconds.
    pub(crate) due: u64,
    pub(crate) call: CallId,
}

impl DueCall {
    /// The call of that monitor, with its due moment.
    pub(crate) fn of(monitor: &Monitor) -> DueCall
        ensures { result ≡ due_call_of monitor.now }
    {
        DueCall {
            due: monitor.due,
            call: monitor.recur.call,
        }
    }

    /// Due at that moment if its call is this one; else unchanged.
    pub(crate) fn settled(self, call: CallId, due: u64) -> DueCall
        ensures { result ≡ settled_call call due self }
    {
        if self.call == call {
            DueCall {
                due,
                call: self.call,
            }
        } else {
            self
        }
    }

    /// Whether it is due at that moment.
    fn is_due(&self, now: Moment) -> bool
        ensures { IsTrue result ↔ (self.now.due ≤ now) }
    {
        self.due <= now.get()
    }

    /// Whether it comes before the other: due earlier, or at the same moment with no higher call.
    fn is_before(&self, other: &DueCall) -> bool
        ensures { IsTrue result ↔ IsBefore (pair_of self.now) (pair_of other.now) }
    {
        self.due < other.due || (self.due == other.due && self.call <= other.call)
    }

    /// The one of the two that comes before the other.
    fn first_of(self, other: DueCall) -> DueCall
        ensures one { (result ≡ self) ⊎ (result ≡ other) }
        ensures before_self { IsBefore (pair_of result) (pair_of self) }
        ensures before_other { IsBefore (pair_of result) (pair_of other) }
    {
        if self.is_before(&other) { self } else { other }
    }

    /// The first due call: this one, or the first of the others.
    pub(crate) fn first_due(self, others: Option<DueCall>, now: Moment) -> Option<DueCall>
        ensures { (xs : List (ℕ × ℕ)) → IsFirstDue xs now others
            → IsFirstDue (xs ++ pair_of self ∷ []) now result }
    {
        if !self.is_due(now) {
            return others;
        }
        match others {
            None => Some(self),
            Some(other) => Some(self.first_of(other)),
        }
    }

    /// The least due moment: this one's, or the least of the others.
    pub(crate) fn first_moment(self, others: Option<u64>) -> Option<u64>
        ensures { (xs : List (ℕ × ℕ)) → IsFirstMoment xs others
            → IsFirstMoment (xs ++ pair_of self ∷ []) result }
    {
        match others {
            None => Some(self.due),
            Some(other) => Some(self.due.min(other)),
        }
    }
}

/// Fills the unused entries of the list, which contracts do not see.
impl MadeWith<()> for DueCall {
    fn made_with(_: ()) -> DueCall {
        DueCall {
            due: 0,
            call: CallId::made_with(()),
        }
    }
}
