//! Operations of a resource: queued, recurring, running and ended. Pacemaker Explained, resource operations.
use crate::action::{Action, Check, Task};
use crate::numbers::{CallId, Millis, Moment, RunId};
use crate::outcome::Outcome;
use std::default::MadeWith;

/// A one-time action that is queued.
#[derive(Clone, Copy)]
pub struct Op {
    pub call: CallId,
    pub task: Task,
    pub timeout: Millis,
}

/// A recurring monitor.
#[derive(Clone, Copy)]
pub struct Recur {
    pub call: CallId,
    pub interval: Millis,
    pub timeout: Millis,
    pub check: Check,
}

/// Fills the unused entries of a list of fixed capacity, which contracts do not see.
impl MadeWith<()> for Recur {
    fn made_with(_: ()) -> Recur {
        let (Some(call), Some(interval)) = (CallId::new(1), Millis::new(1)) else {
            unreachable!()
        };
        Recur {
            call,
            interval,
            timeout: interval,
            check: Check::plain(),
        }
    }
}

/// The action that runs.
#[derive(Clone, Copy)]
pub struct Running {
    pub call: CallId,
    pub run: RunId,
    pub task: Task,
    pub timeout: Millis,
    /// In milliseconds; 0 for a one-time action.
    pub interval: u32,
    /// When it began.
    pub since: Moment,
}

/// The result of an action.
#[derive(Clone, Copy)]
pub struct Ended {
    pub call: CallId,
    /// The run number; 0 exactly when the action was dropped or cancelled: it never began.
    pub run: u64,
    pub action: Action,
    /// In milliseconds; 0 for a one-time action.
    pub interval: u32,
    /// When it began; the same as its end if it never did.
    pub since: Moment,
    /// When it ended.
    pub at: Moment,
    pub outcome: Outcome,
}
