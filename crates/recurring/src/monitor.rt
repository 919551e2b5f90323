//! A recurring monitor with its due moment.
ghost use Rattle.std.specs.Prelude.{◌≡◌};
ghost use Rattle.recurring.specs.Monitors.{settled_one, due_at};

use ocf_types::{CallId, Check, Millis, Moment, Recur};
use std::default::MadeWith;

/// A recurring monitor and its due moment.
#[derive(Clone, Copy)]
pub struct Monitor {
    pub recur: Recur,
    /// In milliseconds. It may exceed the greatest moment by an interval at most; then it is never reached.
    pub due: u64,
}

impl Monitor {
    /// Updates the monitor after a run of that call ended at that moment: if the call is its own, it is due its interval later.
    pub(crate) fn settle(&mut self, call: CallId, ended_at: Moment)
        ensures { self.new ≡ settled_one call ended_at self.old }
    {
        if self.recur.call == call {
            self.due = ended_at.get() + u64::from(self.recur.interval.get());
        }
    }

    /// The monitor, due at that moment.
    pub(crate) fn due_at(self, due: u64) -> Monitor
        ensures { result ≡ due_at due self }
    {
        Monitor {
            recur: self.recur,
            due,
        }
    }
}

/// Fills the unused entries of the list, which contracts do not see.
impl MadeWith<()> for Monitor {
    fn made_with(_: ()) -> Monitor {
        let (Some(call), Some(interval)) = (CallId::new(1), Millis::new(1)) else {
            unreachable!()
        };
        let recur = Recur {
            call,
            interval,
            timeout: interval,
            check: Check::plain(),
        };
        Monitor { recur, due: 0 }
    }
}
