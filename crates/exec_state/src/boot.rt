//! The changes of a state by an opening: the boot that it records, and the due moments.
ghost use Rattle.std.specs.Prelude.{◌≡◌};
ghost use Rattle.ocf_model.specs.Due.{due_at};
ghost use Rattle.ocf_model.specs.Boot.{any_busy, boot_event};
ghost use Rattle.ocf_model.specs.Answer.{moment};
ghost use Rattle.exec_state.specs.StateValue.{dues, monitors_due_at};

use crate::state::State;
use growth::Grows;
use ocf_types::{Change, Event, EventOf, Moment};

impl<A: Grows> State<A> {
    /// The boot that an opening at `now`, in milliseconds since 1970, records; `None` if no action is queued or running.
    pub fn boot(&self, now: u64) -> Option<Event<A>>
        ensures { result ≡ boot_event self.now.state (moment self.now.state now) }
    {
        if self.registry.any_busy() {
            Some(EventOf {
                at: self.moment(now),
                change: Change::Boot,
            })
        } else {
            None
        }
    }

    /// Makes every recurring monitor due at that moment, as an opening does.
    #[tactic(auto, using(crate::proofs::Rooms::lawful_same))]
    pub fn restart(&mut self, at: Moment)
        ensures state { self.new.state ≡ self.old.state }
        ensures monitors { self.new.monitors ≡ monitors_due_at at self.old.state }
        ensures due { dues self.new ≡ due_at self.old.state at }
        ensures allocator { self.new.refuses ≡ self.old.refuses }
    {
        self.registry.restart(at);
        self.registry.lemma_known();
    }

    /// Whether some resource has an action queued or running.
    pub fn is_busy(&self) -> bool
        ensures { result ≡ any_busy self.now.state }
    {
        self.registry.any_busy()
    }
}
