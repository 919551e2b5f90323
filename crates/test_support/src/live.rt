//! The runs whose agent processes live, and those that were given up.
ghost use Rattle.std.specs.Prelude.{◌≡◌, ◌↔◌, ◌+◌, ◌<◌, ◌≤◌, ◌++◌, [], ◌∷◌, Contains, IfOk, IsTrue, length, vec_len};
ghost use Rattle.std.specs.Vec.{vec_capacity};
ghost use Rattle.child_model.specs.Children.{without_run, live_limit};

use child_keeper::LIVE_LIMIT;
use growth::{Grows, Refused, with_capacity};
use ocf_types::RunId;
use std::alloc::Allocator;

/// The live runs, in the order in which they were spawned, and the runs that were given up, in the order in which that happened.
#[derive(Drop)]
pub struct LiveRuns<A: Allocator> {
    pub runs: Vec<RunId, A>,
    pub given_up: Vec<RunId, A>,
    pub ghost room: { live_limit ≤ vec_capacity runs },
    pub ghost room_given_up: { live_limit ≤ vec_capacity given_up },
    pub ghost few: { vec_len runs + vec_len given_up ≤ live_limit },
}

impl<A: Grows> LiveRuns<A> {
    /// Empty lists with the capacity for all that may live. It fails only where memory is refused.
    pub fn new(alloc: A) -> Result<LiveRuns<A>, Refused<A>>
        ensures empty { IfOk result (λ l. l.runs.items ≡ []) }
        ensures none { IfOk result (λ l. l.given_up.items ≡ []) }
    {
        let runs = with_capacity(alloc, LIVE_LIMIT)?;
        let given_up = with_capacity(alloc, LIVE_LIMIT)?;
        Ok(LiveRuns { runs, given_up })
    }
}

impl<A: Allocator> LiveRuns<A> {
    /// Adds a live run. It takes no memory.
    pub fn add(&mut self, run: RunId)
        requires few { length self.old.runs.items < LIVE_LIMIT }
        requires ended { self.old.given_up.items ≡ [] }
        ensures added { self.new.runs.items ≡ self.old.runs.items ++ run ∷ [] }
        ensures given_up { self.new.given_up.items ≡ self.old.given_up.items }
    {
        self.runs.push_reserved(run);
    }

    /// Removes a run.
    pub fn remove(&mut self, run: RunId)
        ensures removed { self.new.runs.items ≡ without_run run self.old.runs.items }
        ensures fewer { Contains self.old.runs.items run
            → vec_len self.new.runs + 1 ≤ vec_len self.old.runs }
        ensures given_up { self.new.given_up ≡ self.old.given_up }
    {
        self.runs.retain(|live| live.get() != run.get());
    }

    /// Gives a live run up. It takes no memory.
    pub fn give_up(&mut self, run: RunId)
        requires lives { Contains self.old.runs.items run }
        ensures removed { self.new.runs.items ≡ without_run run self.old.runs.items }
        ensures given_up { self.new.given_up.items ≡ self.old.given_up.items ++ run ∷ [] }
    {
        self.remove(run);
        self.given_up.push_reserved(run);
    }

    /// Forgets the runs that were given up.
    pub fn forget_given_up(&mut self)
        ensures runs { self.new.runs.items ≡ self.old.runs.items }
        ensures none { self.new.given_up.items ≡ [] }
    {
        self.given_up.clear();
    }

    /// Removes all runs.
    pub fn clear(&mut self)
        ensures empty { self.new.runs.items ≡ [] }
        ensures none { self.new.given_up.items ≡ [] }
    {
        self.runs.clear();
        self.given_up.clear();
    }

    /// Whether a run lives.
    pub fn contains(&self, run: RunId) -> bool
        ensures live { IsTrue result ↔ Contains self.now.runs.items run }
    {
        self.runs.iter().any(|live| live.get() == run.get())
    }
}
