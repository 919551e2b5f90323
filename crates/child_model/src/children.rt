//! Agent processes as the executor sees them.
ghost use Rattle.std.specs.Prelude.{◌≡◌, ◌↔◌, ◌<◌, [], Contains, IsTrue, length};
ghost use Rattle.child_model.specs.Children.{AllEnded, ChildrenView, Ended, after_kill, after_poll, after_start, emptied, is_held, live_limit};
ghost use Rattle.child_model.specs.MayStart.{MayStart};

use crate::{Entry, KillFault, Poll};
use ocf_env::Launch;
use ocf_types::{RscId, RunId, StartFault};
use std::alloc::Allocator;
use store_model::Store;

/// The children: agent processes, each under its run number, and the book of their answers. They may name the only site at which
/// they start agents; those of `child_keeper` name none.
///
/// `start`, `poll` and `kill` add one entry each, with the answer that they return. Memory is allocated only to spawn an
/// agent and to end agents, which may search for what they started.
///
/// An agent that was killed, or whose poll failed, is given up: it is ended by the next `end_killed`, before which nothing is
/// started. A resource is held while processes are known to live of an action of it that was given up, or that an earlier process of
/// the executor left; the executor begins nothing for it. Which resources are held changes only in `end_killed` and `give_up_all`.
pub trait Children {
    ghost view: { Self → ChildrenView };

    /// Spawns an agent. Its begin must be durable in the store. Its run then lives, unless the start is refused, by the system
    /// or by these children. Nothing is left given up.
    fn start<S: Store, L: Allocator>(
        &mut self,
        store: &S,
        launch: &Launch<L>,
    ) -> Result<(), StartFault>
        requires room { 0 < (view self.old).room }
        requires few { length (view self.old).live < live_limit }
        requires rising { (view self.old).last_run < launch.now.run }
        requires ended { (view self.old).given_up ≡ [] }
        requires may_start { MayStart (view self.old).site (S.view store.now) launch.now }
        ensures started { view self.new
            ≡ after_start (view self.old) launch.now.run
            (S.view store.now).clock result };

    /// Polls the agent process of a run. If it has ended, or the system fails to answer, the run no longer lives; in the second case
    /// its process is given up.
    fn poll(&mut self, run: RunId) -> Poll
        requires room { 0 < (view self.old).room }
        requires lives { Contains (view self.old).live run }
        ensures polled { view self.new ≡ after_poll (view self.old) run result };

    /// Gives an agent process up, to be killed. Its run no longer lives, whatever the system answers. It ends in the next
    /// `end_killed`, together with all others that were given up.
    fn kill(&mut self, run: RunId) -> Result<(), KillFault>
        requires room { 0 < (view self.old).room }
        requires lives { Contains (view self.old).live run }
        ensures killed { view self.new ≡ after_kill (view self.old) run result };

    /// Asks for the end of all that were given up since the last call, each with its processes, together; processes may live on. From
    /// here on those resources are held of whose ended actions processes are known to live.
    fn end_killed(&mut self)
        ensures ended { Ended (view self.old) (view self.new) };

    /// Gives up every agent process that lives, and asks for the end of all that were given up, each with its processes; processes may
    /// live on. It adds no entry.
    fn give_up_all(&mut self)
        ensures ended { AllEnded (view self.old) (view self.new) };

    /// Clears the book.
    fn clear_book(&mut self)
        ensures emptied { view self.new ≡ emptied (view self.old) };

    /// The greatest run for which a start was called, 0 if none was.
    fn last_run(&self) -> u64
        ensures value { result ≡ (view self.now).last_run };

    /// The answers since the book was last cleared, in order.
    fn book(&self) -> &[Entry]
        ensures value { result.now ≡ (view self.now).book };

    /// How many more entries fit into the book.
    fn room(&self) -> usize
        ensures value { result ≡ (view self.now).room };

    /// Whether a resource is held.
    fn holds(&self, id: &RscId) -> bool
        ensures value { result ≡ is_held (view self.now).held id.now };

    /// Whether a run lives.
    fn is_live(&self, run: RunId) -> bool
        ensures value { IsTrue result ↔ Contains (view self.now).live run };

    /// How many runs live.
    fn live_count(&self) -> usize
        ensures value { result ≡ length (view self.now).live };
}
