//! Agents as processes of the system.
ghost use Rattle.std.specs.Prelude.{◌≡◌, ◌<◌, ◌≤◌, ◌++◌, [], ℕ, List, Contains, IfOk, IsTrue, OnErr, length, take};
ghost use Rattle.agent_system.specs.SystemView.{SystemView};
ghost use Rattle.agents_file.specs.declared.entry.AgentEntry.{AgentEntry};
ghost use Rattle.child_keeper.specs.Keepers.{EndsAll, EndsFrom, IsGivenUp, IsIdle, IsPolled, StartsAs};
ghost use Rattle.child_keeper.specs.Openings.{AreFound, OnlyOpens};
ghost use Rattle.child_keeper.specs.Processes.{ProcessesInvariant, ProcessesView, RunOneAtATime, fresh_processes, given_up_ids, given_up_processes, processes_of};
ghost use Rattle.child_model.specs.Children.{AllEnded, Ended, after_kill, after_poll, after_start, emptied, live_limit};
ghost use Rattle.child_model.specs.MayStart.{MayStart};

use crate::agents::Agents;
use crate::book::Book;
use crate::keeper::Keeper;
use crate::opening::{Upkeep, find_orphans};
use crate::{Children, Entry, KillFault, Poll};
use agent_logs::Log;
use agent_system::laws::{lemma_apart, lemma_over};
use agent_system::{AgentSystem, leading_of};
use agents_file::SLOTS;
use growth::{GROWTH_LIMIT, Grows};
use ocf_env::Launch;
use ocf_types::{Orphan, RscId, RunId, StartFault};
use std::alloc::{AllocError, Allocator, Global};
use std::io::Eprint;
use std::marker::Model;
use std::rt::Clock;
use store_model::Store;

/// Agents as processes of the system. Each runs in the root directory with exactly the variables of its launch, reads nothing and
/// writes where the log says. It has no descriptor but 0, 1 and 2, blocks no signal, is ended by SIGPIPE, and has the umask of
/// this process. It leads a session and a process group of its own, if a program is found that does this. OCF Resource Agent API 1.1,
/// actions; POSIX, setsid.
///
/// Each agent is entered into the record of who runs before the launcher runs it; without the launcher, just after it was spawned. The
/// entry goes when its processes have ended. An agent that cannot be entered is not run, unless it is to stop its resource.
///
/// `kill` only gives an agent up; `end_killed` ends all given up, each with its process group and the descendants of both. It waits for
/// their end a tenth of a second at most. Whatever lives on holds its resource, and is killed again each second.
/// An agent that an earlier executor left running holds its resource until it ends, or is killed when its time is over. Both are
/// reported on standard error when they begin and when they are over.
///
/// A spawn takes memory from the allocator; so does the search of `end_killed`, which without it kills the groups, the agents and what
/// it found before. A spawn is refused as [`StartFault::Other`] if memory or descriptors have run out, if a process of the resource may
/// still live, or for any cause but a missing file or permission; the error is then reported on standard error. So is the signal that
/// ended an agent.
#[derive(Drop)]
pub struct Processes<R: AgentSystem + Clock + Eprint + Drop, A: Allocator + Copy = Global> {
    keeper: Keeper<R, R::Child, A>,
}

impl<R: AgentSystem + Clock + Eprint + Drop, A: Allocator + Copy> Model for Processes<R, A> {
    ghost use Rattle.agent_system.specs.Commands.{leader_of};
    ghost use Rattle.child_keeper.specs.Keepers.{KeeperInvariant, children_of};
    ghost use Rattle.child_keeper.specs.Processes.{ProcessesView};

    ghost Value = { ProcessesView };

    ghost view = { λ p. record { children = children_of p.keeper; system = R.view p.keeper.rt; leader = leader_of p.keeper.leading } };

    ghost invariant = { λ p. KeeperInvariant R.view R.process_of p.keeper };
}

impl<R: AgentSystem + Clock + Eprint + Drop, A: Grows> Processes<R, A> {
    /// No agent processes yet; they will write to this log. The book has the capacity for this many entries. Its memory and that for
    /// all processes that may live are taken here. What an earlier executor left running is found by the record of who runs, and
    /// returned: their resources are held, unless the options say otherwise. It fails where memory is refused, and for a book of more
    /// than [`GROWTH_LIMIT`] entries.
    pub fn new(
        mut rt: R,
        alloc: A,
        log: Log,
        book: usize,
        upkeep: Upkeep<'_>,
    ) -> Result<(Processes<R, A>, Vec<Orphan, A>), AllocError>
        requires idle { IsIdle (R.view rt) }
        ensures children { IfOk result (λ made. (held : List (List ℕ))
            × (made.0.children ≡ fresh_processes book held)) }
        ensures opens { IfOk result (λ made. OnlyOpens (R.view rt) made.0.system) }
        ensures found { IfOk result (λ made. (entries : List AgentEntry)
            × (made.0.system.found ≡ (R.view rt).found ++ entries)
            × AreFound (R.view rt) made.0.system upkeep.entry.leave (take SLOTS entries)
            (given_up_processes made.0.system.sights.given_up) made.1.items) }
        ensures held { IfOk result
            (λ made. made.0.children.held ≡ given_up_ids made.0.system.sights.given_up) }
        ensures memory { OnErr result (book ≤ GROWTH_LIMIT → IsTrue A.refuses) }
    {
        let book = Book::new(alloc, book)?;
        let agents = Agents::new(alloc)?;
        let leading = leading_of(&rt, alloc, upkeep.groups)?;
        let orphans = find_orphans(&mut rt, alloc, upkeep)?;
        let shown = orphans.waits.waits.len();
        let keeper = Keeper {
            rt,
            alloc,
            log,
            leading,
            roster: orphans.record,
            book,
            agents,
            waits: orphans.waits,
            shown,
            last_run: 0,
        };
        Ok((Processes { keeper }, orphans.left))
    }
}

impl<R: AgentSystem + Clock + Eprint + Drop, A: Allocator + Copy> Processes<R, A> {
    /// What the system shows is what the children say, as a lemma. It does nothing.
    pub fn lemma_known(&self)
        ensures known { ProcessesInvariant self.now }
    {
        let _ = &self.keeper;
    }

    /// One action of each resource has processes at a time, as far as the system's answers say, as a lemma. It does nothing.
    pub fn lemma_one_at_a_time(&self)
        ensures law { RunOneAtATime self.now.system }
    {
        self.keeper.rt.lemma_history();
        lemma_apart();
        lemma_over();
    }
}

impl<R: AgentSystem + Clock + Eprint + Drop, A: Allocator + Copy> Children for Processes<R, A> {
    ghost use Rattle.child_keeper.specs.Processes.{processes_of};

    ghost view = { processes_of };

    fn start<S: Store, L: Allocator>(
        &mut self,
        store: &S,
        launch: &Launch<L>,
    ) -> Result<(), StartFault>
        requires room { 0 < self.old.children.room }
        requires few { length self.old.children.live < live_limit }
        requires rising { self.old.children.last_run < launch.now.run }
        requires ended { self.old.children.given_up ≡ [] }
        requires may_start { MayStart self.old.children.site (S.view store.now) launch.now }
        ensures started { self.new.children
            ≡ after_start self.old.children launch.now.run (S.view store.now).clock result }
        ensures system { StartsAs launch.now self.old.leader result self.old.system self.new.system }
        ensures leader { self.new.leader ≡ self.old.leader }
    {
        self.keeper.start(store, launch)
    }

    fn poll(&mut self, run: RunId) -> Poll
        requires room { 0 < self.old.children.room }
        requires lives { Contains self.old.children.live run }
        ensures polled { self.new.children ≡ after_poll self.old.children run result }
        ensures system { IsPolled run result self.old.system self.new.system }
        ensures leader { self.new.leader ≡ self.old.leader }
    {
        self.keeper.poll(run)
    }

    fn kill(&mut self, run: RunId) -> Result<(), KillFault>
        requires room { 0 < self.old.children.room }
        requires lives { Contains self.old.children.live run }
        ensures killed { self.new.children ≡ after_kill self.old.children run result }
        ensures system { IsGivenUp run self.old.system self.new.system }
        ensures leader { self.new.leader ≡ self.old.leader }
    {
        self.keeper.kill(run)
    }

    fn end_killed(&mut self)
        ensures ended { Ended self.old.children self.new.children }
        ensures held { self.new.children.held ≡ given_up_ids self.new.system.sights.given_up }
        ensures system { EndsFrom (length self.old.children.held) self.old.system self.new.system }
        ensures leader { self.new.leader ≡ self.old.leader }
    {
        self.keeper.end_killed();
    }

    fn give_up_all(&mut self)
        ensures ended { AllEnded self.old.children self.new.children }
        ensures held { self.new.children.held ≡ given_up_ids self.new.system.sights.given_up }
        ensures system { EndsAll (length self.old.children.held) self.old.system self.new.system }
        ensures leader { self.new.leader ≡ self.old.leader }
    {
        self.keeper.give_up_all();
    }

    fn clear_book(&mut self)
        ensures emptied { self.new.children ≡ emptied self.old.children }
        ensures system { self.new.system ≡ self.old.system }
        ensures leader { self.new.leader ≡ self.old.leader }
    {
        self.keeper.book.clear();
    }

    fn last_run(&self) -> u64 {
        self.keeper.last_run
    }

    fn book(&self) -> &[Entry] {
        self.keeper.book.entries.as_slice()
    }

    fn room(&self) -> usize {
        self.keeper.book.room
    }

    fn holds(&self, id: &RscId) -> bool {
        self.keeper.is_held(id)
    }

    fn is_live(&self, run: RunId) -> bool {
        self.keeper.agents.contains(run)
    }

    fn live_count(&self) -> usize {
        self.keeper.agents.len()
    }
}
