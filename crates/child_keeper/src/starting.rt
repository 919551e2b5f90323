//! How an agent is spawned and let run.
ghost use Rattle.std.specs.Prelude.{◌≡◌, ◌<◌, ◌≤◌, ◌+◌, ◌*◌, ◌++◌, [], ◌∷◌, ℕ, All, Contains, IfOk, None, OnOk, drop, length, true, vec_len};
ghost use Rattle.agent_system.specs.Commands.{leader_of};
ghost use Rattle.agent_system.specs.May.{IsFree, MaySpawn};
ghost use Rattle.agent_system.specs.SystemView.{after_give_up, after_let_run, after_spawn, started};
ghost use Rattle.child_keeper.specs.Agents.{IsIts};
ghost use Rattle.child_keeper.specs.Keepers.{BeginsAs, KeeperInvariant, StartsAs, children_of};
ghost use Rattle.child_keeper.specs.Waits.{IsFresh, IsWaitFor};
ghost use Rattle.child_keeper.specs.declared.wait.WaitOf.{WaitOf};
ghost use Rattle.child_model.specs.Children.{after_start, live_limit, noted, start_answer};
ghost use Rattle.child_model.specs.MayStart.{MayStart};
ghost use Rattle.process_ends.specs.Endings.{AreGivenUp, HasKilled, OnlyEnds, processes};
ghost use Rattle.process_ends.specs.declared.given_up.GivenUpAction.{GivenUpAction};

use crate::agents::Agent;
use crate::book::Book;
use crate::keeper::Keeper;
use crate::logging::{action_of, begun_of, log_refused};
use crate::moments::{millis_of, monotonic};
use crate::record::Record;
use crate::wait::wait_for;
use crate::waits::{WAIT_LIMIT, Waits};
use crate::{Answer, Entry};
use agent_logs::{Log, Uncopied};
use agent_system::{AgentSystem, How, Leading, check_program};
use agents_file::AgentEntry;
use ocf_env::Launch;
use ocf_types::{Action, RscId, StartFault};
use process_ends::kill_actions;
use std::alloc::Allocator;
use std::io::{self, Eprint, ErrorKind};
use std::rt::Clock;
use store_model::Store;

// An agent's process that was spawned, and what is to be copied of its output.
#[derive(Drop)]
struct Spawned<C: Drop> {
    child: C,
    uncopied: Uncopied,
}

// The action of a launch.
fn named<L: Allocator>(launch: &Launch<L>) -> io::Result<Action> {
    match Action::named(action_of(&launch.invocation)) {
        Some(action) => Ok(action),
        None => Err(io::Error::from(ErrorKind::InvalidInput)),
    }
}

// Writes to the log that a launch begins, and spawns its agent, or the launcher, which waits.
fn spawn<R: AgentSystem + Clock + Eprint, S: Store, L: Allocator, A: Allocator + Copy>(
    rt: &mut R,
    alloc: A,
    log: &Log,
    leading: &Leading<A>,
    store: &S,
    launch: &Launch<L>,
) -> io::Result<Spawned<R::Child>>
    requires may { MaySpawn (R.view rt.old).sights (S.view store.now) launch.now }
    ensures spawned { R.view rt.new
        ≡ after_spawn (R.view rt.old) launch.now.invocation (leader_of leading.now)
        (started (λ s. R.process_of s.child) result) }
    ensures run { IfOk result (λ s. (R.process_of s.child).run ≡ launch.now.run) }
    ensures id { IfOk result (λ s. (R.process_of s.child).id ≡ launch.now.id) }
{
    let outlet = log.begin(rt, &launch.id, &begun_of(launch))?;
    check_program(rt, alloc, leading, &launch.invocation)?;
    let how = How {
        leading,
        output: outlet.streams.output,
        errors: outlet.streams.errors,
    };
    let child = rt.spawn(store, launch, how)?;
    Ok(Spawned {
        child,
        uncopied: outlet.uncopied,
    })
}

// Enters an agent into the record, and then lets it run.
fn let_run<R: AgentSystem + Eprint, L: Allocator>(
    rt: &mut R,
    roster: Record,
    launch: &Launch<L>,
    agent: &mut Agent<R::Child>,
) -> io::Result<()>
    requires its { IsIts R.process_of agent.old }
    requires lives { Contains (R.view rt.old).sights.live agent.old.process }
    ensures its { IsIts R.process_of agent.new }
    ensures process { agent.new.process ≡ agent.old.process }
    ensures let_run { R.view rt.new ≡ after_let_run (R.view rt.old) agent.old.process result }
{
    let entry = AgentEntry {
        run: agent.process.run,
        id: agent.process.id.copied(),
        action: agent.action,
        pid: agent.process.pid,
        start: agent.process.start.unwrap_or(0),
        began: millis_of(agent.spawned_at),
        timeout: launch.timeout.get(),
    };
    agent.slot = roster.enter(rt, &entry)?;
    rt.let_run(&mut agent.child)
}

// Adds the wait for an agent whose processes are to be killed now. It takes no memory.
fn add_due<C: Drop, A: Allocator + Copy>(alloc: A, waits: &mut Waits<C, A>, agent: Agent<C>)
    requires room { vec_len waits.old.waits < WAIT_LIMIT }
    ensures added { (w : GivenUpAction WaitOf _ _) × IsWaitFor agent w × (w.is_due ≡ true)
        × (waits.new.waits.items ≡ waits.old.waits.items ++ w ∷ []) }
{
    let mut wait = wait_for(alloc, agent);
    wait.is_due = true;
    waits.waits.push_reserved(wait);
}

// Gives an agent up that is not let run, and kills it with all that belongs to it. Its wait begins then.
fn give_back<R: AgentSystem + Eprint, A: Allocator + Copy>(
    rt: &mut R,
    alloc: A,
    waits: &mut Waits<R::Child, A>,
    agent: Agent<R::Child>,
)
    requires its { IsIts R.process_of agent }
    requires lives { Contains (R.view rt.old).sights.live agent.process }
    requires room { vec_len waits.old.waits < WAIT_LIMIT }
    requires given_up { AreGivenUp R.process_of (R.view rt.old).sights waits.old.waits.items }
    ensures given_up { AreGivenUp R.process_of (R.view rt.new).sights waits.new.waits.items }
    ensures ends { OnlyEnds (after_give_up (R.view rt.old) agent.process) (R.view rt.new) }
    ensures killed { HasKilled (R.view rt.old) (R.view rt.new) agent.process }
    ensures processes { processes waits.new.waits.items
        ≡ processes waits.old.waits.items ++ agent.process ∷ [] }
    ensures fresh { (shown : ℕ) → shown ≤ vec_len waits.old.waits
        → All IsFresh (drop shown waits.old.waits.items)
        → All IsFresh (drop shown waits.new.waits.items) }
{
    rt.give_up(&agent.child);
    add_due(alloc, waits, agent);
    // what was not killed is killed again by the next `end_killed`
    let _ = kill_actions(rt, alloc, waits.waits.as_mut_slice());
}

// Adds the entry of a start to the book.
fn note_start<S: Store, L: Allocator, A: Allocator>(
    book: &mut Book<A>,
    store: &S,
    launch: &Launch<L>,
    answer: Result<(), StartFault>,
)
    requires room { 0 < book.old.room }
    ensures noted { book.new.entries.items
        ≡ noted book.old.entries.items launch.now.run (S.view store.now).clock (start_answer answer) }
    ensures logged { book.new.log.items
        ≡ noted book.old.log.items launch.now.run (S.view store.now).clock (start_answer answer) }
    ensures room { book.new.room + 1 ≡ book.old.room }
{
    book.note(Entry {
        run: launch.run,
        at: store.clock(),
        answer: Answer::Start(answer),
    });
}

impl<C: Drop, R: AgentSystem<Child = C> + Clock + Eprint + Drop, A: Allocator + Copy> Keeper<
    R,
    C,
    A,
> {
    // Why nothing may be spawned for a resource now: an earlier action of it is not over, or too many are not.
    fn check_free(&self, id: &RscId) -> io::Result<()>
        requires kept { KeeperInvariant R.view R.process_of self.now }
        requires ended { self.now.agents.given_up.items ≡ [] }
        ensures free { OnOk result (IsFree (R.view self.now.rt).sights id.now) }
        ensures room { OnOk result
            (vec_len self.now.waits.waits + vec_len self.now.agents.agents < 3 * live_limit) }
    {
        if self.waits.holds(id) || self.agents.has_of(id) {
            return Err(io::Error::new(
                ErrorKind::ResourceBusy,
                "an earlier action of it is not over",
            ));
        }
        if self.waits.waits.len() + self.agents.len() >= WAIT_LIMIT {
            return Err(io::Error::new(ErrorKind::QuotaExceeded, "too many actions are not over"));
        }
        Ok(())
    }

    // Spawns the agent of a launch, enters it into the record and lets it run. If it is not let run, it is killed.
    fn begin<S: Store, L: Allocator>(
        &mut self,
        store: &S,
        launch: &Launch<L>,
    ) -> io::Result<Agent<C>>
        requires kept { KeeperInvariant R.view R.process_of self.old }
        requires ended { self.old.agents.given_up.items ≡ [] }
        requires rising { self.old.last_run < launch.now.run }
        requires may_start { MayStart None (S.view store.now) launch.now }
        ensures begun { BeginsAs R.view R.process_of launch.now self.old self.new result }
        ensures same { self.new ≡ record self.old { rt = self.new.rt; waits = self.new.waits } }
    {
        self.check_free(&launch.id)?;
        let spawned_at = monotonic(&self.rt);
        let action = named(launch)?;
        let spawned = spawn(
            &mut self.rt,
            self.alloc,
            &self.log,
            &self.leading,
            store,
            launch,
        )?;
        let mut agent = Agent {
            process: self.rt.process(&spawned.child),
            action,
            spawned_at,
            child: spawned.child,
            slot: None,
            uncopied: spawned.uncopied,
        };
        match let_run(&mut self.rt, self.roster, launch, &mut agent) {
            Ok(()) => Ok(agent),
            Err(error) => {
                give_back(&mut self.rt, self.alloc, &mut self.waits, agent);
                Err(error)
            }
        }
    }

    /// Starts the agent of a launch. A refusal is written to the log.
    pub fn start<S: Store, L: Allocator>(
        &mut self,
        store: &S,
        launch: &Launch<L>,
    ) -> Result<(), StartFault>
        requires kept { KeeperInvariant R.view R.process_of self.old }
        requires room { 0 < (children_of self.old).room }
        requires few { length (children_of self.old).live < live_limit }
        requires rising { (children_of self.old).last_run < launch.now.run }
        requires ended { (children_of self.old).given_up ≡ [] }
        requires may_start { MayStart (children_of self.old).site (S.view store.now) launch.now }
        ensures kept { KeeperInvariant R.view R.process_of self.new }
        ensures started { children_of self.new
            ≡ after_start (children_of self.old) launch.now.run (S.view store.now).clock result }
        ensures leading { self.new.leading ≡ self.old.leading }
        ensures system { StartsAs launch.now (leader_of self.old.leading) result (R.view self.old.rt) (R.view self.new.rt) }
    {
        match self.begin(store, launch) {
            Ok(agent) => {
                self.agents.add(agent);
                note_start(&mut self.book, store, launch, Ok(()));
                self.last_run = launch.run.get();
                Ok(())
            }
            Err(error) => {
                let fault = log_refused(&self.rt, &self.log, launch, &error);
                note_start(&mut self.book, store, launch, Err(fault));
                self.last_run = launch.run.get();
                Err(fault)
            }
        }
    }
}
