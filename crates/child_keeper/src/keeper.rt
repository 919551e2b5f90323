//! Agents as processes of a system, with their book and their waits.
ghost use Rattle.std.specs.Prelude.{◌≡◌, ◌<◌, ◌≤◌, ◌+◌, ◌*◌, ◌++◌, [], ◌∷◌, All, Contains, length, vec_len};
ghost use Rattle.agent_system.specs.SystemView.{after_poll as after_asking};
ghost use Rattle.agent_system.specs.declared.agent_process.AgentProcess.{AgentProcess};
ghost use Rattle.child_keeper.specs.Agents.{IsIts, agent_processes, others_of, runs_of};
ghost use Rattle.child_keeper.specs.Keepers.{AreDistinct, AreLive, AreWaitsFor, EndsAll, EndsFrom, GivesUpAll, IsGivenUp, IsMoved, IsPolled, KeeperInvariant, children_of};
ghost use Rattle.child_keeper.specs.Waits.{IsFresh, IsPart, ids_of};
ghost use Rattle.child_model.specs.Children.{after_ends, after_kill, after_poll, all_ended, is_held, live_limit, without_run};
ghost use Rattle.process_ends.specs.Endings.{AreGivenUp, HasKilled, OnlyEnds, processes};

use crate::agents::{Agent, Agents};
use crate::book::Book;
use crate::logging::{log_end, report_signaled};
use crate::record::Record;
use crate::waits::{Waits, any_of};
use crate::{Answer, Entry, KillFault, Poll};
use agent_logs::{Log, LoggedEnd};
use agent_system::{AgentSystem, Leading, poll_of};
use ocf_types::{RscId, RunId};
use std::alloc::Allocator;
use std::io::{self, Eprint};
use std::process::ExitStatus;
use std::rt::Clock;

/// Agents as processes of a system, the book of their answers, and the waits for those that were given up.
#[derive(Drop)]
pub struct Keeper<R: Drop, C: Drop, A: Allocator + Copy> {
    pub rt: R,
    pub alloc: A,
    pub log: Log,
    pub leading: Leading<A>,
    pub roster: Record,
    pub book: Book<A>,
    pub agents: Agents<C, A>,
    pub waits: Waits<C, A>,
    /// How many of the waits are shown: those that began before the end of the last `end_killed`.
    pub shown: usize,
    pub last_run: u64,
}

// Polls the process of the agent of a run.
fn ask<R: AgentSystem, A: Allocator>(
    rt: &mut R,
    agents: &mut Agents<R::Child, A>,
    run: RunId,
) -> io::Result<Option<ExitStatus>>
    requires live { AreLive R.process_of (R.view rt.old).sights agents.old.agents.items }
    requires lives { Contains (runs_of agents.old.agents.items) run }
    ensures asked { (p : AgentProcess) × Contains (R.view rt.old).sights.live p × (p.run ≡ run)
        × (R.view rt.new ≡ after_asking (R.view rt.old) p result) }
    ensures processes { agent_processes agents.new.agents.items
        ≡ agent_processes agents.old.agents.items }
    ensures its { All (IsIts R.process_of) agents.new.agents.items }
    ensures given_up { agents.new.given_up ≡ agents.old.given_up }
    ensures length { vec_len agents.new.agents ≡ vec_len agents.old.agents }
{
    let index = agents.index(run);
    rt.poll(&mut agents.agents[index].child)
}

// Removes an agent that has ended, frees its entry, and writes that to the log.
fn reap<R: AgentSystem + Clock + Eprint, A: Allocator>(
    rt: &mut R,
    roster: Record,
    log: &Log,
    agents: &mut Agents<R::Child, A>,
    run: RunId,
    end: LoggedEnd,
) -> Agent<R::Child>
    requires lives { Contains (runs_of agents.old.agents.items) run }
    ensures same { R.view rt.new ≡ R.view rt.old }
    ensures others { agents.new.agents.items ≡ others_of run agents.old.agents.items }
    ensures given_up { agents.new.given_up ≡ agents.old.given_up }
    ensures fewer { vec_len agents.new.agents ≤ vec_len agents.old.agents }
{
    let agent = agents.take(run);
    roster.clear(rt, agent.slot);
    log_end(rt, log, &agent, end);
    agent
}

// Gives an agent up, to be ended later, and writes that to the log.
fn give_up<R: AgentSystem + Clock + Eprint, A: Allocator>(
    rt: &mut R,
    log: &Log,
    agents: &mut Agents<R::Child, A>,
    run: RunId,
    end: LoggedEnd,
)
    requires live { AreLive R.process_of (R.view rt.old).sights agents.old.agents.items }
    requires lives { Contains (runs_of agents.old.agents.items) run }
    ensures others { agents.new.agents.items ≡ others_of run agents.old.agents.items }
    ensures moved { IsMoved R.process_of run (R.view rt.old) (R.view rt.new) agents.old.given_up.items agents.new.given_up.items }
    ensures fewer { vec_len agents.new.agents + 1 ≤ vec_len agents.old.agents }
    ensures more { vec_len agents.new.given_up ≡ vec_len agents.old.given_up + 1 }
{
    let agent = agents.take(run);
    log_end(rt, log, &agent, end);
    rt.give_up(&agent.child);
    agents.add_given_up(agent);
}

// Gives all agents up, and writes that to the log.
fn give_up_each<R: AgentSystem + Clock + Eprint, A: Allocator>(
    rt: &mut R,
    log: &Log,
    agents: &mut Agents<R::Child, A>,
)
    requires live { AreLive R.process_of (R.view rt.old).sights agents.old.agents.items }
    requires distinct { AreDistinct (R.view rt.old).sights.live }
    ensures none { agents.new.agents.items ≡ [] }
    ensures given_up { GivesUpAll R.process_of (R.view rt.old) (R.view rt.new) agents.old.given_up.items agents.new.given_up.items }
    ensures few { vec_len agents.new.agents + vec_len agents.new.given_up ≤ vec_len agents.old.agents + vec_len agents.old.given_up }
{
    while let Some(run) = agents.last_run() {
        give_up(rt, log, agents, run, LoggedEnd::Killed);
    }
}

// Has a wait begin for each agent that was given up. It takes no memory.
fn begin_waits<C: Drop, A: Allocator + Copy>(
    alloc: A,
    agents: &mut Agents<C, A>,
    waits: &mut Waits<C, A>,
)
    requires room { vec_len waits.old.waits + vec_len agents.old.given_up ≤ 3 * live_limit }
    ensures none { agents.new.given_up.items ≡ [] }
    ensures live { agents.new.agents ≡ agents.old.agents }
    ensures waits { AreWaitsFor agents.old.given_up.items waits.old.waits.items waits.new.waits.items }
{
    while let Some(agent) = agents.take_given_up() {
        waits.add_agent(alloc, agent);
    }
}

// Goes on with the waits, if there are any: without one it makes no call of the system.
fn go_on<R: AgentSystem + Clock + Eprint, A: Allocator + Copy>(
    rt: &mut R,
    alloc: A,
    roster: Record,
    waits: &mut Waits<R::Child, A>,
)
    requires { AreGivenUp R.process_of (R.view rt.old).sights waits.old.waits.items }
    ensures given_up { AreGivenUp R.process_of (R.view rt.new).sights waits.new.waits.items }
    ensures ends { OnlyEnds (R.view rt.old) (R.view rt.new) }
    ensures killed { All (λ w. IsFresh w
        → HasKilled (R.view rt.old) (R.view rt.new) w.process) waits.old.waits.items }
    ensures rest { IsPart (processes waits.new.waits.items) (processes waits.old.waits.items) }
{
    if waits.waits.is_empty() {
        return;
    }
    waits.go_on(rt, alloc, roster);
}

impl<C: Drop, R: AgentSystem<Child = C> + Clock + Eprint + Drop, A: Allocator + Copy> Keeper<
    R,
    C,
    A,
> {
    /// Polls the agent of a run, which is removed if it has ended, and given up if the system failed to answer.
    pub fn poll(&mut self, run: RunId) -> Poll
        requires kept { KeeperInvariant R.view R.process_of self.old }
        requires room { 0 < (children_of self.old).room }
        requires lives { Contains (children_of self.old).live run }
        ensures kept { KeeperInvariant R.view R.process_of self.new }
        ensures polled { children_of self.new ≡ after_poll (children_of self.old) run result }
        ensures leading { self.new.leading ≡ self.old.leading }
        ensures asked { IsPolled run result (R.view self.old.rt) (R.view self.new.rt) }
    {
        let answer = poll_of(&ask(&mut self.rt, &mut self.agents, run));
        self.book.note(Entry {
            run,
            at: 0,
            answer: Answer::Poll(answer),
        });
        let Keeper {
            rt,
            roster,
            log,
            agents,
            ..
        } = self;
        match answer {
            Poll::Running => answer,
            Poll::Exited(code) => {
                let _ = reap(rt, *roster, log, agents, run, LoggedEnd::Exited(code));
                answer
            }
            Poll::Signaled(signal) => {
                let agent = reap(rt, *roster, log, agents, run, LoggedEnd::Signaled(signal));
                report_signaled(rt, &agent, signal);
                answer
            }
            Poll::Fault => {
                give_up(rt, log, agents, run, LoggedEnd::Lost);
                answer
            }
        }
    }

    /// Gives the agent of a run up.
    pub fn kill(&mut self, run: RunId) -> Result<(), KillFault>
        requires kept { KeeperInvariant R.view R.process_of self.old }
        requires room { 0 < (children_of self.old).room }
        requires lives { Contains (children_of self.old).live run }
        ensures kept { KeeperInvariant R.view R.process_of self.new }
        ensures killed { children_of self.new ≡ after_kill (children_of self.old) run result }
        ensures leading { self.new.leading ≡ self.old.leading }
        ensures given_up { IsGivenUp run (R.view self.old.rt) (R.view self.new.rt) }
    {
        give_up(
            &mut self.rt,
            &self.log,
            &mut self.agents,
            run,
            LoggedEnd::Killed,
        );
        self.book.note(Entry {
            run,
            at: 0,
            answer: Answer::Kill(Ok(())),
        });
        Ok(())
    }

    /// Asks for the end of all that were given up, and goes on with the waits; processes may live on. All waits are shown after it.
    pub fn end_killed(&mut self)
        requires kept { KeeperInvariant R.view R.process_of self.old }
        ensures kept { KeeperInvariant R.view R.process_of self.new }
        ensures ended { children_of self.new
            ≡ after_ends (children_of self.old) (ids_of self.new.waits.waits.items) }
        ensures leading { self.new.leading ≡ self.old.leading }
        ensures killed { EndsFrom self.old.shown (R.view self.old.rt) (R.view self.new.rt) }
    {
        begin_waits(self.alloc, &mut self.agents, &mut self.waits);
        go_on(&mut self.rt, self.alloc, self.roster, &mut self.waits);
        self.shown = self.waits.waits.len();
    }

    /// Gives all agents up and asks for their end, and for that of all that were given up before; processes may live on.
    pub fn give_up_all(&mut self)
        requires kept { KeeperInvariant R.view R.process_of self.old }
        ensures kept { KeeperInvariant R.view R.process_of self.new }
        ensures ended { children_of self.new
            ≡ all_ended (children_of self.old) (ids_of self.new.waits.waits.items) }
        ensures leading { self.new.leading ≡ self.old.leading }
        ensures killed { EndsAll self.old.shown (R.view self.old.rt) (R.view self.new.rt) }
    {
        give_up_each(&mut self.rt, &self.log, &mut self.agents);
        self.end_killed();
    }

    /// Whether a resource is held: one of the waits that are shown is its.
    pub fn is_held(&self, id: &RscId) -> bool
        requires shown { self.now.shown ≤ vec_len self.now.waits.waits }
        ensures value { result ≡ is_held (children_of self.now).held id.now }
    {
        any_of(&self.waits.waits[..self.shown], id)
    }
}
