//! Signals to the processes of actions that were given up: each after a look at its target.
ghost use Rattle.std.specs.Prelude.{◌≡◌, ◌≢◌, ◌↔◌, All, Contains, IfSome, IsTrue, Some, false, is_some, map, true};
ghost use Rattle.agent_system.specs.Sights.{IsOther, Lives};
ghost use Rattle.agent_system.specs.declared.signal.Target.TheVariants as target;
ghost use Rattle.process_ends.specs.Endings.{AllDue, AreGivenUp, AreSameActions, HasKill, IsGivenUpAt, IsGroupAsked, IsKilled, IsKilledBeside, IsLookedAt, IsMatched, IsNoGroup, IsOwnGroup, IsSameAction, OnlySignals, given_up_of};

use crate::given_up::GivenUpAction;
use agent_system::{AgentSystem, Signal, Target};
use proc_files::Process;
use std::alloc::Allocator;
use std::io;

// Whether an answer about a number shows another process than the one with this start: the number was free in between, so no process
// is left in that one's group. POSIX, fork.
fn is_other(start: Option<u64>, answer: &Option<Process>) -> bool
    ensures { IsTrue result ↔ IsOther start (Some answer.now) }
{
    match answer {
        Some(process) => start != Some(process.start),
        None => false,
    }
}

// Whether an answer about a number shows this process, and it has not ended.
fn is_alive(process: &Process, answer: &Option<Process>) -> bool
    ensures { IsTrue result ↔ Lives process.now (Some answer.now) }
{
    match answer {
        Some(now) => now.is(process) && !now.has_ended,
        None => false,
    }
}

/// Whether a process lives, as a look at its number shows.
pub fn lives_now<R: AgentSystem>(rt: &mut R, process: &Process) -> bool
    ensures looked { IsLookedAt (R.view rt.old) (R.view rt.new) process.now result }
{
    match rt.look(process.pid) {
        Ok(answer) => is_alive(process, &answer),
        Err(_) => false,
    }
}

// Keeps the first error.
fn note(sent: &mut io::Result<()>, next: io::Result<()>) {
    if sent.is_ok() {
        *sent = next;
    }
}

impl<T: Drop, C: Drop, A: Allocator + Copy> GivenUpAction<T, C, A> {
    // Whether the group with the agent's number is this process's.
    fn is_own_group<R: AgentSystem<Child = C>>(&self, rt: &R) -> bool
        ensures own { result ≡ true → IsOwnGroup (R.view rt.now).sights.own self.now.process.pid }
        ensures other { result ≡ false → IfSome (R.view rt.now).sights.own
            (λ own. own.group ≢ self.now.process.pid) }
    {
        match rt.own() {
            Some(own) => own.group == self.process.pid,
            None => false,
        }
    }

    // Whether its group may be signalled: a look at its number does not show that it is another's, and it is not that of this process.
    fn has_group<R: AgentSystem<Child = C>>(&self, rt: &mut R) -> bool
        ensures asked { IsGroupAsked (R.view rt.old) (R.view rt.new) (given_up_of self.now) result }
    {
        let is_others = match rt.look(self.process.pid) {
            Ok(answer) => self.child.is_none() && is_other(self.process.start, &answer),
            Err(_) => false,
        };
        !is_others && !self.is_own_group(&*rt)
    }

    // Suspends its group, if that may be signalled. Returns whether it was.
    fn stop_group<R: AgentSystem<Child = C>>(&self, rt: &mut R) -> bool
        requires given_up { Contains (R.view rt.old).sights.given_up (given_up_of self.now) }
        ensures signals { OnlySignals (R.view rt.old) (R.view rt.new) }
    {
        self.has_group(rt)
            && rt
                .send(Signal::Stop, Target::Group(self.process.pid))
                .is_ok()
    }

    // The same if it is due; it counts as suspended if not.
    fn stop_if_due<R: AgentSystem<Child = C>>(&self, rt: &mut R) -> bool
        requires given_up { Contains (R.view rt.old).sights.given_up (given_up_of self.now) }
        ensures signals { OnlySignals (R.view rt.old) (R.view rt.new) }
    {
        !self.is_due || self.stop_group(rt)
    }

    // Kills its group, if that may be signalled, and returns whether it may. What the request came to is kept in `sent`.
    fn kill_group<R: AgentSystem<Child = C>>(&self, rt: &mut R, sent: &mut io::Result<()>) -> bool
        requires given_up { Contains (R.view rt.old).sights.given_up (given_up_of self.now) }
        ensures signals { OnlySignals (R.view rt.old) (R.view rt.new) }
        ensures killed { result ≡ true
            → HasKill (R.view rt.old) (R.view rt.new) (target.Group self.now.process.pid) }
        ensures none { result ≡ false
            → IsNoGroup (R.view rt.old) (R.view rt.new) (given_up_of self.now) }
    {
        let has_group = self.has_group(rt);
        if has_group {
            note(sent, rt.send(Signal::Kill, Target::Group(self.process.pid)));
        }
        has_group
    }

    // Kills one of its known processes, unless that is a member of its group, which may be signalled.
    fn kill_one<R: AgentSystem<Child = C>>(
        &self,
        rt: &mut R,
        process: &Process,
        has_group: bool,
        sent: &mut io::Result<()>,
    )
        requires given_up { Contains (R.view rt.old).sights.given_up (given_up_of self.now) }
        requires known { Contains self.now.known.items process.now }
        ensures signals { OnlySignals (R.view rt.old) (R.view rt.new) }
        ensures killed { IsKilledBeside (R.view rt.old) (R.view rt.new) self.now.process.pid has_group
            process.now }
    {
        let is_member = has_group && process.group == self.process.pid;
        if !is_member && lives_now(rt, process) {
            note(sent, rt.send(Signal::Kill, Target::Process(process.pid)));
        }
    }

    // Kills its known processes, except the members of its group if that may be signalled.
    fn kill_known<R: AgentSystem<Child = C>>(
        &self,
        rt: &mut R,
        has_group: bool,
        sent: &mut io::Result<()>,
    )
        requires given_up { Contains (R.view rt.old).sights.given_up (given_up_of self.now) }
        ensures signals { OnlySignals (R.view rt.old) (R.view rt.new) }
        ensures killed { All (IsKilledBeside (R.view rt.old) (R.view rt.new) self.now.process.pid
            has_group) self.now.known.items }
    {
        for process in self.known.iter() {
            self.kill_one(rt, process, has_group, sent);
        }
    }

    // Kills its agent, if that is a child of this process.
    fn kill_child<R: AgentSystem<Child = C>>(&mut self, rt: &mut R, at: usize)
        requires given_up { IsGivenUpAt R.process_of (R.view rt.old).sights at self.old }
        ensures signals { OnlySignals (R.view rt.old) (R.view rt.new) }
        ensures matched { IsMatched R.process_of self.new }
        ensures same { IsSameAction self.old self.new }
        ensures given_up { given_up_of self.new ≡ given_up_of self.old }
        ensures killed { is_some self.old.child ≡ true → HasKill (R.view rt.old) (R.view rt.new)
            (target.Process self.old.process.pid) }
    {
        if let Some(child) = &mut self.child {
            let _ = rt.kill(at, child);
        }
    }

    /// Kills its group, all that is known to belong to it, and its agent. It fails if a request failed.
    pub fn kill<R: AgentSystem<Child = C>>(&mut self, rt: &mut R, at: usize) -> io::Result<()>
        requires given_up { IsGivenUpAt R.process_of (R.view rt.old).sights at self.old }
        ensures signals { OnlySignals (R.view rt.old) (R.view rt.new) }
        ensures matched { IsMatched R.process_of self.new }
        ensures same { IsSameAction self.old self.new }
        ensures given_up { given_up_of self.new ≡ given_up_of self.old }
        ensures killed { IsKilled (R.view rt.old) (R.view rt.new) (given_up_of self.new) }
    {
        let mut sent = Ok(());
        let has_group = self.kill_group(rt, &mut sent);
        self.kill_known(rt, has_group, &mut sent);
        self.kill_child(rt, at);
        sent
    }

    // The same if it is due.
    fn kill_if_due<R: AgentSystem<Child = C>>(
        &mut self,
        rt: &mut R,
        at: usize,
        sent: &mut io::Result<()>,
    )
        requires given_up { IsGivenUpAt R.process_of (R.view rt.old).sights at self.old }
        ensures signals { OnlySignals (R.view rt.old) (R.view rt.new) }
        ensures matched { IsMatched R.process_of self.new }
        ensures same { IsSameAction self.old self.new }
        ensures given_up { given_up_of self.new ≡ given_up_of self.old }
        ensures killed { self.new.is_due ≡ true
            → IsKilled (R.view rt.old) (R.view rt.new) (given_up_of self.new) }
    {
        if self.is_due {
            note(sent, self.kill(rt, at));
        }
    }
}

/// Suspends the groups of the due actions, and returns whether all of them were.
pub fn stop_groups<R: AgentSystem, T: Drop, A: Allocator + Copy>(
    rt: &mut R,
    actions: &[GivenUpAction<T, R::Child, A>],
) -> bool
    requires given_up { (R.view rt.old).sights.given_up ≡ map given_up_of actions.now }
    ensures signals { OnlySignals (R.view rt.old) (R.view rt.new) }
{
    let mut are_suspended = true;
    for action in actions {
        are_suspended &= action.stop_if_due(rt);
    }
    are_suspended
}

// Kills the groups of the due actions, the processes that are known to belong to them, and their agents. It fails if a request failed.
fn kill_due<R: AgentSystem, T: Drop, A: Allocator + Copy>(
    rt: &mut R,
    actions: &mut [GivenUpAction<T, R::Child, A>],
) -> io::Result<()>
    requires given_up { AreGivenUp R.process_of (R.view rt.old).sights actions.old }
    ensures given_up { AreGivenUp R.process_of (R.view rt.new).sights actions.new }
    ensures signals { OnlySignals (R.view rt.old) (R.view rt.new) }
    ensures same { AreSameActions actions.old actions.new }
    ensures known { map given_up_of actions.new ≡ map given_up_of actions.old }
    ensures killed { AllDue (IsKilled (R.view rt.old) (R.view rt.new)) actions.new }
{
    let mut sent = Ok(());
    for at in 0..actions.len() {
        actions[at].kill_if_due(rt, at, &mut sent);
    }
    sent
}

/// Kills the groups of the due actions, the processes that are known to belong to them, and their agents; once more if a request failed,
/// since the shell that sends signals may be spawned after agents were killed. It fails if a request failed then, too.
pub fn kill_all<R: AgentSystem, T: Drop, A: Allocator + Copy>(
    rt: &mut R,
    actions: &mut [GivenUpAction<T, R::Child, A>],
) -> io::Result<()>
    requires given_up { AreGivenUp R.process_of (R.view rt.old).sights actions.old }
    ensures given_up { AreGivenUp R.process_of (R.view rt.new).sights actions.new }
    ensures signals { OnlySignals (R.view rt.old) (R.view rt.new) }
    ensures same { AreSameActions actions.old actions.new }
    ensures known { map given_up_of actions.new ≡ map given_up_of actions.old }
    ensures killed { AllDue (IsKilled (R.view rt.old) (R.view rt.new)) actions.new }
{
    match kill_due(rt, actions) {
        Ok(()) => Ok(()),
        Err(_) => kill_due(rt, actions),
    }
}
