//! An action that was given up, with its processes.
ghost use Rattle.std.specs.Prelude.{◌≡◌, ◌↔◌, ◌++◌, ◌∷◌, [], All, IfOk, IsTrue, OnOk, Some, cond, false, filter, is_some, not, true};
ghost use Rattle.std.specs.List.{list_any};
ghost use Rattle.agent_system.specs.May.{AreAll, IsChildAt, IsEnded, IsOver, agents_in, groups_in, is_agent, is_other as is_other_in, is_start};
ghost use Rattle.agent_system.specs.Sights.{HasEnded, latest};
ghost use Rattle.agent_system.specs.SystemView.{changed_at};
ghost use Rattle.process_ends.specs.Endings.{AreEnded, IsChangedAt, IsEndAsked, IsGivenUpAt, IsGroupOver, IsSameAction, OnlyEnds, OnlySignals, given_up_of, without_child};

use agent_system::{AgentProcess, AgentSystem};
use proc_files::{Process, belonging};
use std::alloc::{AllocError, Allocator};
use std::{mem, slice};

/// An action that was given up, with its processes.
#[derive(Drop)]
pub struct GivenUpAction<T: Drop, C: Drop, A: Allocator> {
    /// What is kept of the action beside its processes.
    pub what: T,
    pub process: AgentProcess,
    /// Its process, while that is a child of this process that was not reaped.
    pub child: Option<C>,
    /// The processes that the last search found to belong to it.
    pub known: Vec<Process, A>,
    /// Whether its processes are to be killed by the next `kill_actions`.
    pub is_due: bool,
}

// Whether an agent that was given up has ended; then it is reaped.
fn is_reaped<R: AgentSystem>(rt: &mut R, at: usize, child: &mut R::Child) -> bool
    requires its { IsChildAt (R.view rt.old).sights at (R.process_of child.old) }
    ensures same { R.process_of child.new ≡ R.process_of child.old }
    ensures ends { OnlyEnds (R.view rt.old) (R.view rt.new) }
    ensures reaped { result ≡ true → (R.view rt.new).sights.given_up
        ≡ changed_at at without_child (R.view rt.old).sights.given_up }
    ensures lives { result ≡ false → R.view rt.new ≡ R.view rt.old }
{
    match rt.reap(at, child) {
        Ok(Some(_)) => true,
        Ok(None) => false,
        Err(_) => false,
    }
}

// Whether an answer about a number shows that the process with this start has ended.
fn has_ended(start: Option<u64>, answer: &Option<Process>) -> bool
    ensures { IsTrue result → HasEnded start (Some answer.now) }
{
    match answer {
        Some(process) => process.has_ended || start != Some(process.start),
        None => true,
    }
}

// Whether an answer about a number shows that a process has ended, if it had the number.
fn has_ended_if(process: &Process, pid: u32, answer: &Option<Process>) -> bool
    ensures { result ≡ true → process.now.pid ≡ pid
        → HasEnded (Some process.now.start) (Some answer.now) }
{
    process.pid != pid || has_ended(Some(process.start), answer)
}

// The same of each of these processes.
fn have_ended(known: &[Process], pid: u32, answer: &Option<Process>) -> bool
    ensures { result ≡ true → All (λ q. q.pid ≡ pid → HasEnded (Some q.start) (Some answer.now)) known.now }
{
    for process in known {
        if !has_ended_if(process, pid, answer) {
            return false;
        }
    }
    true
}

// Those of these processes that have not ended.
fn retain_living<A: Allocator>(found: &mut Vec<Process, A>)
    ensures living { found.new.items ≡ filter (λ p. not p.has_ended) found.old.items }
{
    found.retain(|process| !process.has_ended);
}

impl<T: Drop, C: Drop, A: Allocator + Copy> GivenUpAction<T, C, A> {
    // Reaps the agent if it has ended.
    fn reap<R: AgentSystem<Child = C>>(&mut self, rt: &mut R, at: usize)
        requires given_up { IsGivenUpAt R.process_of (R.view rt.old).sights at self.old }
        ensures given_up { IsChangedAt R.process_of (R.view rt.old).sights (R.view rt.new).sights at
            self.new }
        ensures same { IsSameAction self.old self.new }
        ensures known { self.new.known ≡ self.old.known }
        ensures ends { OnlyEnds (R.view rt.old) (R.view rt.new) }
    {
        let Some(child) = &mut self.child else {
            return;
        };
        if is_reaped(rt, at, child) {
            self.child = None;
        }
    }

    // Whether an answer about a number shows that each of its processes that had the number has ended.
    fn all_ended(&self, pid: u32, answer: &Option<Process>) -> bool
        ensures agent { result ≡ true → self.now.process.pid ≡ pid → HasEnded self.now.process.start
            (Some answer.now) }
        ensures known { result ≡ true → All (λ q. q.pid ≡ pid → HasEnded (Some q.start)
            (Some answer.now)) self.now.known.items }
    {
        (self.process.pid != pid || has_ended(self.process.start, answer))
            && have_ended(self.known.as_slice(), pid, answer)
    }

    // Looks at a number, and returns whether each of its processes that had the number has ended.
    fn has_ended_at<R: AgentSystem<Child = C>>(&self, rt: &mut R, pid: u32) -> bool
        ensures asked { IsEndAsked (R.view rt.old) (R.view rt.new) (given_up_of self.now) pid result }
    {
        match rt.look(pid) {
            Ok(answer) => self.all_ended(pid, &answer),
            Err(_) => false,
        }
    }

    // Whether one of the known processes may live.
    fn known_live<R: AgentSystem<Child = C>>(&self, rt: &mut R) -> bool
        ensures signals { OnlySignals (R.view rt.old) (R.view rt.new) }
        ensures ended { result ≡ false → AreEnded (R.view rt.new).sights.looks self.now.known.items }
    {
        for process in self.known.iter() {
            if !self.has_ended_at(rt, process.pid) {
                return true;
            }
        }
        false
    }

    // Whether the agent or one of the known processes may live.
    fn processes_live<R: AgentSystem<Child = C>>(&self, rt: &mut R) -> bool
        ensures signals { OnlySignals (R.view rt.old) (R.view rt.new) }
        ensures reaped { result ≡ false → is_some self.now.child ≡ false }
        ensures agent { result ≡ false → IsEnded self.now.process.start
            (latest (R.view rt.new).sights.looks self.now.process.pid) }
        ensures known { result ≡ false → AreEnded (R.view rt.new).sights.looks self.now.known.items }
    {
        if self.child.is_some() {
            return true;
        }
        if self.known_live(rt) {
            return true;
        }
        !self.has_ended_at(rt, self.process.pid)
    }

    // Whether a process with the agent's number and this start is the agent: it has its start, or that is not known and the number cannot
    // be another's.
    fn is_start(&self, start: u64) -> bool
        ensures { result ≡ is_start (given_up_of self.now) start }
    {
        match self.process.start {
            Some(own) => own == start,
            None => self.child.is_some(),
        }
    }

    // Whether a process of a listing is the agent.
    fn is_agent(&self, process: &Process) -> bool
        ensures { result ≡ is_agent (given_up_of self.now) process.now }
    {
        process.pid == self.process.pid && self.is_start(process.start)
    }

    // Adds a process of a listing to these, if it is the agent.
    fn push_agent(&self, known: &mut Vec<Process, A>, process: &Process) -> Result<(), AllocError>
        ensures pushed { OnOk result (known.new.items
            ≡ known.old.items ++ cond (is_agent (given_up_of self.now) process.now)
            (process.now ∷ []) []) }
    {
        if self.is_agent(process) {
            known.push(*process)?;
        }
        Ok(())
    }

    // The known processes, and the agent as a listing has it.
    fn known_in(&self, alloc: A, table: &[Process]) -> Result<Vec<Process, A>, AllocError>
        ensures known { IfOk result (λ known. known.items
            ≡ self.now.known.items ++ agents_in (given_up_of self.now) table.now) }
    {
        let mut known = Vec::from_slice(alloc, self.known.as_slice())?;
        for process in table {
            self.push_agent(&mut known, process)?;
        }
        Ok(known)
    }

    // Whether a listing has another process with the agent's number.
    fn has_other(&self, table: &[Process]) -> bool
        ensures { result ≡ list_any (is_other_in (given_up_of self.now)) table.now }
    {
        table.iter().any(|process| process.pid == self.process.pid && !self.is_start(process.start))
    }

    // Its process group, unless a listing has another process with its number.
    fn groups_in(&self, table: &[Process]) -> &[u32]
        ensures { result.now ≡ groups_in (given_up_of self.now) table.now }
    {
        if self.has_other(table) {
            &[]
        } else {
            slice::from_ref(&self.process.pid)
        }
    }

    // The processes of a listing that belong to it and have not ended.
    fn belonging_in(&self, alloc: A, table: &[Process]) -> Result<Vec<Process, A>, AllocError>
        ensures all { IfOk result (λ found. AreAll (given_up_of self.now) table.now found.items) }
    {
        let known = self.known_in(alloc, table)?;
        let mut found = belonging(alloc, table, known.as_slice(), self.groups_in(table))?;
        retain_living(&mut found);
        Ok(found)
    }

    /// Has it know the processes of the last listing that belong to it and have not ended, and no others. Returns those that it knew
    /// before. It fails only where memory is refused, and then it knows those still.
    pub fn find<R: AgentSystem<Child = C>>(
        &mut self,
        rt: &mut R,
        alloc: A,
        at: usize,
        table: &[Process],
    ) -> Result<Vec<Process, A>, AllocError>
        requires given_up { IsGivenUpAt R.process_of (R.view rt.old).sights at self.old }
        requires listed { (R.view rt.old).sights.table ≡ Some table.now }
        ensures given_up { IsChangedAt R.process_of (R.view rt.old).sights (R.view rt.new).sights at
            self.new }
        ensures same { IsSameAction self.old self.new }
        ensures child { self.new.child ≡ self.old.child }
        ensures ends { OnlyEnds (R.view rt.old) (R.view rt.new) }
        ensures table { (R.view rt.new).sights.table ≡ (R.view rt.old).sights.table }
        ensures looks { (R.view rt.new).sights.looks ≡ (R.view rt.old).sights.looks }
        ensures all { OnOk result (AreAll (given_up_of self.old) table.now self.new.known.items) }
    {
        let found = self.belonging_in(alloc, table)?;
        rt.keep(at, found.as_slice());
        Ok(mem::replace(&mut self.known, found))
    }

    // Whether its group may have a member, as the system says or, where it does not, as it lists.
    fn group_lives<R: AgentSystem<Child = C>>(&mut self, rt: &mut R, alloc: A, at: usize) -> bool
        requires given_up { IsGivenUpAt R.process_of (R.view rt.old).sights at self.old }
        ensures given_up { IsChangedAt R.process_of (R.view rt.old).sights (R.view rt.new).sights at
            self.new }
        ensures same { IsSameAction self.old self.new }
        ensures child { self.new.child ≡ self.old.child }
        ensures ends { OnlyEnds (R.view rt.old) (R.view rt.new) }
        ensures looks { (R.view rt.new).sights.looks ≡ (R.view rt.old).sights.looks }
        ensures over { result ≡ false → IsGroupOver (R.view rt.new).sights (given_up_of self.old)
            (given_up_of self.new) }
    {
        if rt.has_members(self.process.pid) == Some(false) {
            return false;
        }
        let Ok(table) = rt.list(alloc) else {
            return true;
        };
        match self.find(rt, alloc, at, table.as_slice()) {
            Ok(_) => !self.known.is_empty(),
            Err(_) => true,
        }
    }

    /// Whether a process of the action may live: its agent, one that is known to belong to it, or a member of its group. If not, it is
    /// over. It asks for no more than needed: while the agent was not reaped for that alone, then for the known processes, then for the
    /// members of the group; only where there are such it lists all processes, and then it knows exactly those that belong to it.
    pub fn lives<R: AgentSystem<Child = C>>(&mut self, rt: &mut R, alloc: A, at: usize) -> bool
        requires given_up { IsGivenUpAt R.process_of (R.view rt.old).sights at self.old }
        ensures given_up { IsChangedAt R.process_of (R.view rt.old).sights (R.view rt.new).sights at
            self.new }
        ensures same { IsSameAction self.old self.new }
        ensures ends { OnlyEnds (R.view rt.old) (R.view rt.new) }
        ensures over { result ≡ false → IsOver (R.view rt.new).sights (given_up_of self.new) }
    {
        self.reap(rt, at);
        if self.processes_live(rt) {
            return true;
        }
        self.group_lives(rt, alloc, at)
    }
}
