//! The search for the processes that are to be ended.
ghost use Rattle.std.specs.Prelude.{◌≡◌, Contains, OnOk, Some, true};
ghost use Rattle.process_ends.specs.Endings.{AllDue, AreGivenUp, AreSameActions, IsChangedAt, IsGivenUpAt, IsSameAction, IsSearched, OnlyEnds, OnlySignals, given_up_of};

use crate::given_up::GivenUpAction;
use crate::kill::lives_now;
use agent_system::{AgentSystem, Signal, Target};
use proc_files::{Process, has};
use std::alloc::Allocator;
use std::io;

// How many rounds there are at most. Each lists the processes and suspends (SIGSTOP) those that were not found before, so that they
// cannot start others unseen. Two rounds are enough if nothing is started meanwhile, and one if nothing has left its action's group.
const ROUNDS: usize = 8;

impl<T: Drop, C: Drop, A: Allocator + Copy> GivenUpAction<T, C, A> {
    // Suspends one of its known processes, if that lives.
    fn suspend<R: AgentSystem<Child = C>>(&self, rt: &mut R, process: &Process) -> io::Result<()>
        requires given_up { Contains (R.view rt.old).sights.given_up (given_up_of self.now) }
        requires known { Contains self.now.known.items process.now }
        ensures signals { OnlySignals (R.view rt.old) (R.view rt.new) }
    {
        if lives_now(rt, process) {
            rt.send(Signal::Stop, Target::Process(process.pid))?;
        }
        Ok(())
    }

    // Whether one of its known processes may start others: it was not known before, and was not suspended with the group.
    fn is_new(&self, process: &Process, before: &[Process], are_suspended: bool) -> bool {
        let is_suspended = are_suspended && process.group == self.process.pid;
        !is_suspended && !has(before, process)
    }

    // Suspends its known processes that may start others. Returns whether there are any.
    fn suspend_new<R: AgentSystem<Child = C>>(
        &self,
        rt: &mut R,
        before: &[Process],
        are_suspended: bool,
    ) -> io::Result<bool>
        requires given_up { Contains (R.view rt.old).sights.given_up (given_up_of self.now) }
        ensures signals { OnlySignals (R.view rt.old) (R.view rt.new) }
    {
        let mut are_new = false;
        for process in self.known.iter() {
            if self.is_new(process, before, are_suspended) {
                are_new = true;
                self.suspend(rt, process)?;
            }
        }
        Ok(are_new)
    }

    // If it is due, it then knows its processes of the last listing, and those that may start others were suspended. Returns whether there
    // were any.
    fn find_more<R: AgentSystem<Child = C>>(
        &mut self,
        rt: &mut R,
        alloc: A,
        at: usize,
        table: &[Process],
        are_suspended: bool,
    ) -> io::Result<bool>
        requires given_up { IsGivenUpAt R.process_of (R.view rt.old).sights at self.old }
        requires listed { (R.view rt.old).sights.table ≡ Some table.now }
        ensures given_up { IsChangedAt R.process_of (R.view rt.old).sights (R.view rt.new).sights at
            self.new }
        ensures same { IsSameAction self.old self.new }
        ensures ends { OnlyEnds (R.view rt.old) (R.view rt.new) }
        ensures table { (R.view rt.new).sights.table ≡ (R.view rt.old).sights.table }
        ensures searched { OnOk result (self.new.is_due ≡ true
            → IsSearched (R.view rt.new).sights.table (given_up_of self.new)) }
    {
        if !self.is_due {
            return Ok(false);
        }
        let before = self.find(rt, alloc, at, table)?;
        self.suspend_new(rt, before.as_slice(), are_suspended)
    }
}

// The same for each of these actions, after a new listing.
fn find_all<R: AgentSystem, T: Drop, A: Allocator + Copy>(
    rt: &mut R,
    alloc: A,
    actions: &mut [GivenUpAction<T, R::Child, A>],
    are_suspended: bool,
) -> io::Result<bool>
    requires given_up { AreGivenUp R.process_of (R.view rt.old).sights actions.old }
    ensures given_up { AreGivenUp R.process_of (R.view rt.new).sights actions.new }
    ensures same { AreSameActions actions.old actions.new }
    ensures ends { OnlyEnds (R.view rt.old) (R.view rt.new) }
    ensures searched { OnOk result (AllDue (IsSearched (R.view rt.new).sights.table) actions.new) }
{
    let table = rt.list(alloc)?;
    let mut are_new = false;
    for at in 0..actions.len() {
        are_new |= actions[at].find_more(rt, alloc, at, table.as_slice(), are_suspended)?;
    }
    Ok(are_new)
}

/// Has the due actions know all processes that belong to them, and suspends those: on an error those found so far. `are_suspended`
/// says whether their groups were suspended.
pub fn search<R: AgentSystem, T: Drop, A: Allocator + Copy>(
    rt: &mut R,
    alloc: A,
    actions: &mut [GivenUpAction<T, R::Child, A>],
    are_suspended: bool,
) -> io::Result<()>
    requires given_up { AreGivenUp R.process_of (R.view rt.old).sights actions.old }
    ensures given_up { AreGivenUp R.process_of (R.view rt.new).sights actions.new }
    ensures same { AreSameActions actions.old actions.new }
    ensures ends { OnlyEnds (R.view rt.old) (R.view rt.new) }
    ensures searched { OnOk result (AllDue (IsSearched (R.view rt.new).sights.table) actions.new) }
{
    let mut are_new = find_all(rt, alloc, actions, are_suspended)?;
    for _round in 1..ROUNDS {
        if !are_new {
            break;
        }
        are_new = find_all(rt, alloc, actions, are_suspended)?;
    }
    Ok(())
}
