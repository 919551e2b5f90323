//! Ends actions with all that belongs to them.
ghost use Rattle.std.specs.Prelude.{◌≡◌, ◌∷◌, Contains, OnOk, [], false, true};
ghost use Rattle.agent_system.specs.May.{IsOver};
ghost use Rattle.agent_system.specs.SystemView.{without_process};
ghost use Rattle.process_ends.specs.Endings.{AllDue, AreGivenUp, AreSameActions, HasKilled, IsChangedAt, IsGivenUpAt, IsKilled, IsMatched, IsSameAction, IsSearched, OnlyEnds, OnlySignals, given_up_of};

use crate::given_up::GivenUpAction;
use crate::kill::{kill_all, lives_now, stop_groups};
use crate::report::{report_alive, report_all, report_unstopped};
use crate::search::search;
use agent_system::AgentSystem;
use pauses::Pauses;
use proc_files::Process;
use std::alloc::Allocator;
use std::io::{self, Eprint};
use std::rt::Clock;
use std::slice;

// Reports an error that ended a search.
fn report_search<R: Eprint>(rt: &R, found: &io::Result<()>) {
    if let Err(error) = found {
        report_unstopped(rt, error);
    }
}

/// Kills all processes that belong to the due ones of these actions, which are all that was given up, and has each of these know those
/// that it found. First their groups are suspended (SIGSTOP), then what a search finds, until it finds no more, so that none starts
/// others unseen; then all get SIGKILL. It does not wait for their end.
///
/// Groups and agents get SIGKILL also where no memory is left for the search or `/proc` cannot be read. An error that ended the search
/// is reported on standard error. It fails if the search or a request for SIGKILL did.
pub fn kill_actions<R: AgentSystem + Eprint, T: Drop, A: Allocator + Copy>(
    rt: &mut R,
    alloc: A,
    actions: &mut [GivenUpAction<T, R::Child, A>],
) -> io::Result<()>
    requires given_up { AreGivenUp R.process_of (R.view rt.old).sights actions.old }
    ensures given_up { AreGivenUp R.process_of (R.view rt.new).sights actions.new }
    ensures same { AreSameActions actions.old actions.new }
    ensures ends { OnlyEnds (R.view rt.old) (R.view rt.new) }
    ensures killed { AllDue (IsKilled (R.view rt.old) (R.view rt.new)) actions.new }
    ensures searched { OnOk result (AllDue (IsSearched (R.view rt.new).sights.table) actions.new) }
{
    let are_suspended = stop_groups(rt, actions);
    let found = search(rt, alloc, actions, are_suspended);
    report_search(&*rt, &found);
    let sent = kill_all(rt, actions);
    found?;
    sent
}

// Kills all processes of an action, which is all that was given up. Without memory for a search it kills those that need none.
fn killed<R: AgentSystem + Eprint, A: Allocator + Copy>(
    rt: &mut R,
    alloc: A,
    action: GivenUpAction<(), R::Child, A>,
) -> GivenUpAction<(), R::Child, A>
    requires given_up { (R.view rt.old).sights.given_up ≡ given_up_of action ∷ [] }
    requires matched { IsMatched R.process_of action }
    requires due { action.is_due ≡ true }
    ensures given_up { (R.view rt.new).sights.given_up ≡ given_up_of result ∷ [] }
    ensures matched { IsMatched R.process_of result }
    ensures process { result.process ≡ action.process }
    ensures ends { OnlyEnds (R.view rt.old) (R.view rt.new) }
    ensures killed { IsKilled (R.view rt.old) (R.view rt.new) (given_up_of result) }
{
    let mut actions = Vec::new(alloc);
    if let Err(failed) = actions.push(action) {
        let mut action = failed.value;
        let _ = action.kill(rt, 0);
        return action;
    }
    let _ = kill_actions(rt, alloc, actions.as_mut_slice());
    actions.remove(0)
}

// Waits for the end of an action that was killed, two tenths of a second at most. Returns whether a process of it may live on.
fn outlives<R: AgentSystem + Clock, T: Drop, A: Allocator + Copy>(
    rt: &mut R,
    alloc: A,
    action: &mut GivenUpAction<T, R::Child, A>,
) -> bool
    requires given_up { IsGivenUpAt R.process_of (R.view rt.old).sights 0 action.old }
    ensures given_up { IsChangedAt R.process_of (R.view rt.old).sights (R.view rt.new).sights 0
        action.new }
    ensures same { IsSameAction action.old action.new }
    ensures ends { OnlyEnds (R.view rt.old) (R.view rt.new) }
    ensures over { result ≡ false → IsOver (R.view rt.new).sights (given_up_of action.new) }
{
    let mut pauses = Pauses::within(200);
    while action.lives(rt, alloc, 0) {
        if !pauses.pause(rt) {
            return true;
        }
    }
    false
}

// Reports a process of an action that lives on, if it is not its agent.
fn report_other<R: AgentSystem + Eprint>(rt: &mut R, process: &Process, agent: u32)
    ensures signals { OnlySignals (R.view rt.old) (R.view rt.new) }
{
    if process.pid != agent && lives_now(rt, process) {
        report_all(&*rt, slice::from_ref(process));
    }
}

// Reports the processes of an action that live on.
fn report_left<R: AgentSystem + Eprint, T: Drop, A: Allocator + Copy>(
    rt: &mut R,
    action: &GivenUpAction<T, R::Child, A>,
    whose: &str,
)
    ensures signals { OnlySignals (R.view rt.old) (R.view rt.new) }
{
    let agent = action.process.pid;
    if action.child.is_some() {
        report_alive(rt, agent, whose);
    }
    for process in action.known.iter() {
        report_other(rt, process, agent);
    }
}

/// Gives an agent up and ends it with all that belongs to it, and waits for that two tenths of a second at most. What lives on is named on
/// standard error, the agent as that of `whose`. Returns whether all of it has ended: then nothing is given up any more.
pub fn end_agent<R: AgentSystem + Clock + Eprint, A: Allocator + Copy>(
    rt: &mut R,
    alloc: A,
    child: R::Child,
    whose: &str,
) -> bool
    requires lives { Contains (R.view rt.old).sights.live (R.process_of child) }
    requires alone { (R.view rt.old).sights.given_up ≡ [] }
    ensures live { (R.view rt.new).sights.live
        ≡ without_process (R.process_of child).run (R.view rt.old).sights.live }
    ensures killed { HasKilled (R.view rt.old) (R.view rt.new) (R.process_of child) }
    ensures over { result ≡ true → (R.view rt.new).sights.given_up ≡ [] }
    ensures own { (R.view rt.new).sights.own ≡ (R.view rt.old).sights.own }
    ensures spawned { (R.view rt.new).spawned ≡ (R.view rt.old).spawned }
    ensures asked { (R.view rt.new).asked ≡ (R.view rt.old).asked }
    ensures let_run { (R.view rt.new).let_run ≡ (R.view rt.old).let_run }
    ensures polled { (R.view rt.new).polled ≡ (R.view rt.old).polled }
    ensures found { (R.view rt.new).found ≡ (R.view rt.old).found }
{
    let process = rt.process(&child);
    rt.give_up(&child);
    let mut action = killed(
        rt,
        alloc,
        GivenUpAction {
            what: (),
            process,
            child: Some(child),
            known: Vec::new(alloc),
            is_due: true,
        },
    );
    if outlives(rt, alloc, &mut action) {
        report_left(rt, &action, whose);
        return false;
    }
    rt.release(0);
    true
}
