//! Resources that are held until the processes of an earlier action have ended.
ghost use Rattle.std.specs.Prelude.{◌≡◌, ◌*◌, ◌+◌, ◌++◌, ◌≤◌, ◌<◌, [], ◌∷◌, All, IfOk, if◌then◌else◌, length, map, not, vec_len};
ghost use Rattle.std.specs.List.{list_any, remove};
ghost use Rattle.std.specs.Str.{bytes_eq};
ghost use Rattle.std.specs.Vec.{vec_capacity};
ghost use Rattle.agent_system.specs.May.{IsOverAt};
ghost use Rattle.child_keeper.specs.Waits.{IsFresh, IsPart, IsWaitFor, ids_of, marked, settled, reported};
ghost use Rattle.child_model.specs.Children.{is_held, live_limit};
ghost use Rattle.child_keeper.specs.declared.wait.WaitOf.{WaitOf};
ghost use Rattle.process_ends.specs.Endings.{AreGivenUp, HasKilled, OnlyEnds, processes};
ghost use Rattle.process_ends.specs.declared.given_up.GivenUpAction.{GivenUpAction};

use crate::agents::{Agent, LIVE_LIMIT};
use crate::moments::millis_now;
use crate::record::Record;
use crate::wait::{Wait, wait_for};
use crate::wait_lines::{report_begun, report_over, report_overdue};
use agent_system::AgentSystem;
use growth::{Grows, Refused, with_capacity};
use ocf_types::RscId;
use pauses::Pauses;
use process_ends::kill_actions;
use std::alloc::Allocator;
use std::io::Eprint;
use std::rt::Clock;

/// How many waits there are at most: for those that the record of who runs may have at an opening, and for all that are given up at once.
pub const WAIT_LIMIT: usize = 3 * LIVE_LIMIT;

// How many milliseconds are between two looks at the processes that are waited for.
const BETWEEN_LOOKS: u64 = 20;

// How many milliseconds are between two kills of the same processes.
const BETWEEN_KILLS: u64 = 1_000;

/// Waits for processes of earlier actions, oldest first.
#[derive(Drop)]
pub struct Waits<C: Drop, A: Allocator> {
    pub waits: Vec<Wait<C, A>, A>,
    // When the processes are looked at again, in milliseconds of the monotonic clock.
    pub next_look: u64,
    pub ghost room: { 3 * live_limit ≤ vec_capacity waits },
}

/// Whether one of these waits is that of a resource.
pub fn any_of<C: Drop, A: Allocator>(waits: &[Wait<C, A>], id: &RscId) -> bool
    ensures { result ≡ list_any (λ w. bytes_eq id.now w.process.id) waits.now }
{
    waits.iter().any(|wait| *id == wait.process.id)
}

// Whether one of these waits was not reported.
fn any_unreported<C: Drop, A: Allocator>(waits: &[Wait<C, A>]) -> bool
    ensures { result ≡ list_any (λ w. not w.what.is_reported) waits.now }
{
    waits.iter().any(|wait| !wait.what.is_reported)
}

// Whether the processes of one of these waits are to be killed.
fn any_due<C: Drop, A: Allocator>(waits: &[Wait<C, A>]) -> bool
    ensures { result ≡ list_any (λ w. w.is_due) waits.now }
{
    waits.iter().any(|wait| wait.is_due)
}

// Marks the waits whose processes are to be killed at this reading of the monotonic clock.
fn mark_due<C: Drop, A: Allocator>(waits: &mut [Wait<C, A>], now: u64)
    ensures { waits.new ≡ map (marked now) waits.old }
{
    for wait in waits {
        wait.is_due = wait.what.until <= now;
    }
}

// Notes of a wait whose processes were killed, if they were, that they are killed again at this reading of the monotonic clock.
fn settle<C: Drop, A: Allocator>(wait: &mut Wait<C, A>, until: u64)
    ensures { wait.new ≡ settled until wait.old }
{
    if wait.is_due {
        wait.is_due = false;
        wait.what.until = until;
        wait.what.is_killed = true;
    }
}

// Notes of the waits whose processes were killed that they are killed again at this reading of the monotonic clock.
fn settle_all<C: Drop, A: Allocator>(waits: &mut [Wait<C, A>], until: u64)
    ensures { waits.new ≡ map (settled until) waits.old }
{
    for wait in waits {
        settle(wait, until);
    }
}

// Reports the waits for processes whose time is over and that are killed for the first time now.
fn report_due<R: Eprint, C: Drop, A: Allocator>(rt: &R, waits: &[Wait<C, A>]) {
    for wait in waits {
        if wait.is_due && wait.what.is_reported && !wait.what.is_killed {
            report_overdue(rt, wait);
        }
    }
}

// Kills the processes of the waits that are due, all together.
fn kill_due<R: AgentSystem + Eprint, A: Allocator + Copy>(
    rt: &mut R,
    alloc: A,
    waits: &mut [Wait<R::Child, A>],
    now: u64,
)
    requires given_up { AreGivenUp R.process_of (R.view rt.old).sights waits.old }
    ensures given_up { AreGivenUp R.process_of (R.view rt.new).sights waits.new }
    ensures ends { OnlyEnds (R.view rt.old) (R.view rt.new) }
    ensures same { processes waits.new ≡ processes waits.old }
    ensures killed { All (λ w. w.what.until ≤ now
        → HasKilled (R.view rt.old) (R.view rt.new) w.process) waits.old }
{
    mark_due(waits, now);
    if !any_due(waits) {
        return;
    }
    report_due(rt, waits);
    // what was not killed is killed again in a second
    let _ = kill_actions(rt, alloc, waits);
    settle_all(waits, now.saturating_add(BETWEEN_KILLS));
}

// The same for all waits that there are.
fn end_due<R: AgentSystem + Eprint, A: Allocator + Copy>(
    rt: &mut R,
    alloc: A,
    waits: &mut Vec<Wait<R::Child, A>, A>,
    now: u64,
)
    requires given_up { AreGivenUp R.process_of (R.view rt.old).sights waits.old.items }
    ensures given_up { AreGivenUp R.process_of (R.view rt.new).sights waits.new.items }
    ensures ends { OnlyEnds (R.view rt.old) (R.view rt.new) }
    ensures same { processes waits.new.items ≡ processes waits.old.items }
    ensures killed { All (λ w. w.what.until ≤ now
        → HasKilled (R.view rt.old) (R.view rt.new) w.process) waits.old.items }
    ensures capacity { vec_capacity waits.new ≡ vec_capacity waits.old }
{
    kill_due(rt, alloc, waits.as_mut_slice(), now);
}

// Removes a wait whose processes have ended, and frees its entry in the record.
fn end_wait<R: AgentSystem + Eprint, A: Allocator + Copy>(
    rt: &mut R,
    waits: &mut Vec<Wait<R::Child, A>, A>,
    record: Record,
    at: usize,
)
    requires within { at < vec_len waits.old }
    requires given_up { AreGivenUp R.process_of (R.view rt.old).sights waits.old.items }
    requires over { IsOverAt (R.view rt.old).sights at }
    ensures given_up { AreGivenUp R.process_of (R.view rt.new).sights waits.new.items }
    ensures ends { OnlyEnds (R.view rt.old) (R.view rt.new) }
    ensures gone { waits.new.items ≡ remove waits.old.items at }
    ensures fewer { vec_len waits.new + 1 ≡ vec_len waits.old }
    ensures capacity { vec_capacity waits.new ≡ vec_capacity waits.old }
{
    let wait = waits.remove(at);
    rt.release(at);
    report_over(rt, &wait);
    record.clear(rt, wait.what.slot);
}

// Whether a wait goes on. If its processes have ended, it is removed, and its entry in the record is freed.
fn goes_on<R: AgentSystem + Eprint, A: Allocator + Copy>(
    rt: &mut R,
    alloc: A,
    waits: &mut Vec<Wait<R::Child, A>, A>,
    record: Record,
    at: usize,
) -> bool
    requires within { at < vec_len waits.old }
    requires given_up { AreGivenUp R.process_of (R.view rt.old).sights waits.old.items }
    ensures given_up { AreGivenUp R.process_of (R.view rt.new).sights waits.new.items }
    ensures ends { OnlyEnds (R.view rt.old) (R.view rt.new) }
    ensures processes { processes waits.new.items
        ≡ (if result then processes waits.old.items else remove (processes waits.old.items) at) }
    ensures capacity { vec_capacity waits.new ≡ vec_capacity waits.old }
{
    let wait = &mut waits[at];
    if wait.lives(rt, alloc, at) {
        return true;
    }
    end_wait(rt, waits, record, at);
    false
}

// Removes the waits whose processes have ended, and frees their entries in the record.
fn remove_ended<R: AgentSystem + Eprint, A: Allocator + Copy>(
    rt: &mut R,
    alloc: A,
    waits: &mut Vec<Wait<R::Child, A>, A>,
    record: Record,
)
    requires given_up { AreGivenUp R.process_of (R.view rt.old).sights waits.old.items }
    ensures given_up { AreGivenUp R.process_of (R.view rt.new).sights waits.new.items }
    ensures ends { OnlyEnds (R.view rt.old) (R.view rt.new) }
    ensures rest { IsPart (processes waits.new.items) (processes waits.old.items) }
    ensures capacity { vec_capacity waits.new ≡ vec_capacity waits.old }
{
    let mut at = 0;
    while at < waits.len() {
        if goes_on(rt, alloc, waits, record, at) {
            at += 1;
        }
    }
}

// The same; while there are waits that were not reported yet, it waits for the end of their processes, up to a tenth of a second.
fn await_ended<R: AgentSystem + Clock + Eprint, A: Allocator + Copy>(
    rt: &mut R,
    alloc: A,
    waits: &mut Vec<Wait<R::Child, A>, A>,
    record: Record,
)
    requires given_up { AreGivenUp R.process_of (R.view rt.old).sights waits.old.items }
    ensures given_up { AreGivenUp R.process_of (R.view rt.new).sights waits.new.items }
    ensures ends { OnlyEnds (R.view rt.old) (R.view rt.new) }
    ensures rest { IsPart (processes waits.new.items) (processes waits.old.items) }
    ensures capacity { vec_capacity waits.new ≡ vec_capacity waits.old }
{
    let mut pauses = Pauses::after_kill();
    remove_ended(rt, alloc, waits, record);
    while any_unreported(waits.as_slice()) && pauses.pause(rt) {
        remove_ended(rt, alloc, waits, record);
    }
}

// Reports a wait, if it was not reported yet.
fn report<R: AgentSystem + Eprint, C: Drop, A: Allocator>(rt: &R, wait: &mut Wait<C, A>)
    ensures { wait.new ≡ reported wait.old }
{
    if !wait.what.is_reported {
        report_begun(rt, wait);
        wait.what.is_reported = true;
    }
}

// Reports the waits that were not reported yet.
fn report_fresh<R: AgentSystem + Eprint, C: Drop, A: Allocator>(
    rt: &R,
    waits: &mut Vec<Wait<C, A>, A>,
)
    ensures reported { waits.new.items ≡ map reported waits.old.items }
    ensures capacity { vec_capacity waits.new ≡ vec_capacity waits.old }
{
    for wait in waits.as_mut_slice() {
        report(rt, wait);
    }
}

impl<C: Drop, A: Grows> Waits<C, A> {
    /// No waits, with the capacity for all that there may be. It fails only where memory is refused.
    pub fn new(alloc: A) -> Result<Waits<C, A>, Refused<A>>
        ensures none { IfOk result (λ w. w.waits.items ≡ []) }
    {
        Ok(Waits {
            waits: with_capacity(alloc, WAIT_LIMIT)?,
            next_look: 0,
        })
    }
}

impl<C: Drop, A: Allocator + Copy> Waits<C, A> {
    /// Has a wait begin for an agent that was given up. It takes no memory.
    pub fn add_agent(&mut self, alloc: A, agent: Agent<C>)
        requires room { vec_len self.old.waits < WAIT_LIMIT }
        ensures added { (w : GivenUpAction WaitOf _ _) × IsWaitFor agent w
            × (self.new.waits.items ≡ self.old.waits.items ++ w ∷ []) }
    {
        self.waits.push_reserved(wait_for(alloc, agent));
    }

    /// Whether a resource is held.
    pub fn holds(&self, id: &RscId) -> bool
        ensures value { result ≡ is_held (ids_of self.now.waits.items) id.now }
    {
        any_of(self.waits.as_slice(), id)
    }

    /// Kills the processes of the waits that are due, and ends those waits whose processes have ended. After a kill of processes for the
    /// first time it waits a tenth of a second at most for their end. It looks at the processes once in 20 milliseconds at most, unless
    /// there are waits that were not reported yet.
    pub fn go_on<R: AgentSystem<Child = C> + Clock + Eprint>(
        &mut self,
        rt: &mut R,
        alloc: A,
        record: Record,
    )
        requires { AreGivenUp R.process_of (R.view rt.old).sights self.old.waits.items }
        ensures given_up { AreGivenUp R.process_of (R.view rt.new).sights self.new.waits.items }
        ensures ends { OnlyEnds (R.view rt.old) (R.view rt.new) }
        ensures killed { All (λ w. IsFresh w
            → HasKilled (R.view rt.old) (R.view rt.new) w.process) self.old.waits.items }
        ensures rest { IsPart (processes self.new.waits.items) (processes self.old.waits.items) }
    {
        let now = millis_now(rt);
        if now < self.next_look && !any_unreported(self.waits.as_slice()) {
            return;
        }
        self.next_look = now.saturating_add(BETWEEN_LOOKS);
        end_due(rt, alloc, &mut self.waits, now);
        await_ended(rt, alloc, &mut self.waits, record);
        report_fresh(rt, &mut self.waits);
    }
}
