//! What an earlier executor left running, by the record of who runs.
ghost use Rattle.std.specs.Prelude.{◌≡◌, ◌+◌, ◌*◌, ◌++◌, ◌<◌, ◌≤◌, List, [], ◌∷◌, All, Contains, IfOk, OnOk, Some, false, length, map, option_map, take, true, vec_len};
ghost use Rattle.std.specs.Vec.{vec_capacity};
ghost use Rattle.agent_system.specs.Sights.{HasEnded};
ghost use Rattle.agent_system.specs.SystemView.{after_adopt, after_open, process_in};
ghost use Rattle.agents_file.specs.declared.entry.AgentEntry.{AgentEntry};
ghost use Rattle.child_keeper.specs.Openings.{AreFound, IsFound, IsSeenEnded, OnlyAdopts, OnlyLooks, OnlyOpens, left_of};
ghost use Rattle.process_ends.specs.Endings.{AreGivenUp, processes};

use crate::moments::{killed_at, millis_now, timeout_until};
use crate::record::Record;
use crate::wait::{Wait, wait_in};
use crate::wait_lines::report_orphan;
use crate::waits::{WAIT_LIMIT, Waits};
use agent_system::AgentSystem;
use agents_file::{AgentEntry, Kept, SLOTS};
use growth::{Grows, Refused, push};
use ocf_types::Orphan;
use proc_files::Process;
use std::alloc::Allocator;
use std::io::Eprint;
use std::rt::Clock;

/// How the executor looks after the processes of agents, as its options say.
#[derive(Clone, Copy)]
pub struct Upkeep<'a> {
    /// The journal's directory, in which the record of who runs is kept.
    pub directory: Option<&'a str>,
    /// For how many milliseconds an agent of an earlier executor is left alone at most.
    pub limit: u64,
    /// Whether such an agent is left to itself, and its resource not held.
    pub leave: bool,
    /// Whether each agent is to lead a process group of its own.
    pub groups: bool,
}

// Opens the record of who runs, and returns the entries that it has. A record that cannot be opened is reported, and then none is kept;
// one that was replaced is reported too.
fn opened<R: AgentSystem + Eprint>(rt: &mut R, directory: Option<&str>) -> Option<Vec<Kept>>
    ensures { R.view rt.new
        ≡ after_open (R.view rt.old) (option_map (λ kept. map (λ k. k.entry) kept.items) result) }
{
    let directory = directory?;
    match rt.open_record(directory) {
        Ok(found) => {
            if found.was_foreign {
                let _ = rt.eprintln(format_args!(
                    "ocfexec: {directory}/agents was not written since this boot of the system, and is made anew"
                ));
            }
            Some(found.entries)
        }
        Err(error) => {
            let _ = rt.eprintln(format_args!(
                "ocfexec: {directory}/agents: {error}; no later executor will know which agents run"
            ));
            None
        }
    }
}

// Whether a group has a member that has not ended, as is listed; where that cannot be, as the system says, for which a process that was
// not reaped is a member.
fn has_member<R: AgentSystem, A: Allocator + Copy>(rt: &mut R, alloc: A, group: u32) -> bool
    ensures { OnlyLooks (R.view rt.old) (R.view rt.new) }
{
    let asked = rt.has_members(group);
    if asked == Some(false) {
        return false;
    }
    match rt.list(alloc) {
        Ok(table) => table
            .iter()
            .any(|process| process.group == group && !process.has_ended),
        Err(_) => asked == Some(true),
    }
}

// Whether an answer about the number of an entry's process shows that this has ended.
fn has_ended(entry: &AgentEntry, answer: &Option<Process>) -> bool
    ensures { result ≡ true → HasEnded (Some entry.now.start) (Some answer.now) }
{
    match answer {
        Some(process) => process.has_ended || process.start != entry.start,
        None => true,
    }
}

// Whether such an answer shows another process.
fn is_other(entry: &AgentEntry, answer: &Option<Process>) -> bool {
    match answer {
        Some(process) => process.start != entry.start,
        None => false,
    }
}

// Whether the agent of an entry, or a member of its group, lives, as far as the system shows it. A number that is another process's was
// free in between, so no process was left in the group then. POSIX, fork.
fn lives<R: AgentSystem, A: Allocator + Copy>(rt: &mut R, alloc: A, entry: &AgentEntry) -> bool
    ensures looks { OnlyLooks (R.view rt.old) (R.view rt.new) }
    ensures ended { result ≡ false → IsSeenEnded (R.view rt.old) (R.view rt.new) entry.now }
{
    let Ok(answer) = rt.look(entry.pid) else {
        return true;
    };
    if !has_ended(entry, &answer) {
        return true;
    }
    !is_other(entry, &answer) && has_member(rt, alloc, entry.pid)
}

// The entry of an agent that is killed at this reading of the monotonic clock: then it ends.
fn ending_at(entry: &AgentEntry, until: u64) -> AgentEntry {
    AgentEntry {
        run: entry.run,
        id: entry.id.copied(),
        action: entry.action,
        pid: entry.pid,
        start: entry.start,
        began: entry.began,
        timeout: timeout_until(entry, until),
    }
}

// Has a resource wait for the end of an agent that lives. Its entry is rewritten, so that it ends when the agent is killed.
fn hold<R: AgentSystem + Clock + Eprint, A: Allocator + Copy>(
    rt: &mut R,
    alloc: A,
    waits: &mut Vec<Wait<R::Child, A>, A>,
    record: Record,
    kept: &Kept,
    limit: u64,
)
    requires room { vec_len waits.old < vec_capacity waits.old }
    requires found { Contains (R.view rt.old).found kept.now.entry }
    requires given_up { AreGivenUp R.process_of (R.view rt.old).sights waits.old.items }
    ensures given_up { AreGivenUp R.process_of (R.view rt.new).sights waits.new.items }
    ensures adopted { R.view rt.new ≡ after_adopt (R.view rt.old) kept.now.entry }
    ensures added { processes waits.new.items
        ≡ processes waits.old.items ++ process_in kept.now.entry ∷ [] }
    ensures len { vec_len waits.new ≡ vec_len waits.old + 1 }
    ensures capacity { vec_capacity waits.new ≡ vec_capacity waits.old }
{
    let now = millis_now(rt);
    let until = killed_at(&kept.entry, limit, now);
    record.rewrite(rt, kept.slot, &ending_at(&kept.entry, until));
    rt.adopt(&kept.entry);
    let wait = wait_in(alloc, kept, until);
    report_orphan(rt, &wait, until.saturating_sub(now));
    waits.push_reserved(wait);
}

// How an agent is listed that lives.
fn left_of(entry: &AgentEntry) -> Orphan
    ensures { result ≡ left_of entry.now }
{
    Orphan {
        run: entry.run,
        pid: entry.pid,
    }
}

/// What is found of an earlier executor's agents.
#[derive(Drop)]
pub struct Orphans<C: Drop, A: Allocator> {
    pub record: Record,
    pub waits: Waits<C, A>,
    /// Those that live.
    pub left: Vec<Orphan, A>,
}

impl<C: Drop, A: Grows> Orphans<C, A> {
    // Looks for the agent of an entry. One that lives is listed, and its resource waits for its end, unless it is left to itself. The
    // entry of any other is freed.
    fn find<R: AgentSystem<Child = C> + Clock + Eprint>(
        &mut self,
        rt: &mut R,
        alloc: A,
        kept: &Kept,
        upkeep: Upkeep<'_>,
    ) -> Result<(), Refused<A>>
        requires room { vec_len self.old.waits.waits < SLOTS }
        requires found { Contains (R.view rt.old).found kept.now.entry }
        requires given_up { AreGivenUp R.process_of (R.view rt.old).sights self.old.waits.waits.items }
        ensures given_up { AreGivenUp R.process_of (R.view rt.new).sights self.new.waits.waits.items }
        ensures adopts { OnlyAdopts (R.view rt.old) (R.view rt.new) }
        ensures found { OnOk result (IsFound (R.view rt.old) (R.view rt.new) upkeep.entry.leave kept.now.entry
            (processes self.old.waits.waits.items) (processes self.new.waits.waits.items)
            self.old.left.items self.new.left.items) }
        ensures len { vec_len self.new.waits.waits ≤ vec_len self.old.waits.waits + 1 }
    {
        let is_alive = lives(rt, alloc, &kept.entry);
        if is_alive && !upkeep.leave {
            hold(
                rt,
                alloc,
                &mut self.waits.waits,
                self.record,
                kept,
                upkeep.limit,
            );
        } else {
            self.record.clear(rt, Some(kept.slot));
        }
        if is_alive {
            push(&mut self.left, left_of(&kept.entry))?;
        }
        Ok(())
    }

    // Looks for the agents of entries.
    fn find_all<R: AgentSystem<Child = C> + Clock + Eprint>(
        &mut self,
        rt: &mut R,
        alloc: A,
        entries: &[Kept],
        upkeep: Upkeep<'_>,
    ) -> Result<(), Refused<A>>
        requires few { length entries.now ≤ SLOTS }
        requires found { All (λ k. Contains (R.view rt.old).found k.entry) entries.now }
        requires none { self.old.waits.waits.items ≡ [] }
        requires unlisted { self.old.left.items ≡ [] }
        requires given_up { (R.view rt.old).sights.given_up ≡ [] }
        ensures given_up { AreGivenUp R.process_of (R.view rt.new).sights self.new.waits.waits.items }
        ensures adopts { OnlyAdopts (R.view rt.old) (R.view rt.new) }
        ensures found { OnOk result (AreFound (R.view rt.old) (R.view rt.new) upkeep.entry.leave
            (map (λ k. k.entry) entries.now) (processes self.new.waits.waits.items) self.new.left.items) }
        ensures few { vec_len self.new.waits.waits ≤ length entries.now }
    {
        for kept in entries {
            self.find(rt, alloc, kept, upkeep)?;
        }
        Ok(())
    }
}

/// Finds the agents of an earlier executor that live, by the record of who runs, and has their resources wait for their end, as the
/// options say. Where agents are left to themselves, the record is emptied.
pub fn find_orphans<R: AgentSystem + Clock + Eprint, A: Grows>(
    rt: &mut R,
    alloc: A,
    upkeep: Upkeep<'_>,
) -> Result<Orphans<R::Child, A>, Refused<A>>
    requires { (R.view rt.old).sights.given_up ≡ [] }
    ensures given_up { IfOk result
        (λ orphans. AreGivenUp R.process_of (R.view rt.new).sights orphans.waits.waits.items) }
    ensures opens { OnlyOpens (R.view rt.old) (R.view rt.new) }
    ensures found { IfOk result (λ orphans. (entries : List AgentEntry)
        × ((R.view rt.new).found ≡ (R.view rt.old).found ++ entries)
        × AreFound (R.view rt.old) (R.view rt.new) upkeep.entry.leave (take SLOTS entries)
        (processes orphans.waits.waits.items) orphans.left.items) }
    ensures few { IfOk result (λ orphans. vec_len orphans.waits.waits ≤ WAIT_LIMIT) }
{
    let mut orphans = Orphans {
        record: Record::new(false),
        waits: Waits::new(alloc)?,
        left: Vec::new(alloc),
    };
    let Some(mut entries) = opened(rt, upkeep.directory) else {
        return Ok(orphans);
    };
    orphans.record = Record::new(true);
    // the file has no more slots
    entries.truncate(SLOTS);
    orphans.find_all(rt, alloc, entries.as_slice(), upkeep)?;
    Ok(orphans)
}
