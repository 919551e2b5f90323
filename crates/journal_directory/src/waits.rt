//! What resources wait for, by the record of the agents that an executor of this boot runs or looks for.
ghost use Rattle.std.specs.Prelude.{◌≡◌, ◌<◌, ◌↔◌, Any, IsTrue, length};
ghost use Rattle.ocf_model.specs.Indexes.{at_index};
ghost use Rattle.journal_directory.specs.Waits.{GoesOnIn, IsAlive, IsReused, is_past, is_run, is_run_in};

use agents_file::{AgentEntry, monotonic_now, read_agents};
use disk_model::Disk;
use exec_journal::Journal;
use exec_options::JournalLocation;
use exec_state::State;
use growth::Refused;
use line_text::LineText;
use ocf_model::StateView;
use ocf_types::{RscId, RunId};
use proc_files::{ProcFiles, Process};
use status_table::Remark;
use std::alloc::{AllocError, Global};
use std::io;
use std::str::from_utf8;

/// What a resource waits for, if none of its actions runs.
#[derive(Drop)]
pub struct FoundWait {
    id: RscId,
    text: Vec<u8>,
}

impl FoundWait {
    /// The resource that waits.
    pub fn id(&self) -> &RscId {
        &self.id
    }

    // The wait as a status takes it.
    fn as_remark(&self) -> Remark<'_> {
        Remark {
            id: &self.id,
            text: from_utf8(self.text.as_slice()).unwrap_or_default(),
        }
    }
}

// Whether the resource at an index of this state runs this run.
fn is_run_at(state: &State, index: usize, run: RunId) -> bool
    requires { index < length state.now.state.resources }
    ensures { result ≡ is_run run (at_index state.now.state index) }
{
    match state.running_at(index) {
        Some(running) => running.run.get() == run.get(),
        None => false,
    }
}

// Whether a resource of this state runs this run.
fn is_run_in(state: &State, run: RunId) -> bool
    ensures { result ≡ is_run_in state.now.state run }
{
    for index in 0..state.len() {
        if is_run_at(state, index, run) {
            return true;
        }
    }
    false
}

// Whether a run was begun before this state, which does not run it.
fn is_past(state: &State, run: RunId) -> bool
    ensures { result ≡ is_past state.now.state run }
{
    run.get() < state.next_run().get() && !is_run_in(state, run)
}

// Whether a process is alive and the agent of an entry, or in its group.
fn is_alive(process: &Process, entry: &AgentEntry) -> bool
    ensures { IsTrue result ↔ IsAlive entry.now process.now }
{
    let is_agent = process.pid == entry.pid && process.start == entry.start;
    !process.has_ended && (is_agent || process.group == entry.pid)
}

// Whether the number of an entry's agent was given to another process.
fn is_reused(process: &Process, entry: &AgentEntry) -> bool
    ensures { IsTrue result ↔ IsReused entry.now process.now }
{
    process.pid == entry.pid && process.start != entry.start
}

// Whether the agent of an entry, or a process of its group, is alive among these processes.
fn has_alive(table: &[Process], entry: &AgentEntry) -> bool
    ensures { IsTrue result ↔ Any (IsAlive entry.now) table.now }
{
    table.iter().any(|process| is_alive(process, entry))
}

// Whether the number of an entry's agent was given to another of these processes.
fn has_reused(table: &[Process], entry: &AgentEntry) -> bool
    ensures { IsTrue result ↔ Any (IsReused entry.now) table.now }
{
    table.iter().any(|process| is_reused(process, entry))
}

// Whether the action of an entry goes on among these processes.
fn goes_on_in(table: &[Process], entry: &AgentEntry) -> bool
    ensures { IsTrue result ↔ GoesOnIn table.now entry.now }
{
    has_alive(table, entry) && !has_reused(table, entry)
}

// The text of a wait for what an action left, at this reading of CLOCK_MONOTONIC.
fn text_of(alloc: Global, entry: &AgentEntry, monotonic: u64) -> Result<Vec<u8>, Refused> {
    let mut line = LineText::new(alloc);
    line.text("waits for pid ");
    line.number(u64::from(entry.pid));
    line.text(" of ");
    line.text(entry.action.word());
    let left = entry.left_at(monotonic);
    if left > 0 {
        line.text(", at most ");
        line.span(left);
        line.text(" more");
    }
    line.finish()
}

// The waits for what goes on of these entries, though this state does not run it.
fn waits_of(rt: &HostRuntime, entries: &[AgentEntry], state: &State) -> io::Result<Vec<FoundWait>> {
    let alloc = rt.alloc();
    let table = rt.processes(alloc)?;
    let now = monotonic_now(rt)?;
    let mut found = Vec::new(alloc);
    for entry in entries {
        if is_past(state, entry.run) && goes_on_in(table.as_slice(), entry) {
            found.push(FoundWait {
                id: entry.id.copied(),
                text: text_of(alloc, entry, now)?,
            })?;
        }
    }
    Ok(found)
}

// The entries of the record of the journal at this place; none where there is no record.
fn entries_of(rt: &HostRuntime, journal: JournalLocation) -> Vec<AgentEntry> {
    let JournalLocation::Directory(directory) = journal else {
        return Vec::new(rt.alloc());
    };
    match read_agents(rt, rt.alloc(), directory) {
        Some((_, entries)) => entries,
        None => Vec::new(rt.alloc()),
    }
}

/// Whether what an action of this resource started goes on, by the record of the journal in this directory. `false` where the
/// processes cannot be read.
pub fn goes_on_of(rt: &HostRuntime, directory: &str, id: &RscId) -> bool {
    let Ok(table) = rt.processes(rt.alloc()) else {
        return false;
    };
    let entries = entries_of(rt, JournalLocation::Directory(directory));
    entries.as_slice().iter().any(|entry| entry.id == *id && goes_on_in(table.as_slice(), entry))
}

/// What the resources of the journal at this place, which was read onto this disk, wait for. There is nothing where the journal, the
/// processes or the clock cannot be read; the status then reports why it fails.
pub fn waits_in<D: Disk + Drop>(
    rt: &HostRuntime,
    journal: JournalLocation,
    disk: D,
) -> (D, Vec<FoundWait>) {
    let entries = entries_of(rt, journal);
    if entries.as_slice().is_empty() {
        return (disk, Vec::new(rt.alloc()));
    }
    match Journal::open(rt.alloc(), disk) {
        Ok((journal, state)) => match waits_of(rt, entries.as_slice(), &state) {
            Ok(found) => (journal.into_disk(), found),
            Err(_) => (journal.into_disk(), Vec::new(rt.alloc())),
        },
        Err((_, disk)) => (disk, Vec::new(rt.alloc())),
    }
}

/// The waits as a status takes them.
pub fn as_remarks<'a>(
    alloc: Global,
    found: &'a [FoundWait],
) -> Result<Vec<Remark<'a>>, AllocError> {
    let mut remarks = Vec::new(alloc);
    for wait in found {
        remarks.push(wait.as_remark())?;
    }
    Ok(remarks)
}
