//! The entries of the file.
ghost use Rattle.std.specs.Prelude.{◌≡◌, ◌≢◌, ◌-◌, ◌≤◌, ◌↔◌, ℕ, IfNone, IfSome, IsTrue, Some, decimal, length, true};
ghost use Rattle.ocf_types.specs.Actions.{action_word};
ghost use Rattle.ocf_types.specs.Names.{is_rsc_id};
ghost use Rattle.ocf_types.specs.Numbers.{IsDrawn};
ghost use Rattle.ocf_types.specs.declared.action.Action.{Action};
ghost use Rattle.agents_file.specs.Entries.{IsEntry, IsPid, entry_fields, entry_line, entry_text, texts_of};
ghost use Rattle.agents_file.specs.declared.entry.AgentEntry.{AgentEntry};

use crate::line::{Fields, LINE_LEN, add_field, add_number, cut, number, padded, short_number};
use arrayvec::ArrayVec;
use ocf_types::{Action, RscId, RunId};
use std::str;

/// An agent's process that runs an action of a resource.
#[derive(Drop)]
pub struct AgentEntry {
    /// The run of the action.
    pub run: RunId,
    /// The resource.
    pub id: RscId,
    /// The action.
    pub action: Action,
    /// The number of the process.
    pub pid: u32,
    /// When the process started, in clock ticks after the system's boot. Linux, proc(5), stat, field 22.
    pub start: u64,
    /// When the action began: the reading of CLOCK_MONOTONIC, in milliseconds. POSIX, clock_gettime.
    pub began: u64,
    /// The timeout of the action, in milliseconds.
    pub timeout: u32,
}

impl AgentEntry {
    /// How much of the action's timeout is left at this reading of CLOCK_MONOTONIC, in milliseconds.
    pub fn left_at(&self, monotonic: u64) -> u64
        ensures { result ≡ self.now.timeout - (monotonic - self.now.began) }
    {
        u64::from(self.timeout).saturating_sub(monotonic.saturating_sub(self.began))
    }
}

// The fields of an entry.
#[tactic(auto, using(ocf_types::specs::NameLemmas::ids, crate::proofs::EntryLemmas::words))]
fn entry_text(entry: &AgentEntry) -> Fields
    ensures text { result.items ≡ entry_text entry.now }
    ensures short { length result.items ≤ 255 }
{
    let mut fields = ArrayVec::new();
    add_number(&mut fields, entry.run.get());
    add_field(&mut fields, entry.id.as_bytes());
    add_field(&mut fields, entry.action.word().as_bytes());
    add_number(&mut fields, u64::from(entry.pid));
    add_number(&mut fields, entry.start);
    add_number(&mut fields, entry.began);
    add_number(&mut fields, u64::from(entry.timeout));
    fields
}

/// The line of an entry.
pub fn entry_line(entry: &AgentEntry) -> [u8; LINE_LEN]
    ensures { result ≡ entry_line entry.now }
{
    padded(entry_text(entry).as_slice())
}

// The texts of the fields of an entry.
#[derive(Clone, Copy)]
struct EntryFields<'a> {
    run: &'a [u8],
    id: &'a [u8],
    action: &'a [u8],
    pid: &'a [u8],
    start: &'a [u8],
    began: &'a [u8],
    timeout: &'a [u8],
}

// The fields that a line seems to have: the caller checks them.
fn fields_in(line: &[u8]) -> EntryFields<'_>
    ensures { (e : AgentEntry) → IsEntry e → line.now ≡ entry_line e
        → texts_of result ≡ entry_fields e }
{
    let (run, rest) = cut(line);
    let (id, rest) = cut(rest);
    let (action, rest) = cut(rest);
    let (pid, rest) = cut(rest);
    let (start, rest) = cut(rest);
    let (began, rest) = cut(rest);
    let (timeout, _) = cut(rest);
    EntryFields {
        run,
        id,
        action,
        pid,
        start,
        began,
        timeout,
    }
}

// The run that a field seems to be the number of: the caller checks it.
fn run_in(field: &[u8]) -> Option<RunId>
    ensures { (n : ℕ) → IsDrawn n → field.now ≡ decimal n → result ≡ Some n }
{
    RunId::new(number(field))
}

// The id of a resource in a field.
fn id_in(field: &[u8]) -> Option<RscId>
    ensures { is_rsc_id field.now ≡ true → result ≡ Some field.now }
{
    match RscId::new(field) {
        Ok(id) => Some(id),
        Err(_) => None,
    }
}

// The action of a word.
fn action_in(field: &[u8]) -> Option<Action>
    ensures { (action : Action) → field.now ≡ action_word action → result ≡ Some action }
{
    match str::from_utf8(field) {
        Ok(word) => Action::named(word),
        Err(_) => None,
    }
}

// The entry that a line seems to be of: the caller checks it.
fn entry_in(line: &[u8]) -> Option<AgentEntry>
    ensures { (e : AgentEntry) → IsEntry e → line.now ≡ entry_line e → result ≡ Some e }
{
    let fields = fields_in(line);
    let Some(run) = run_in(fields.run) else {
        return None;
    };
    let Some(id) = id_in(fields.id) else {
        return None;
    };
    let Some(action) = action_in(fields.action) else {
        return None;
    };
    Some(AgentEntry {
        run,
        id,
        action,
        pid: short_number(fields.pid),
        start: number(fields.start),
        began: number(fields.began),
        timeout: short_number(fields.timeout),
    })
}

// Whether a process of an agent can have this number.
fn is_pid(pid: u32) -> bool
    ensures { IsTrue result ↔ IsPid pid }
{
    2 <= pid && pid < 1 << 31
}

/// The entry of a line; `None` exactly when it is the line of no entry. A number has one spelling, without a sign and without a zero
/// before it. No entry has the process number 0 or 1: a signal to that group would reach others.
pub fn entry_of(line: &[u8]) -> Option<AgentEntry>
    ensures some { IfSome result (λ e. line.now ≡ entry_line e) }
    ensures pid { IfSome result (λ e. IsPid e.pid) }
    ensures none { IfNone result ((e : AgentEntry) → IsEntry e → line.now ≢ entry_line e) }
{
    let entry = entry_in(line)?;
    let written = entry_line(&entry);
    if is_pid(entry.pid) && line == &written[..] {
        Some(entry)
    } else {
        None
    }
}
