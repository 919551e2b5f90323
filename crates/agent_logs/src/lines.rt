//! The lines around an agent's own output.

use growth::Refused;
use line_text::LineText;
use log_lines::add_moment;
use ocf_codes::{name, read_code};
use ocf_types::{CallId, Millis, Moment, RscId, RunId, StartFault};
use std::alloc::Global;

/// The beginning of a line: when it was written and, in a log of all resources, the id.
#[derive(Clone, Copy)]
pub struct Stamp<'a> {
    pub id: Option<&'a RscId>,
    pub at: Moment,
}

/// A run that begins.
#[derive(Clone, Copy)]
pub struct Begun<'a> {
    pub call: CallId,
    pub run: RunId,
    /// The name of the action.
    pub action: &'a str,
    /// Its timeout.
    pub timeout: Millis,
}

/// How a run ended, as it is logged.
#[derive(Clone, Copy)]
pub enum LoggedEnd {
    /// The agent ended with this exit code.
    Exited(u8),
    /// This signal ended it, as signal(7) numbers them; 0 where the system names none.
    Signaled(u8),
    /// It was killed: its timeout has passed, or the executor ends.
    Killed,
    /// The system failed to answer a poll, and it was given up.
    Lost,
    /// The agent was not spawned.
    Refused(StartFault),
}

/// A run that has ended.
#[derive(Clone, Copy)]
pub struct Ended {
    pub run: RunId,
    pub end: LoggedEnd,
    /// How many milliseconds have passed since its begin.
    pub millis: u64,
}

fn add_id(line: &mut LineText, id: Option<&RscId>) {
    let Some(id) = id else {
        return;
    };
    line.bytes(id.as_bytes());
    line.text(": ");
}

fn add_stamp(line: &mut LineText, stamp: &Stamp<'_>) {
    add_id(line, stamp.id);
    add_moment(line, stamp.at);
    line.text(" ");
}

fn add_call(line: &mut LineText, call: CallId) {
    line.text("call ");
    line.number(call.get())
}

fn add_run(line: &mut LineText, run: RunId) {
    line.text("run ");
    line.number(run.get())
}

fn add_millis(line: &mut LineText, before: &str, millis: u64) {
    line.text(before);
    line.number(millis);
    line.text(" ms");
}

// Adds the action and its timeout.
fn add_task(line: &mut LineText, begun: &Begun<'_>) {
    line.text(": ");
    line.text(begun.action);
    add_millis(line, ", timeout ", u64::from(begun.timeout.get()))
}

/// The line that is written before an agent's own output.
pub fn begun_line(alloc: Global, stamp: &Stamp<'_>, begun: &Begun<'_>) -> Result<Vec<u8>, Refused> {
    let mut line = LineText::new(alloc);
    add_stamp(&mut line, stamp);
    add_call(&mut line, begun.call);
    line.text(" begins as ");
    add_run(&mut line, begun.run);
    add_task(&mut line, begun);
    line.text("\n");
    line.finish()
}

// Adds the name and the number of an exit code.
fn add_code(line: &mut LineText, code: u8) {
    line.text(": ");
    line.text(name(read_code(code)));
    line.text(" (");
    line.number(u64::from(code));
    line.text(")");
}

// Why an agent was not spawned.
fn refusal_text(fault: StartFault) -> &'static str {
    match fault {
        StartFault::Missing => " was not started: the agent's file is missing",
        StartFault::Denied => " was not started: the agent's file may not be run",
        StartFault::Other => " was not started",
    }
}

// Adds how a run ended, after this many milliseconds.
fn add_end(line: &mut LineText, end: LoggedEnd, millis: u64) {
    match end {
        LoggedEnd::Exited(code) => {
            add_millis(line, " ended in ", millis);
            add_code(line, code)
        }
        LoggedEnd::Signaled(signal) => {
            add_millis(line, " was ended after ", millis);
            line.text(" by signal ");
            line.number(u64::from(signal))
        }
        LoggedEnd::Killed => add_millis(line, " was killed after ", millis),
        LoggedEnd::Lost => add_millis(line, " was given up after ", millis),
        LoggedEnd::Refused(fault) => line.text(refusal_text(fault)),
    }
}

/// The line that is written after an agent's own output.
pub fn ended_line(alloc: Global, stamp: &Stamp<'_>, ended: Ended) -> Result<Vec<u8>, Refused> {
    let mut line = LineText::new(alloc);
    add_stamp(&mut line, stamp);
    add_run(&mut line, ended.run);
    add_end(&mut line, ended.end, ended.millis);
    line.text("\n");
    line.finish()
}
