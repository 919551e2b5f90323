//! The lines below a resource's row: what it waits for, its last results, its monitors, its last failure and its history.
ghost use Rattle.std.specs.Prelude.{◌<◌, length};

use crate::history::add_history;
use crate::options::StatusOptions;
use crate::phrases::{add_due, add_failed, add_result, add_when};
use crate::rows::Row;
use crate::widths::{pad, width_of};
use exec_state::State;
use line_text::LineText;
use ocf_codes::{Code, read_code};
use ocf_model::StateView;
use ocf_types::{Action, Ended, Outcome, Recur, RunEnd};
use resource_status::{Condition, last_run, meaning};
use std::alloc::Global;

// The columns for the name of a line: those of the longest action, and one more. A space follows them.
const COLUMNS: usize = 13;

// The actions, in the order in which they are shown.
const ACTIONS: [Action; 7] = [
    Action::Monitor,
    Action::Start,
    Action::Promote,
    Action::Demote,
    Action::Stop,
    Action::ReloadAgent,
    Action::ValidateAll,
];

// Begins a line below a row.
fn begin(line: &mut LineText, name: &[u8]) {
    line.text("\n  ");
    line.bytes(name);
    pad(line, width_of(name), COLUMNS);
    line.byte(b' ');
}

// Whether a result says that its resource is degraded.
fn says_degraded(ended: &Ended) -> bool {
    match ended.outcome {
        Outcome::Run(RunEnd::Done(code)) => {
            matches!(read_code(code), Code::Degraded | Code::DegradedPromoted)
        }
        _ => false,
    }
}

/// Whether a resource runs, and its last result says that it is degraded.
pub(crate) fn is_degraded(state: &State, index: usize, row: &Row) -> bool
    requires { index < length state.now.state.resources }
{
    let runs = matches!(row.condition, Condition::Started | Condition::Promoted);
    match state.ended_len(index) {
        0 => false,
        count => runs && says_degraded(&state.ended_at(index, count - 1)),
    }
}

/// Whether lines are shown below the row of a resource: it is named, or something is wrong with it.
pub(crate) fn has_details(options: &StatusOptions, state: &State, index: usize, row: &Row) -> bool
    requires { index < length state.now.state.resources }
{
    !options.ids.is_empty()
        || row.condition.is_bad()
        || options.wait_of(&row.id).is_some()
        || is_degraded(state, index, row)
}

// The last result of an action that was asked for once.
fn last_asked(state: &State, index: usize, action: Action) -> Option<Ended>
    requires { index < length state.now.state.resources }
{
    let mut last = None;
    for at in 0..state.ended_len(index) {
        let ended = state.ended_at(index, at);
        if ended.action == action && ended.interval == 0 {
            last = Some(ended);
        }
    }
    last
}

// Whether a monitor with this exit code found another condition than this one.
fn contradicts(condition: Condition, found: Code) -> bool {
    match condition {
        Condition::Started | Condition::Promoted => matches!(found, Code::NotRunning),
        Condition::Stopped => matches!(
            found,
            Code::Success | Code::RunningPromoted | Code::Degraded | Code::DegradedPromoted
        ),
        _ => false,
    }
}

// Whether a monitor that was asked for once found another condition than later results show.
fn is_outdated(ended: &Ended, row: &Row) -> bool {
    let (Action::Monitor, Outcome::Run(RunEnd::Done(code)), Some(since)) = (
        ended.action,
        ended.outcome,
        row.since,
    ) else {
        return false;
    };
    ended.at < since.moment && contradicts(row.condition, read_code(code))
}

// Appends the line of a result that later results contradict: without colour.
fn add_probe(alloc: Global, line: &mut LineText, options: &StatusOptions, ended: &Ended) {
    begin(line, b"probe");
    line.text(meaning(ended.action, ended.outcome));
    line.text(", ");
    add_when(alloc, line, options, ended.at);
}

// Appends the line of an action, if it has a result.
fn add_action(
    alloc: Global,
    line: &mut LineText,
    options: &StatusOptions,
    row: &Row,
    last: Option<Ended>,
) {
    match last {
        Some(ended) if is_outdated(&ended, row) => add_probe(alloc, line, options, &ended),
        Some(ended) => {
            begin(line, ended.action.word().as_bytes());
            add_result(alloc, line, options, &ended);
        }
        None => {}
    }
}

// Appends the last result of each action that was asked for once.
fn add_actions(
    alloc: Global,
    line: &mut LineText,
    options: &StatusOptions,
    state: &State,
    index: usize,
    row: &Row,
)
    requires { index < length state.now.state.resources }
{
    for action in ACTIONS {
        add_action(alloc, line, options, row, last_asked(state, index, action));
    }
}

// Appends the line of a recurring monitor: its last result, and when it is due again.
fn add_monitor(
    alloc: Global,
    line: &mut LineText,
    options: &StatusOptions,
    recur: &Recur,
    last: Option<Ended>,
) {
    let mut name = LineText::new(alloc);
    name.text("every ");
    name.exact_span(u64::from(recur.interval.get()));
    let Ok(name) = name.finish() else {
        return;
    };
    begin(line, name.as_slice());
    match last {
        Some(ended) => {
            add_result(alloc, line, options, &ended);
            line.text("; ");
            add_due(line, options, ended.at, recur.interval);
        }
        None => line.text("no result yet"),
    }
}

// Appends the lines of the recurring monitors of a resource.
fn add_monitors(
    alloc: Global,
    line: &mut LineText,
    options: &StatusOptions,
    state: &State,
    index: usize,
)
    requires { index < length state.now.state.resources }
{
    for at in 0..state.recurring_len(index) {
        let recur = state.recurring_at(index, at);
        let last = last_run(state, index, recur.call);
        add_monitor(alloc, line, options, &recur, last);
    }
}

// Appends the last failure and its reason, if an action has failed.
fn add_failure(alloc: Global, line: &mut LineText, options: &StatusOptions, row: &Row) {
    let Some(ended) = row.failed else {
        return;
    };
    begin(line, b"last failure");
    add_failed(alloc, line, options, &ended);
    if let Some(reason) = options.reason_of(&row.id) {
        begin(line, b"exit reason");
        line.text(reason);
    }
}

/// Appends the lines below the row of a resource, each after a newline.
pub(crate) fn add_details(
    alloc: Global,
    line: &mut LineText,
    options: &StatusOptions,
    state: &State,
    index: usize,
    row: &Row,
)
    requires { index < length state.now.state.resources }
{
    if let Some(wait) = options.wait_of(&row.id) {
        line.text("\n  held: ");
        line.text(wait);
    }
    add_actions(alloc, line, options, state, index, row);
    add_monitors(alloc, line, options, state, index);
    add_failure(alloc, line, options, row);
    if !options.ids.is_empty() {
        add_history(alloc, line, options, state, index);
    }
}
