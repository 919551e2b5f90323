//! The history of a resource: its results, oldest first, with equal results of a recurring monitor as one line.
ghost use Rattle.std.specs.Prelude.{◌<◌, length};
ghost use Rattle.ocf_model.specs.Indexes.{at_index};

use crate::options::StatusOptions;
use crate::phrases::{add_painted, add_result, add_time, age_of};
use exec_state::State;
use line_text::LineText;
use ocf_model::StateView;
use ocf_types::{Ended, Outcome, RunEnd};
use resource_status::{Tone, meaning, tone_of};
use std::alloc::Global;

// Whether a result may be one of several in a line: it is of a recurring monitor, and no failure.
fn folds(ended: &Ended) -> bool {
    ended.interval != 0 && !matches!(tone_of(ended.outcome), Tone::Bad)
}

// The exit code of a result, if its agent gave one.
fn code_of_agent(outcome: Outcome) -> Option<u8> {
    match outcome {
        Outcome::Run(RunEnd::Done(code)) => Some(code),
        _ => None,
    }
}

// Whether two results that may share a line are equal but for their moments.
fn are_equal(one: &Ended, other: &Ended) -> bool {
    one.call == other.call && code_of_agent(one.outcome) == code_of_agent(other.outcome)
}

// Whether an earlier result has a line that has this one too.
fn has_line(state: &State, index: usize, at: usize) -> bool
    requires known { index < length state.now.state.resources }
    requires within { at < length (at_index state.now.state index).history.ended }
{
    let ended = state.ended_at(index, at);
    if !folds(&ended) {
        return false;
    }
    for back in 1..at.saturating_add(1) {
        let earlier = state.ended_at(index, at - back);
        if !folds(&earlier) {
            return false;
        }
        if are_equal(&earlier, &ended) {
            return true;
        }
    }
    false
}

// The last result of the line that begins with this one, and their number.
fn last_like(state: &State, index: usize, at: usize) -> (Ended, u64)
    requires known { index < length state.now.state.resources }
    requires within { at < length (at_index state.now.state index).history.ended }
{
    let first = state.ended_at(index, at);
    let mut last = first;
    let mut count = 1u64;
    for next in at.saturating_add(1)..state.ended_len(index) {
        let ended = state.ended_at(index, next);
        if !folds(&ended) {
            return (last, count);
        }
        if are_equal(&first, &ended) {
            last = ended;
            count = count.saturating_add(1);
        }
    }
    (last, count)
}

// Appends the beginning of a line: the call and the action.
fn begin(line: &mut LineText, ended: &Ended) {
    line.text("\n  call ");
    line.number(ended.call.get());
    line.text(", ");
    line.text(ended.action.word());
}

// Appends the line of one result.
fn add_one(alloc: Global, line: &mut LineText, options: &StatusOptions, ended: &Ended) {
    begin(line, ended);
    line.text(" of ");
    line.span(ended.at.get().saturating_sub(ended.since.get()));
    line.text(": ");
    add_result(alloc, line, options, ended);
}

// Appends from when to when equal results were.
fn add_range(
    alloc: Global,
    line: &mut LineText,
    options: &StatusOptions,
    first: &Ended,
    last: &Ended,
) {
    if options.times {
        line.text("at ");
        add_time(alloc, line, first.at);
        line.text(" to ");
        add_time(alloc, line, last.at);
    } else {
        line.span(age_of(options, first.at));
        line.text(" to ");
        line.span(age_of(options, last.at));
        line.text(" ago");
    }
}

// Appends the line of several equal results.
fn add_several(
    alloc: Global,
    line: &mut LineText,
    options: &StatusOptions,
    ends: (&Ended, &Ended),
    count: u64,
) {
    let (first, last) = ends;
    begin(line, first);
    line.text(", ");
    line.number(count);
    line.text(" times: ");
    let meant = meaning(first.action, first.outcome).as_bytes();
    add_painted(line, options.colours, tone_of(first.outcome), meant);
    line.text(", ");
    add_range(alloc, line, options, first, last);
}

// Appends the line that begins with the result at an index, if it begins one.
fn add_at(
    alloc: Global,
    line: &mut LineText,
    options: &StatusOptions,
    state: &State,
    index: usize,
    at: usize,
)
    requires known { index < length state.now.state.resources }
    requires within { at < length (at_index state.now.state index).history.ended }
{
    if has_line(state, index, at) {
        return;
    }
    let first = state.ended_at(index, at);
    if !folds(&first) {
        return add_one(alloc, line, options, &first);
    }
    match last_like(state, index, at) {
        (_, 1) => add_one(alloc, line, options, &first),
        (last, count) => add_several(alloc, line, options, (&first, &last), count),
    }
}

/// Appends the lines of the history of a resource, each after a newline.
pub(crate) fn add_history(
    alloc: Global,
    line: &mut LineText,
    options: &StatusOptions,
    state: &State,
    index: usize,
)
    requires { index < length state.now.state.resources }
{
    line.text("\n  history, oldest first:");
    for at in 0..state.ended_len(index) {
        add_at(alloc, line, options, state, index, at);
    }
}
