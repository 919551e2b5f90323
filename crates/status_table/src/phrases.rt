//! Phrases about results, moments and lengths of time.
use crate::options::StatusOptions;
use crate::rows::Row;
use line_text::LineText;
use log_lines::add_moment;
use ocf_codes::{code_of, name_of};
use ocf_types::{Action, Ended, Millis, Moment, Outcome, Running};
use resource_status::{Condition, Since, Tone, failure_meaning, meaning, tone_of};
use std::alloc::Global;

// A moment that is ahead by less counts as now, since the two clocks are read one after the other. In milliseconds.
const AHEAD: u64 = 1_000;

// The length of a moment in the form of RFC 3339 up to its seconds.
const TO_THE_SECOND: usize = 19;

//// Whether a condition is good, notable or bad.
pub(crate) fn tone_of_condition(condition: Condition) -> Tone {
    match condition {
        Condition::Started | Condition::Promoted => Tone::Good,
        Condition::Stopped | Condition::NeverRun => Tone::Notable,
        Condition::Failed | Condition::Unknown => Tone::Bad,
    }
}

// The control sequence of a terminal for a colour. ECMA-48, SGR.
fn colour_of(tone: Tone) -> &'static str {
    match tone {
        Tone::Good => "\x1b[32m",
        Tone::Notable => "\x1b[33m",
        Tone::Bad => "\x1b[31m",
    }
}

/// Appends a text in its colour, where colours are wanted.
pub(crate) fn add_painted(line: &mut LineText, colours: bool, tone: Tone, text: &[u8]) {
    if !colours {
        return line.bytes(text);
    }
    line.text(colour_of(tone));
    line.bytes(text);
    line.text("\x1b[0m");
}

/// Whether a moment is in the future by the clock.
pub(crate) fn is_ahead(options: &StatusOptions, moment: Moment) -> bool {
    moment.get().saturating_sub(options.moment.get()) >= AHEAD
}

/// How long ago a moment was, in milliseconds.
pub(crate) fn age_of(options: &StatusOptions, moment: Moment) -> u64 {
    options.moment.get().saturating_sub(moment.get())
}

/// Appends a moment in UTC, to the second. RFC 3339.
pub(crate) fn add_time(alloc: Global, line: &mut LineText, moment: Moment) {
    let mut whole = LineText::new(alloc);
    add_moment(&mut whole, moment);
    match whole.finish() {
        Ok(text) if text.len() >= TO_THE_SECOND => {
            line.bytes(&text.as_slice()[..TO_THE_SECOND]);
            line.byte(b'Z');
        }
        _ => {}
    }
}

/// Appends when something was: how long ago, or its moment.
pub(crate) fn add_when(
    alloc: Global,
    line: &mut LineText,
    options: &StatusOptions,
    moment: Moment,
) {
    if options.times {
        line.text("at ");
        add_time(alloc, line, moment);
    } else if is_ahead(options, moment) {
        line.text("in the future by the clock");
    } else {
        line.span(age_of(options, moment));
        line.text(" ago");
    }
}

// Appends since when at least a condition holds.
fn add_at_least(alloc: Global, line: &mut LineText, options: &StatusOptions, moment: Moment) {
    if options.times {
        line.text(" since ");
        add_time(alloc, line, moment);
        line.text(" or longer");
    } else if is_ahead(options, moment) {
        line.text(" since a moment in the future by the clock");
    } else {
        line.text(" for at least ");
        line.span(age_of(options, moment));
    }
}

/// Appends since when a condition holds.
pub(crate) fn add_since(
    alloc: Global,
    line: &mut LineText,
    options: &StatusOptions,
    since: Option<Since>,
) {
    match since {
        Some(since) if since.at_least => add_at_least(alloc, line, options, since.moment),
        Some(since) => {
            line.byte(b' ');
            add_when(alloc, line, options, since.moment);
        }
        None => {}
    }
}

/// Appends the condition of a resource, and since when it holds.
pub(crate) fn add_condition(
    alloc: Global,
    line: &mut LineText,
    options: &StatusOptions,
    row: &Row,
) {
    line.text(row.condition.word());
    match row.condition {
        Condition::NeverRun => {}
        _ => add_since(alloc, line, options, row.since),
    }
}

// The word for an action that runs.
fn doing(action: Action) -> &'static str {
    match action {
        Action::Start => "starting",
        Action::Stop => "stopping",
        Action::Promote => "promoting",
        Action::Demote => "demoting",
        Action::Monitor => "monitoring",
        Action::ReloadAgent => "reloading",
        Action::ValidateAll => "validating",
    }
}

/// Appends what runs, and how long it has run of at most how long.
pub(crate) fn add_running(line: &mut LineText, options: &StatusOptions, running: &Running) {
    line.text(doing(running.task.action()));
    if is_ahead(options, running.since) {
        return line.text(" since a moment in the future by the clock");
    }
    line.text(" for ");
    line.span(age_of(options, running.since));
    line.text(" of at most ");
    line.span(u64::from(running.timeout.get()));
}

/// Appends what a result means, in its colour, and when it was.
pub(crate) fn add_result(
    alloc: Global,
    line: &mut LineText,
    options: &StatusOptions,
    ended: &Ended,
) {
    let meant = meaning(ended.action, ended.outcome).as_bytes();
    add_painted(line, options.colours, tone_of(ended.outcome), meant);
    line.text(", ");
    add_when(alloc, line, options, ended.at);
}

// Appends the name and the number of the exit code of an outcome.
fn add_code(line: &mut LineText, outcome: Outcome) {
    line.text(" (");
    line.text(name_of(outcome));
    line.text(", ");
    line.number(u64::from(code_of(outcome)));
    line.text("), ");
}

/// Appends what a failure means, its code, and when it was.
pub(crate) fn add_failed(
    alloc: Global,
    line: &mut LineText,
    options: &StatusOptions,
    ended: &Ended,
) {
    line.text(ended.action.word());
    line.text(": ");
    let meant = failure_meaning(ended.outcome).as_bytes();
    add_painted(line, options.colours, Tone::Bad, meant);
    add_code(line, ended.outcome);
    add_when(alloc, line, options, ended.at);
}

/// Appends when a monitor is due: an interval after its last result. A result in the future by this clock is recent by the clock of its
/// executor, so then the monitor is due within its interval.
pub(crate) fn add_due(line: &mut LineText, options: &StatusOptions, at: Moment, interval: Millis) {
    let (now, interval) = (options.moment.get(), u64::from(interval.get()));
    let due = now.min(at.get()).saturating_add(interval);
    if is_ahead(options, at) {
        line.text("due within ");
        line.exact_span(interval);
    } else if now < due {
        line.text("due in ");
        line.span(due.saturating_sub(now));
    } else {
        line.text("due ");
        line.span(now.saturating_sub(due));
        line.text(" ago");
    }
}
