//! The line of a result, for a person.
ghost use Rattle.std.specs.Prelude.{◌≡◌, IfOk};
ghost use Rattle.ocf_types.specs.Expected.{is_failure};
ghost use Rattle.resource_status.specs.Meanings.{tone_of};
ghost use Rattle.exec_client.specs.Events.{IsEventLine, is_bad, is_unknown, mark_of, marked};

use growth::Refused;
use line_text::LineText;
use ocf_codes::{is_failure, name, read_code};
use ocf_types::{Action, Notice, Outcome, RunEnd};
use resource_status::{Tone, failure_meaning, meaning, tone_of};
use std::alloc::Global;

// Whether the outcome is a failure whatever exit code was expected.
fn is_bad(outcome: Outcome) -> bool
    ensures { result ≡ is_bad (tone_of outcome) }
{
    match tone_of(outcome) {
        Tone::Bad => true,
        Tone::Good | Tone::Notable => false,
    }
}

// Whether it is not known if the action took effect, or the action never began.
fn is_unknown(outcome: Outcome) -> bool
    ensures { result ≡ is_unknown outcome }
{
    matches!(
        outcome,
        Outcome::Interrupted | Outcome::Dropped | Outcome::Run(RunEnd::Lost)
    )
}

// The prefix of a line for the system's journal. sd-daemon(3): the priorities err, warning and info.
fn mark_of(failed: bool, outcome: Outcome) -> &'static str
    ensures { result.now ≡ mark_of failed outcome }
{
    if is_unknown(outcome) {
        "<4>"
    } else if failed || is_bad(outcome) {
        "<3>"
    } else {
        "<6>"
    }
}

// The prefix of the line of this result, if lines are to have one.
fn marked(marks: bool, notice: &Notice) -> &'static str
    ensures { result.now ≡ marked marks (is_failure notice.now) notice.now.result.outcome }
{
    if marks {
        mark_of(is_failure(notice), notice.result.outcome)
    } else {
        ""
    }
}

// Appends what became of the action; an exit code that was not wanted is a failure.
fn add_meaning(text: &mut LineText, notice: &Notice) {
    let ended = notice.result;
    let failed = is_failure(notice) || is_bad(ended.outcome);
    match (ended.outcome, ended.action) {
        (Outcome::Run(RunEnd::Done(_)), _) if failed => {
            text.text(" failed: ");
            text.text(failure_meaning(ended.outcome));
        }
        (Outcome::Run(RunEnd::Done(_)), Action::Monitor) => {
            text.text(": ");
            text.text(meaning(ended.action, ended.outcome));
        }
        _ => {
            text.text(" ");
            text.text(meaning(ended.action, ended.outcome));
        }
    }
}

// Appends the agent's exit code with its name, if it is not 0.
fn add_code(text: &mut LineText, outcome: Outcome) {
    if let Outcome::Run(RunEnd::Done(code)) = outcome
        && code != 0
    {
        text.text(" (");
        text.text(name(read_code(code)));
        text.text(", ");
        text.number(u64::from(code));
        text.text(")");
    }
}

// Appends how long the action ran, if its end was observed.
fn add_time(text: &mut LineText, notice: &Notice) {
    let ended = notice.result;
    if let Outcome::Run(RunEnd::Done(_) | RunEnd::TimedOut | RunEnd::Signaled) = ended.outcome {
        text.text(" after ");
        text.span(ended.at.get().saturating_sub(ended.since.get()));
    }
}

// What the line of a result says of its resource.
fn sentence(alloc: Global, notice: &Notice) -> Result<Vec<u8>, Refused> {
    let mut text = LineText::new(alloc);
    text.text(": ");
    text.text(notice.result.action.word());
    add_meaning(&mut text, notice);
    add_code(&mut text, notice.result.outcome);
    add_time(&mut text, notice);
    text.finish()
}

/// The line of a result, with or without its mark.
pub fn event_line(alloc: Global, marks: bool, notice: &Notice) -> Result<Vec<u8>, Refused>
    ensures line { IfOk result (λ line. IsEventLine marks notice.now line.items) }
{
    let sentence = sentence(alloc, notice)?;
    let mut line = LineText::new(alloc);
    line.text(marked(marks, notice));
    line.bytes(notice.id.as_bytes());
    line.bytes(sentence.as_slice());
    line.text("\n");
    line.finish()
}
