//! The condition of a resource, by its last results.
ghost use Rattle.std.specs.Prelude.{◌≡◌, ◌<◌, length, min};
ghost use Rattle.ocf_model.specs.Indexes.{at_index};
ghost use Rattle.resource_status.specs.Conditions.{after, changed_in, condition_by, condition_of, condition_without_result, condition_word, given_up};
ghost use Rattle.resource_status.specs.Conditions.{found_by, held_in, is_bad, is_given_up, is_same, judged, known_of, lasts, left_by, since_by, since_in, since_judged, since_of, up_in, written_by};
ghost use Rattle.resource_status.specs.Conditions.{written_by_code, worsened};

use exec_state::State;
use ocf_codes::{Code, read_code};
use ocf_model::StateView;
use ocf_types::{Action, Ended, Layout, Moment, Outcome, RunEnd};

/// The condition of a resource.
#[derive(Clone, Copy)]
pub enum Condition {
    /// No result shows a condition, and none was dropped or forgotten.
    NeverRun,
    /// It runs.
    Started,
    /// It runs in the promoted role.
    Promoted,
    /// It is cleanly stopped.
    Stopped,
    /// The last action that shows a condition has failed; or it was stopped, and has not run since it failed.
    Failed,
    /// The last action that shows a condition may be done or not, or its result was dropped or forgotten.
    Unknown,
}

impl Condition {
    /// Its text, of a word or two.
    pub fn word(self) -> &'static str
        ensures { result.now ≡ condition_word self }
    {
        match self {
            Condition::NeverRun => "never run",
            Condition::Started => "started",
            Condition::Promoted => "promoted",
            Condition::Stopped => "stopped",
            Condition::Failed => "failed",
            Condition::Unknown => "unknown",
        }
    }

    /// Whether it needs attention.
    pub fn is_bad(self) -> bool
        ensures { result ≡ is_bad self }
    {
        matches!(self, Condition::Failed | Condition::Unknown)
    }

    // The condition, where a failure before the result that shows it lasts: a resource that was stopped after that has failed.
    fn given_up(self) -> Condition
        ensures { result ≡ given_up self }
    {
        match self {
            Condition::Stopped => Condition::Failed,
            _ => self,
        }
    }

    // The condition, where the result that shows it is a failure.
    fn worsened(self) -> Condition
        ensures { result ≡ worsened self }
    {
        match self {
            Condition::Unknown => Condition::Unknown,
            _ => Condition::Failed,
        }
    }
}

/// What the results of a resource show, read oldest first.
#[derive(Clone, Copy)]
pub struct Known {
    /// The condition by the last result that shows one.
    pub condition: Condition,
    /// The end of the first result since which each one that shows a condition shows this one.
    pub since: Moment,
    /// The run of the last result that shows a condition.
    pub run: u64,
    /// The run of the last result that shows that the resource runs; 0 if none does.
    pub up: u64,
    /// Whether an earlier result shows another condition.
    pub changed: bool,
}

/// What results hold of a resource: those of its history, or those of the records.
#[derive(Clone, Copy)]
pub struct Recorded {
    /// What these results show.
    pub known: Option<Known>,
    /// Whether there may be earlier results, which were dropped or forgotten.
    pub cut: bool,
}

/// Since when a condition holds.
#[derive(Clone, Copy)]
pub struct Since {
    /// The end of the first result that shows it.
    pub moment: Moment,
    /// Whether it may hold longer: results before that were dropped or forgotten.
    pub at_least: bool,
}

// What a monitor found, by its exit code.
fn found_by(code: Code) -> Condition
    ensures { result ≡ found_by code }
{
    match code {
        Code::Success | Code::Degraded => Condition::Started,
        Code::RunningPromoted | Code::DegradedPromoted => Condition::Promoted,
        Code::NotRunning => Condition::Stopped,
        _ => Condition::Failed,
    }
}

// The condition after an action that succeeded, if it shows one.
fn left_by(action: Action) -> Option<Condition>
    ensures { result ≡ left_by action }
{
    match action {
        Action::Start | Action::Demote | Action::Monitor => Some(Condition::Started),
        Action::Promote => Some(Condition::Promoted),
        Action::Stop => Some(Condition::Stopped),
        Action::ReloadAgent | Action::ValidateAll => None,
    }
}

// The condition that an action shows by its exit code.
fn written_by_code(action: Action, code: Code) -> Option<Condition>
    ensures { result ≡ written_by_code action code }
{
    match (action, code) {
        (Action::Monitor, code) => Some(found_by(code)),
        (action, Code::Success) => left_by(action),
        _ => Some(Condition::Failed),
    }
}

// The condition that a result shows.
fn written_by(action: Action, outcome: Outcome) -> Option<Condition>
    ensures { result ≡ written_by action outcome }
{
    match outcome {
        Outcome::Run(RunEnd::Done(code)) => written_by_code(action, read_code(code)),
        Outcome::Run(RunEnd::Signaled | RunEnd::NotStarted(_)) => Some(Condition::Failed),
        Outcome::Run(RunEnd::TimedOut | RunEnd::Lost) => Some(Condition::Unknown),
        Outcome::Interrupted => match action {
            Action::Monitor => None,
            _ => Some(Condition::Unknown),
        },
        Outcome::Dropped | Outcome::Cancelled => None,
    }
}

// Whether what is known shows this condition.
fn is_same(known: &Known, condition: Condition) -> bool
    ensures { result ≡ is_same known.now condition }
{
    known.condition.word().as_bytes() == condition.word().as_bytes()
}

// Since when a condition holds that a result of this moment shows.
fn since_in(known: Option<Known>, condition: Condition, at: Moment) -> Moment
    ensures { result ≡ since_in known condition at }
{
    let Some(known) = known else {
        return at;
    };
    if is_same(&known, condition) {
        known.since
    } else {
        at
    }
}

// Whether a result before one that shows this condition shows another.
fn changed_in(known: &Option<Known>, condition: Condition) -> bool
    ensures { result ≡ changed_in known.now condition }
{
    match known {
        Some(known) => known.changed || !is_same(known, condition),
        None => false,
    }
}

// The run of the last result that shows that the resource runs, where one of this run shows a condition.
fn up_in(known: &Option<Known>, condition: Condition, run: u64) -> u64
    ensures { result ≡ up_in known.now condition run }
{
    match (condition, known) {
        (Condition::Started | Condition::Promoted, _) => run,
        (_, Some(known)) => known.up,
        (_, None) => 0,
    }
}

/// What is known after one more result.
pub(crate) fn after(known: Option<Known>, ended: &Ended) -> Option<Known>
    ensures { result ≡ after known ended.now }
{
    match written_by(ended.action, ended.outcome) {
        Some(condition) => {
            let up = up_in(&known, condition, ended.run);
            let changed = changed_in(&known, condition);
            Some(Known {
                condition,
                since: since_in(known, condition, ended.at),
                run: ended.run,
                up,
                changed,
            })
        }
        None => known,
    }
}

/// What the results of a resource show, or `None` if none of them shows a condition.
pub fn known_of(state: &State, index: usize) -> Option<Known>
    requires { index < length state.now.state.resources }
    ensures { result ≡ known_of (at_index state.now.state index).history.ended }
{
    let mut known = None;
    for at in 0..state.ended_len(index) {
        known = after(known, &state.ended_at(index, at));
    }
    known
}

// Whether a failure lasts: no later result shows that the resource runs, and it is not that of a stop.
fn lasts(known: &Known, failed: &Ended) -> bool
    ensures { result ≡ lasts known.now failed.now }
{
    known.up < failed.run && !matches!(failed.action, Action::Stop)
}

// The condition, by the last failure.
fn judged(known: &Known, failed: Option<Ended>) -> Condition
    ensures { result ≡ judged known.now failed }
{
    let Some(failed) = failed else {
        return known.condition;
    };
    if failed.run == known.run {
        known.condition.worsened()
    } else if lasts(known, &failed) {
        known.condition.given_up()
    } else {
        known.condition
    }
}

// The condition of a resource of which no result shows one.
fn condition_without_result(cut: bool) -> Condition
    ensures { result ≡ condition_without_result cut }
{
    if cut {
        Condition::Unknown
    } else {
        Condition::NeverRun
    }
}

/// The condition of a resource, by what results hold of it, and its last failure.
pub fn condition_by(recorded: &Recorded, failed: Option<Ended>) -> Condition
    ensures { result ≡ condition_by recorded.now failed }
{
    match recorded.known {
        Some(known) => judged(&known, failed),
        None => condition_without_result(recorded.cut),
    }
}

// Whether the resource was stopped, and has failed since a failure that lasts.
fn is_given_up(known: &Known, failed: &Ended) -> bool
    ensures { result ≡ is_given_up known.now failed.now }
{
    matches!(known.condition, Condition::Stopped) && lasts(known, failed)
}

// The earlier one of two moments.
fn earlier(first: Moment, second: Moment) -> Moment
    ensures { result ≡ min first second }
{
    if second < first { second } else { first }
}

// Since when the condition holds, by the last failure.
fn since_judged(known: &Known, failed: Option<Ended>) -> Moment
    ensures { result ≡ since_judged known.now failed }
{
    match failed {
        Some(failed) if is_given_up(known, &failed) => earlier(failed.at, known.since),
        _ => known.since,
    }
}

/// Since when the condition of a resource holds, if a result shows one, by its last failure: a resource that was stopped after it failed
/// has failed since then.
pub fn since_by(recorded: &Recorded, failed: Option<Ended>) -> Option<Since>
    ensures { result ≡ since_by recorded.now failed }
{
    let known = recorded.known?;
    Some(Since {
        moment: since_judged(&known, failed),
        at_least: recorded.cut && !known.changed,
    })
}

/// What the history of a resource holds of it.
pub fn held_in(state: &State, index: usize) -> Recorded
    requires { index < length state.now.state.resources }
    ensures { result ≡ held_in (at_index state.now.state index).history }
{
    Recorded {
        known: known_of(state, index),
        cut: state.ended_len(index) >= Layout::First.kept(),
    }
}

/// The condition of a resource, by its history alone.
pub fn condition_of(state: &State, index: usize) -> Condition
    requires { index < length state.now.state.resources }
    ensures { result ≡ condition_of (at_index state.now.state index).history }
{
    condition_by(&held_in(state, index), state.failed_at(index))
}

/// Since when the condition of a resource holds, by its history alone.
pub fn since_of(state: &State, index: usize) -> Option<Since>
    requires { index < length state.now.state.resources }
    ensures { result ≡ since_of (at_index state.now.state index).history }
{
    since_by(&held_in(state, index), state.failed_at(index))
}
