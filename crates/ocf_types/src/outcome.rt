//! Ends of actions.
ghost use Rattle.std.specs.Prelude.{◌≡◌, Some, false, option_map, true};
ghost use Rattle.ocf_types.specs.Outcomes.{outcome_code, outcome_row, outcome_word};
ghost use Rattle.ocf_types.specs.Encoding.{encoded_outcome};
ghost use Rattle.ocf_types.specs.declared.outcome.Outcome.TheVariants.{Run};
ghost use Rattle.ocf_types.specs.declared.outcome.RunEnd.TheVariants.{NotStarted};

/// Why an agent process was not spawned.
#[derive(Clone, Copy, PartialEq, Eq)]
pub enum StartFault {
    /// There is no such file.
    Missing,
    /// The file may not be executed.
    Denied,
    /// Any other reason, such as lack of memory.
    Other,
}

/// Why an agent has no metadata. OCF Resource Agent API 1.1, meta-data.
#[derive(Clone, Copy)]
pub enum MetaFault {
    /// The agent process was not spawned.
    NotStarted(StartFault),
    /// Its output could not be read.
    Read,
    /// It ended with this exit code, which is not 0; 1 if a signal ended it.
    Failed(u8),
    /// Its output is longer than allowed.
    TooLong,
    /// It, or a process that inherited its output, took longer than allowed.
    Limit,
    /// An allocation was refused.
    Memory,
}

/// How an action that began has ended, as the executor saw it.
#[derive(Clone, Copy, PartialEq, Eq)]
pub enum RunEnd {
    /// The agent ended with this exit code.
    Done(u8),
    /// It ran past its timeout and was killed.
    TimedOut,
    /// A signal ended it.
    Signaled,
    /// Its process could not be polled any more, and was given up.
    Lost,
    /// Its process was not spawned.
    NotStarted(StartFault),
}

/// How an action ended.
#[derive(Clone, Copy, PartialEq, Eq)]
pub enum Outcome {
    /// As the executor saw it.
    Run(RunEnd),
    /// It ran when the executor ended; its result is not known.
    Interrupted,
    /// It was queued when the executor ended, and never began.
    Dropped,
    /// It was withdrawn while it was queued, and never began.
    Cancelled,
}

/// A row of the table of outcomes: what lines, journals and reports say of an outcome.
#[derive(Clone, Copy)]
pub struct OutcomeRow {
    /// The word for the outcome.
    pub word: &'static str,
    /// The exit code: the agent's own if it exited. If no process was spawned, it is OCF_ERR_INSTALLED for a missing file and
    /// OCF_ERR_PERM for one that may not be executed; for every other outcome it is OCF_ERR_GENERIC. OCF Resource Agent API
    /// 1.1, exit codes.
    pub code: u8,
    /// The encoding: a kind and its detail.
    pub bytes: [u8; 2],
    /// Whether it is a failure; `None` where the exit code decides. An interrupted, dropped or cancelled action has not failed.
    pub failed: Option<bool>,
    /// What the outcome means; `None` where the exit code decides.
    pub meaning: Option<&'static str>,
}

// The row of a failure: no exit code decides it.
fn failure(word: &'static str, code: u8, bytes: [u8; 2], meaning: &'static str) -> OutcomeRow
    ensures word { result.word.now ≡ word.now }
    ensures code { result.code ≡ code }
    ensures bytes { result.bytes ≡ bytes }
    ensures failed { result.failed ≡ Some true }
    ensures meaning { option_map (λ m. m.now) result.meaning ≡ Some meaning.now }
{
    OutcomeRow {
        word,
        code,
        bytes,
        failed: Some(true),
        meaning: Some(meaning),
    }
}

// The row of an outcome that is no failure, since the result is not known, or the action never began.
fn no_result(word: &'static str, bytes: [u8; 2], meaning: &'static str) -> OutcomeRow
    ensures word { result.word.now ≡ word.now }
    ensures code { result.code ≡ 1 }
    ensures bytes { result.bytes ≡ bytes }
    ensures failed { result.failed ≡ Some false }
    ensures meaning { option_map (λ m. m.now) result.meaning ≡ Some meaning.now }
{
    OutcomeRow {
        word,
        code: 1,
        bytes,
        failed: Some(false),
        meaning: Some(meaning),
    }
}

// The row of a start that was refused.
fn refused_row(fault: StartFault) -> OutcomeRow
    ensures word { result.word.now ≡ outcome_word (Run (NotStarted fault)) }
    ensures code { result.code ≡ outcome_code (Run (NotStarted fault)) }
    ensures bytes { result.bytes ≡ encoded_outcome (Run (NotStarted fault)) }
    ensures failed { result.failed ≡ (outcome_row (Run (NotStarted fault))).failed }
    ensures meaning { option_map (λ m. m.now) result.meaning
        ≡ (outcome_row (Run (NotStarted fault))).meaning }
{
    let (code, bytes, meaning) = match fault {
        StartFault::Missing => (5, [5, 1], "failed: the agent's file is missing"),
        StartFault::Denied => (4, [5, 2], "failed: the agent's file may not be run"),
        StartFault::Other => (1, [5, 3], "failed: the agent could not be started"),
    };
    failure("not-started", code, bytes, meaning)
}

impl Outcome {
    /// The row of the outcome.
    pub fn row(self) -> OutcomeRow
        ensures word { result.word.now ≡ outcome_word self }
        ensures code { result.code ≡ outcome_code self }
        ensures bytes { result.bytes ≡ encoded_outcome self }
        ensures failed { result.failed ≡ (outcome_row self).failed }
        ensures meaning { option_map (λ m. m.now) result.meaning ≡ (outcome_row self).meaning }
    {
        match self {
            Outcome::Run(RunEnd::Done(code)) => OutcomeRow {
                word: "done",
                code,
                bytes: [1, code],
                failed: None,
                meaning: None,
            },
            Outcome::Run(RunEnd::TimedOut) => {
                let meaning = "failed: it ran past its timeout and was killed";
                failure("timed-out", 1, [2, 0], meaning)
            }
            Outcome::Run(RunEnd::Signaled) => {
                let meaning = "failed: a signal ended the agent";
                failure("signaled", 1, [3, 0], meaning)
            }
            Outcome::Run(RunEnd::Lost) => {
                let meaning = "failed: how the agent ended is not known";
                failure("lost", 1, [4, 0], meaning)
            }
            Outcome::Run(RunEnd::NotStarted(fault)) => refused_row(fault),
            Outcome::Interrupted => {
                let meaning = "interrupted: the executor ended while it ran; it may be done or not";
                no_result("interrupted", [6, 0], meaning)
            }
            Outcome::Dropped => {
                let meaning = "dropped: the executor ended before it began";
                no_result("dropped", [7, 0], meaning)
            }
            Outcome::Cancelled => {
                let meaning = "cancelled: it was withdrawn before it began";
                no_result("cancelled", [8, 0], meaning)
            }
        }
    }

    /// The word for the outcome.
    pub fn word(self) -> &'static str
        ensures { result.now ≡ outcome_word self }
    {
        self.row().word
    }
}
