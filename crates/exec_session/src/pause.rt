//! The pause between two turns.
ghost use Rattle.std.specs.Prelude.{◌≡◌, ◌≤◌, ◌<◌, true, false, if◌then◌else◌};
ghost use Rattle.session_machine.specs.Pausing.{IsShort, is_quiet, still_runs};

use child_model::{Answer, Entry, Poll};

// The shortest pause after a turn in which nothing happened, in microseconds.
const SHORTEST: u64 = 20;

// A short pause is the time since something happened, divided by this.
const GROWTH: u64 = 10;

// The longest short pause, in microseconds; a longer one is a hundredth of the time since something happened.
const SHORT: u64 = 1_000;

// The microseconds in a hundredth of a millisecond.
const HUNDREDTH: u64 = 10;

// The longest pause while something is queued or runs, in microseconds.
const LONGEST: u64 = 50_000;

// The longest pause of a watch while nothing is queued or running, in microseconds.
const LONGEST_IDLE: u64 = 10_000;

/// How long to pause before the next turn: not at all after a turn in which an action ended or began; then a tenth of the time
/// since that turn, up to a millisecond; and once a hundredth of that time is more than a millisecond, that hundredth, up to 50
/// milliseconds, or 10 while nothing is queued or running.
#[derive(Drop)]
pub struct Pause {
    // The beginning of the last turn, by the monotonic clock, in microseconds.
    began: u64,
    // The beginning of the turn after which nothing happened, by that clock; `None` before the first turn.
    quiet_from: Option<u64>,
    // Whether a line is held.
    holds: bool,
    // Whether no pause was asked for yet.
    is_first: bool,
    /// Whether something ended or began in the last turn.
    pub is_stirred: bool,
    /// The time of the last turn, in milliseconds since 1970.
    pub moment: u64,
    /// The time since which nothing has happened, in milliseconds since 1970; it does not go back.
    pub since: u64,
}

// Whether an agent process that was polled still runs.
fn still_runs(answer: &Answer) -> bool
    ensures value { result ≡ still_runs answer.now }
{
    matches!(answer, Answer::Poll(Poll::Running))
}

// Whether nothing ended or began in a turn with these entries: each agent process that was polled still runs, and none was spawned.
fn is_quiet(book: &[Entry]) -> bool
    ensures value { result ≡ is_quiet book.now }
{
    book.iter().all(|entry| still_runs(&entry.answer))
}

impl Pause {
    /// No turn yet. Nothing has happened since this time, in milliseconds since 1970.
    pub fn new(since: u64) -> Pause
        ensures moment { result.moment ≡ since }
        ensures since { result.since ≡ since }
        ensures stirred { result.is_stirred ≡ false }
    {
        Pause {
            began: 0,
            quiet_from: None,
            holds: false,
            is_first: true,
            is_stirred: false,
            moment: since,
            since,
        }
    }

    /// Sets whether a line is held. Pauses start over when that changes.
    pub fn holds(&mut self, holds: bool)
        ensures moment { self.new.moment ≡ self.old.moment }
        ensures grows { self.old.since ≤ self.new.since }
        ensures stirred { self.new.is_stirred ≡ self.old.is_stirred }
    {
        if self.holds != holds {
            self.holds = holds;
            self.quiet_from = Some(self.began);
            self.since = self.since.max(self.moment);
        }
    }

    /// Records that a turn begins at this time, and at this reading of the monotonic clock in microseconds.
    pub fn before_turn(&mut self, began: u64, now: u64)
        ensures moment { self.new.moment ≡ now }
        ensures since { self.new.since ≡ self.old.since }
    {
        self.began = began;
        self.moment = now;
        if self.quiet_from.is_none() {
            self.quiet_from = Some(began);
        }
    }

    /// Records that a turn left the book so.
    pub fn after_turn(&mut self, book: &[Entry])
        ensures moment { self.new.moment ≡ self.old.moment }
        ensures grows { self.old.since ≤ self.new.since }
        ensures since { is_quiet book.now ≡ false → self.old.moment ≤ self.new.since }
        ensures stirred { self.new.is_stirred ≡ if is_quiet book.now then false else true }
    {
        self.is_stirred = !is_quiet(book);
        if self.is_stirred {
            self.quiet_from = Some(self.began);
            self.since = self.since.max(self.moment);
        }
    }

    /// The pause after the last turn, in microseconds, at this reading of the monotonic clock in microseconds; with the executor idle or not.
    pub fn length(&self, micros: u64, idle: bool) -> u64
        ensures short { IsShort self.now.since self.now.moment result }
        ensures some { self.now.is_stirred ≡ false → 0 < result }
    {
        if self.is_stirred {
            return 0;
        }
        let most = if idle { LONGEST_IDLE } else { LONGEST };
        let hundredth = self
            .moment
            .saturating_sub(self.since)
            .saturating_mul(HUNDREDTH)
            .min(most);
        if SHORT < hundredth {
            return hundredth;
        }
        let from = self.quiet_from.unwrap_or(micros);
        (micros.saturating_sub(from) / GROWTH).clamp(SHORTEST, SHORT)
    }

    /// The same between two turns of a drain or of an orderly end; 0 after the first one.
    pub fn between_turns(&mut self, micros: u64, idle: bool) -> u64
        ensures moment { self.new.moment ≡ self.old.moment }
        ensures since { self.new.since ≡ self.old.since }
        ensures short { IsShort self.old.since self.old.moment result }
    {
        if self.is_first {
            self.is_first = false;
            return 0;
        }
        self.length(micros, idle)
    }
}
