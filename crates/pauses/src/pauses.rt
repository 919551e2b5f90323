//! Pauses and deadlines of waits.
ghost use Rattle.std.specs.Prelude.{◌≡◌, ◌≤◌, ◌+◌, ◌-◌, ◌*◌, ◌<◌, IsTrue, IfNone, IfSome, None};
ghost use Rattle.std.specs.Process.{child_status};

use std::process::{Child, OpenProcess};
use std::rt::Clock;
use std::thread::sleep;
use std::time::{Duration, Instant};

// How long all pauses after a kill are together, in microseconds.
const PATIENCE: u64 = 100_000;

// The first pause, and the longest, in microseconds.
const SHORTEST: u64 = 20;

const LONGEST: u64 = 5_000;

/// The pauses between polls of a process: each is twice as long as the one before it, up to five milliseconds.
#[derive(Drop)]
pub struct Pauses {
    pub left: u64,
    pub next: u64,
    pub ghost grows: { 0 < next },
    pub ghost short: { next ≤ 5000 },
}

impl Pauses {
    /// Pauses of this many microseconds together.
    fn of(micros: u64) -> Pauses
        ensures left { result.left ≡ micros }
    {
        Pauses {
            left: micros,
            next: SHORTEST,
        }
    }

    /// The pauses after a kill: a tenth of a second together.
    pub fn after_kill() -> Pauses
        ensures left { result.left ≡ 100000 }
    {
        Pauses::of(PATIENCE)
    }

    /// Pauses of this many milliseconds together.
    pub fn within(millis: u32) -> Pauses
        ensures left { result.left ≡ millis * 1000 }
    {
        Pauses::of(u64::from(millis) * 1_000)
    }

    // The next one in microseconds, if there is any left.
    fn take(&mut self) -> Option<u64>
        ensures taken { IfSome result
            (λ pause. (0 < pause) × (self.new.left + pause ≡ self.old.left)) }
        ensures none { IfNone result (self.old.left ≡ 0) }
    {
        if self.left == 0 {
            return None;
        }
        let pause = self.next.min(self.left);
        self.left -= pause;
        self.next = (self.next * 2).min(LONGEST);
        Some(pause)
    }

    /// Sleeps for the next pause, and returns whether there was one left.
    pub fn pause(&mut self, clock: &impl Clock) -> bool
        ensures made { IsTrue result → self.new.left < self.old.left }
    {
        match self.take() {
            Some(micros) => {
                sleep(clock, Duration::from_micros(micros));
                true
            }
            None => false,
        }
    }
}

/// Whether a child still runs; `false` also where the system answers with an error.
pub fn still_runs<P: OpenProcess>(child: &mut Child<P>) -> bool
    ensures asked { IsTrue result → child_status child.new ≡ None }
{
    matches!(child.try_wait(), Ok(None))
}

/// Polls a child, again after each pause, until it has ended or no pause is left. Returns whether it still runs.
pub fn outlives<P: OpenProcess>(
    clock: &impl Clock,
    child: &mut Child<P>,
    mut pauses: Pauses,
) -> bool
    ensures asked { IsTrue result → child_status child.new ≡ None }
{
    while still_runs(child) {
        if !pauses.pause(clock) {
            return true;
        }
    }
    false
}

/// A span of the monotonic clock.
#[derive(Clone, Copy)]
pub struct Deadline {
    // When it began; `None` where the clock failed.
    began: Option<Instant>,
    millis: u32,
}

impl Deadline {
    /// This many milliseconds from now on.
    pub fn after(clock: &impl Clock, millis: u32) -> Deadline {
        Deadline {
            began: Instant::now(clock).ok(),
            millis,
        }
    }

    /// How many milliseconds of it are left: 0 after its end, and where the clock fails.
    pub fn left(&self, clock: &impl Clock) -> u32 {
        match self.began.map(|began| began.elapsed(clock)) {
            Some(Ok(took)) => left_of(self.millis, took.as_millis()),
            _ => 0,
        }
    }
}

// What is left of a span after `took` milliseconds.
fn left_of(millis: u32, took: u128) -> u32
    ensures { result ≡ millis - took }
{
    match u32::try_from(took) {
        Ok(took) => millis.saturating_sub(took),
        Err(_) => 0,
    }
}
