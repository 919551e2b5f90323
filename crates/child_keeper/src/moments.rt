//! Readings of the monotonic clock.
ghost use Rattle.std.specs.Prelude.{◌≡◌, ◌<◌, ◌+◌, ◌^◌};
ghost use Rattle.child_keeper.specs.Waits.{killed_at};

use agents_file::AgentEntry;
use std::rt::Clock;
use std::time::Duration;

// For how many milliseconds after an opening an agent of an earlier executor is left alone at least.
const LEAST: u64 = 1_000;

/// A reading of the monotonic clock, zero where it fails.
pub fn monotonic(rt: &impl Clock) -> Duration {
    rt.monotonic().unwrap_or(Duration::ZERO)
}

/// A reading as a number of milliseconds.
pub fn millis_of(reading: Duration) -> u64 {
    u64::try_from(reading.as_millis()).unwrap_or(u64::MAX)
}

/// A reading of the monotonic clock in milliseconds, zero where it fails.
pub fn millis_now(rt: &impl Clock) -> u64 {
    millis_of(monotonic(rt))
}

/// How many milliseconds have passed since a reading.
pub fn millis_since(rt: &impl Clock, reading: Duration) -> u64 {
    millis_of(monotonic(rt).saturating_sub(reading))
}

/// When an agent of an earlier executor is killed: when its timeout has passed, but no later than `limit` milliseconds from now, and
/// no sooner than a second from now.
pub fn killed_at(entry: &AgentEntry, limit: u64, now: u64) -> u64
    ensures { now < 2 ^ 62 → limit < 2 ^ 62 → entry.now.began < 2 ^ 62
        → result ≡ killed_at entry.now limit now }
{
    let end = entry.began.saturating_add(u64::from(entry.timeout));
    end.min(now.saturating_add(limit))
        .max(now.saturating_add(LEAST))
}

/// The timeout by which an entry ends at this reading.
pub fn timeout_until(entry: &AgentEntry, until: u64) -> u32 {
    u32::try_from(until.saturating_sub(entry.began)).unwrap_or(u32::MAX)
}
