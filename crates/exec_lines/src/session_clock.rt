//! The clock of a session.
ghost use Rattle.std.specs.Prelude.{◌≡◌, ◌+◌, ◌-◌, ◌≤◌};
ghost use Rattle.std.specs.Duration.{as_nanos, max_nanos};

use libc::sched_yield;
use ocf_types::Moment;
use std::io;
use std::rt::Clock;
use std::time::Duration;

// The longest pause that yields the processor repeatedly instead of sleeping, in microseconds: the system prolongs a sleep by
// some 50 microseconds.
const OFFERED: u64 = 100;

// The greatest number of yields in one pause.
const OFFERS: u32 = 1_000;

/// The clock of a session. It begins with the reading of the wall clock, or with the last moment of the journal if that is
/// greater, and then advances with the monotonic clock. So a step of the wall clock changes no timeout, interval or limit, and
/// a journal that is ahead of the wall clock goes on from its last moment. A sleep of at most 100 microseconds is exact: it
/// yields the processor until the time has passed.
#[derive(Drop)]
pub struct SessionClock<'a, K> {
    clock: &'a K,
    // The reading as the session begins, since 1970.
    begun: Duration,
    // The reading of the monotonic clock at that time; `None` if it cannot be read: then the wall clock is used.
    from: Option<Duration>,
}

// The reading of a session's clock that began with `begun`, when the monotonic clock has advanced from `from` to `now`.
fn shown(begun: Duration, from: Duration, now: Duration) -> Duration
    ensures counted { as_nanos begun + (as_nanos now - as_nanos from) ≤ max_nanos
        → as_nanos result ≡ as_nanos begun + (as_nanos now - as_nanos from) }
    ensures never_back { as_nanos begun ≤ as_nanos result }
{
    begun.saturating_add(now.saturating_sub(from))
}

impl<'a, K: Clock> SessionClock<'a, K> {
    /// The clock of a session that begins now, over a journal whose last event has this moment.
    pub fn new(clock: &'a K, journal: Moment) -> SessionClock<'a, K> {
        let wall = clock.since_1970().unwrap_or(Duration::ZERO);
        SessionClock {
            clock,
            begun: wall.max(Duration::from_millis(journal.get())),
            from: clock.monotonic().ok(),
        }
    }
}

// Yields the processor until this time has passed, and returns whether it has; it gives up if the clock does not advance.
fn offers(clock: &impl Clock, duration: Duration) -> bool {
    let Ok(begun) = clock.monotonic() else {
        return false;
    };
    for _ in 0..OFFERS {
        sched_yield();
        match clock.monotonic() {
            Ok(now) if now.saturating_sub(begun) >= duration => return true,
            Ok(now) if now > begun => {}
            _ => return false,
        }
    }
    false
}

impl<K: Clock> Clock for SessionClock<'_, K> {
    fn monotonic(&self) -> io::Result<Duration> {
        self.clock.monotonic()
    }

    fn since_1970(&self) -> io::Result<Duration> {
        match self.from {
            Some(from) => Ok(shown(self.begun, from, self.clock.monotonic()?)),
            None => self.clock.since_1970(),
        }
    }

    fn sleep(&self, duration: Duration) {
        if duration > Duration::from_micros(OFFERED) || !offers(self.clock, duration) {
            self.clock.sleep(duration);
        }
    }
}
