//! A clock that is moved by waiting.
use std::cell::Cell;
use std::io;
use std::rt::Clock;
use std::time::Duration;

/// A clock that advances by a microsecond at each monotonic reading, and by the duration of each sleep.
#[derive(Drop)]
pub struct MovedClock {
    // The reading of the wall clock at the beginning, in milliseconds since 1970.
    wall: u64,
    // In microseconds.
    passed: Cell<u64>,
}

impl MovedClock {
    /// A clock that begins at this moment of the wall clock.
    pub fn new(wall: u64) -> MovedClock {
        MovedClock {
            wall,
            passed: Cell::new(0),
        }
    }

    /// The time that has passed, in microseconds.
    pub fn passed(&self) -> u64 {
        self.passed.get()
    }

    /// Advances the clock by this many microseconds.
    pub fn pass(&self, micros: u64) {
        self.passed.set(self.passed().saturating_add(micros));
    }
}

impl Clock for MovedClock {
    fn monotonic(&self) -> io::Result<Duration> {
        self.pass(1);
        Ok(Duration::from_micros(self.passed()))
    }

    fn since_1970(&self) -> io::Result<Duration> {
        let wall = Duration::from_millis(self.wall);
        Ok(wall.saturating_add(Duration::from_micros(self.passed())))
    }

    fn sleep(&self, duration: Duration) {
        self.pass(u64::try_from(duration.as_micros()).unwrap_or(u64::MAX));
    }
}
