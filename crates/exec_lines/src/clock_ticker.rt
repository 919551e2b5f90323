//! A session's clock over a clock of the system.
ghost use Rattle.std.specs.Prelude.{◌≡◌, []};

use crate::moment::moment_now;
use crate::note::TickerNote;
use crate::ticker::Ticker;
use std::rt::Clock;
use std::thread::sleep;
use std::time::Duration;

/// A clock that logs what it was asked, over a clock.
#[derive(Drop)]
pub struct ClockTicker<K: Clock> {
    clock: K,
    note: TickerNote,
}

impl<K: Clock> ClockTicker<K> {
    /// Nothing was asked yet.
    pub fn new(clock: K) -> ClockTicker<K>
        ensures { result.note.asked ≡ [] }
    {
        ClockTicker {
            clock,
            note: TickerNote::unasked(),
        }
    }
}

impl<K: Clock> Ticker for ClockTicker<K> {
    ghost asked = { λ t. t.note.asked };

    fn now(&mut self) -> u64 {
        let moment = moment_now(&self.clock).get();
        // TRUSTED: this is the reading of the clock.
        self.note.follow(&moment);
        moment
    }

    fn rest(&mut self, micros: u64) {
        sleep(&self.clock, Duration::from_micros(micros));
        // TRUSTED: the clock was slept by once, for this time.
        self.note.follow(&micros);
    }

    fn micros(&self) -> u64 {
        match self.clock.monotonic() {
            Ok(time) => u64::try_from(time.as_micros()).unwrap_or(u64::MAX),
            Err(_) => 0,
        }
    }
}
