//! Clock readings as moments.
ghost use Rattle.std.specs.Prelude.{◌≡◌, min};
ghost use Rattle.exec_lines.specs.Clock.{millis_of};

use ocf_types::{Moment, NUM_MAX};
use std::rt::Clock;
use std::time::{SystemTime, UNIX_EPOCH};

/// The whole milliseconds from 1970 to this time, limited to the greatest moment; 0 for a time before 1970.
pub fn moment_of(time: SystemTime) -> Moment
    ensures { result ≡ min (millis_of time) NUM_MAX }
{
    match time.duration_since(UNIX_EPOCH) {
        Ok(passed) => Moment::cut(u64::try_from(passed.as_millis()).unwrap_or(u64::MAX)),
        Err(_) => Moment::cut(0),
    }
}

/// The reading of this clock, in milliseconds since 1970; 0 if it cannot be read or is before 1970.
pub fn moment_now(clock: &impl Clock) -> Moment {
    match SystemTime::now(clock) {
        Ok(time) => moment_of(time),
        Err(_) => Moment::cut(0),
    }
}
