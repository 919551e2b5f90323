//! Lengths of time, as a person reads them.
use crate::line_text::LineText;

// In milliseconds.
const SECOND: u64 = 1_000;

const MINUTE: u64 = 60_000;

const HOUR: u64 = 3_600_000;

const DAY: u64 = 86_400_000;

// A number and its unit, rounded down: milliseconds below a second, else seconds or the largest unit that gives at least two.
fn in_unit(millis: u64) -> (u64, &'static str) {
    if millis < SECOND {
        (millis, " ms")
    } else if millis < 2 * MINUTE {
        (millis / SECOND, " s")
    } else if millis < 2 * HOUR {
        (millis / MINUTE, " min")
    } else if millis < 2 * DAY {
        (millis / HOUR, " h")
    } else {
        (millis / DAY, " days")
    }
}

// A number and its unit, without rounding.
fn exactly(millis: u64) -> (u64, &'static str) {
    if millis % MINUTE == 0 {
        (millis / MINUTE, " min")
    } else if millis % SECOND == 0 {
        (millis / SECOND, " s")
    } else {
        (millis, " ms")
    }
}

impl LineText {
    /// Appends a length of time in whole units, rounded down, as `119 ms`, `16 s`, `5 min`.
    pub fn span(&mut self, millis: u64) {
        let (number, unit) = in_unit(millis);
        self.number(number);
        self.text(unit);
    }

    /// Appends a length of time without rounding, in minutes, seconds or milliseconds.
    pub fn exact_span(&mut self, millis: u64) {
        let (number, unit) = exactly(millis);
        self.number(number);
        self.text(unit);
    }
}
