//! Reads the moments and spans of `--since` and `--until`.

use crate::options::Since;
use arrayvec::ArrayString;
use jiff::Timestamp;

// What may be left out at the end of a moment in the form of RFC 3339, in UTC.
const TAILS: &[&str] = &["", "Z", "T00Z", "-01T00Z", "-01-01T00Z"];

// The milliseconds since 1970 of a text with this tail; `None` for a moment before 1970, too.
fn completed(text: &str, tail: &str) -> Option<u64> {
    let mut whole = ArrayString::<64>::from(text).ok()?;
    whole.try_push_str(tail).ok()?;
    let at: Timestamp = whole.as_str().parse().ok()?;
    u64::try_from(at.as_millisecond()).ok()
}

// The moment in milliseconds since 1970.
fn moment(text: &str) -> Option<u64> {
    for tail in TAILS {
        if let Some(at) = completed(text, tail) {
            return Some(at);
        }
    }
    None
}

// The milliseconds of a span in a unit of this letter and length.
fn span_in(text: &str, letter: char, millis: u64) -> Option<u64> {
    let digits = text.strip_suffix(letter)?;
    digits.parse::<u64>().ok()?.checked_mul(millis)
}

// The milliseconds of a span, as `10m`.
fn span(text: &str) -> Option<u64> {
    span_in(text, 's', 1_000)
        .or(span_in(text, 'm', 60_000))
        .or(span_in(text, 'h', 3_600_000))
        .or(span_in(text, 'd', 86_400_000))
}

/// The moment that a text names: in the form of RFC 3339 or its beginning, or a span before now.
pub fn since_of(text: &str) -> Option<Since> {
    match span(text) {
        Some(millis) => Some(Since::Before(millis)),
        None => Some(Since::Moment(moment(text)?)),
    }
}
