//! The lines before and after the output of a run, in a log of all resources.
use crate::bytes::around_last;
use std::str::from_utf8;

// How many bytes a moment has: `2026-11-27T08:51:12.345Z`.
const MOMENT: usize = 24;

/// How the line goes on, after its moment and the call, that is written before the output of a run.
pub const BEGINS: &str = " begins as run ";

// How the line goes on, after its id and most of its moment, that is written after the output of a run.
const ENDS: &str = "Z run ";

// How it goes on after the number of a run that ran.
const ENDINGS: [&str; 4] = [
    " ended in ",
    " was ended after ",
    " was killed after ",
    " was given up after ",
];

/// A run that begins.
#[derive(Clone, Copy)]
pub struct Begin<'a> {
    /// The resource of its action.
    pub id: &'a [u8],
    pub run: u64,
}

// The number with which these bytes begin, and what stands after it.
fn number_in(bytes: &[u8]) -> Option<(u64, &[u8])> {
    let len = match bytes.iter().position(|byte| !byte.is_ascii_digit()) {
        Some(len) => len,
        None => bytes.len(),
    };
    let (digits, rest) = bytes.split_at(len);
    let number = from_utf8(digits).ok()?.parse().ok()?;
    Some((number, rest))
}

// Whether a line goes on like this after the number of a run that has ended.
fn is_ending(rest: &[u8]) -> bool {
    ENDINGS
        .iter()
        .any(|ending| rest.starts_with(ending.as_bytes()))
}

/// The run that begins after this line, if it says so.
pub fn begin_in(line: &[u8]) -> Option<Begin<'_>> {
    let (before, after) = around_last(line, BEGINS.as_bytes())?;
    let (run, _) = number_in(after)?;
    let (stamp, _) = around_last(before, b" call ")?;
    let (id, _) = stamp.split_at_checked(stamp.len().checked_sub(MOMENT)?)?;
    Some(Begin {
        id: id.strip_suffix(b": ")?,
        run,
    })
}

/// The run that has ended before this line, if it says so.
pub fn end_in(line: &[u8]) -> Option<u64> {
    let (_, after) = around_last(line, ENDS.as_bytes())?;
    let (run, rest) = number_in(after)?;
    if is_ending(rest) { Some(run) } else { None }
}
