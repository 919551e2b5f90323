//! The last reason of a log.
ghost use Rattle.std.specs.Prelude.{◌≡◌, ◌≤◌, length, option_map, IfOk};
ghost use Rattle.std.specs.List.{position_or_len};
ghost use Rattle.agent_logs.specs.Reasons.{is_newline, last_reason, reason_in};

use crate::shown::add_shown;
use crate::tail::{Tail, WORD};
use growth::Refused;
use std::alloc::Global;

// The greatest number of bytes of a reason that are shown.
const REASON_LIMIT: usize = 512;

// The number of bytes before the first newline.
fn line_len(bytes: &[u8]) -> usize
    ensures len { result ≡ position_or_len is_newline bytes.now }
    ensures within { result ≤ length bytes.now }
{
    match bytes.iter().position(|byte| *byte == b'\n') {
        Some(len) => len,
        None => bytes.len(),
    }
}

// The reason of a line, from the bytes after its prefix.
#[tactic(auto, using(std::proofs::lemmas::List::take_min))]
fn reason_in(alloc: Global, rest: &[u8]) -> Result<Vec<u8>, Refused>
    ensures reason { IfOk result (λ text. text.items ≡ reason_in rest.now) }
{
    let line = &rest[..line_len(rest)];
    let mut text = Vec::new(alloc);
    add_shown(&mut text, &line[..REASON_LIMIT.min(line.len())])?;
    Ok(text)
}

/// The reason of the last line that has one, for a terminal: at most 512 bytes of it, where a byte that is not plain is written as
/// its hexadecimal number.
pub fn last_reason(alloc: Global, tail: &Tail<'_>) -> Result<Option<Vec<u8>>, Refused>
    ensures reason { IfOk result
        (λ found. option_map (λ text. text.items) found ≡ last_reason tail.now) }
{
    let Some(at) = tail.last_offset() else {
        return Ok(None);
    };
    Ok(Some(reason_in(alloc, &tail.bytes[at + WORD.len()..])?))
}
