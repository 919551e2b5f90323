//! Reads the text of `/proc/PID/stat`.
ghost use Rattle.std.specs.Prelude.{◌≡◌, ◌++◌, ◌∷◌, ◌≤◌, ℕ, Bool, List, IfNone, IfSome};
ghost use Rattle.proc_files.specs.Stats.{HasName, HasNumber, IsField, IsProcess, IsStat, IsState, Lacks, Writes};
ghost use Rattle.proc_files.specs.declared.process.Process.{Process};

use crate::pieces::after;
use crate::process::Process;
use std::str;

// The parts of a text before and after the first occurrence of a byte.
fn split_first(text: &[u8], byte: u8) -> Option<(&[u8], &[u8])>
    ensures is { IfSome result (λ parts. text.now ≡ parts.0.now ++ byte ∷ parts.1.now) }
    ensures first { IfSome result (λ parts. Lacks byte parts.0.now) }
    ensures none { IfNone result (Lacks byte text.now) }
{
    let at = text.iter().position(|b| *b == byte)?;
    Some((&text[..at], &text[at + 1..]))
}

// The parts of a text before and after the last occurrence of a byte.
fn split_last(text: &[u8], byte: u8) -> Option<(&[u8], &[u8])>
    ensures is { IfSome result (λ parts. text.now ≡ parts.0.now ++ byte ∷ parts.1.now) }
    ensures last { IfSome result (λ parts. Lacks byte parts.1.now) }
    ensures none { IfNone result (Lacks byte text.now) }
{
    let at = text.iter().rposition(|b| *b == byte)?;
    Some((&text[..at], &text[at + 1..]))
}

// The parts of a text before and after the name of the process: its number, and its fields from the third on.
fn around_name(text: &[u8]) -> Option<(&[u8], &[u8])>
    ensures some { IfSome result (λ parts. HasName text.now parts.0.now parts.1.now) }
    ensures none { IfNone result
        ((number fields : List ℕ) → HasName text.now number fields → ⊥) }
{
    let (number, rest) = split_first(text, b' ')?;
    let (_name, rest) = split_last(after(rest, b"(")?, b')')?;
    Some((number, after(rest, b" ")?))
}

// Field n of a text that begins with field 3, where each field is followed by a space.
fn field(text: &[u8], n: usize) -> Option<&[u8]>
    requires { 3 ≤ n }
    ensures some { IfSome result (λ field. IsField text.now n field.now) }
    ensures none { IfNone result ((field : List ℕ) → IsField text.now n field → ⊥) }
{
    let mut rest = text;
    for _ in 3..n {
        (_, rest) = split_first(rest, b' ')?;
    }
    let (field, _) = split_first(rest, b' ')?;
    Some(field)
}

// The number with these decimal digits, without a sign.
fn number_of(digits: &[u8]) -> Option<u64>
    ensures some { IfSome result (λ number. Writes 64 digits.now number) }
    ensures none { IfNone result ((number : ℕ) → Writes 64 digits.now number → ⊥) }
{
    if after(digits, b"+").is_some() {
        return None;
    }
    match str::from_utf8(digits) {
        Ok(text) => text.parse().ok(),
        Err(_) => None,
    }
}

// The same in 32 bits.
fn id_of(digits: &[u8]) -> Option<u32>
    ensures some { IfSome result (λ number. Writes 32 digits.now number) }
    ensures none { IfNone result ((number : ℕ) → Writes 32 digits.now number → ⊥) }
{
    u32::try_from(number_of(digits)?).ok()
}

// Whether a process has ended, by the state of its first thread, which is one letter, and the number of its threads.
fn has_ended(state: &[u8], threads: u32) -> Option<bool>
    ensures some { IfSome result (λ ended. IsState state.now threads ended) }
    ensures none { IfNone result ((ended : Bool) → IsState state.now threads ended → ⊥) }
{
    match state {
        [letter] => Some(b"ZXx".contains(letter) && threads <= 1),
        _ => None,
    }
}

// The process with this number and these fields from field 3 on, as proc(5) counts them.
fn process_of(number: &[u8], fields: &[u8]) -> Option<Process>
    ensures some { IfSome result (λ p. IsProcess number.now fields.now p) }
    ensures none { IfNone result ((p : Process) → IsProcess number.now fields.now p → ⊥) }
{
    let state = field(fields, 3)?;
    let parent = field(fields, 4)?;
    let group = field(fields, 5)?;
    let threads = field(fields, 20)?;
    let start = field(fields, 22)?;
    Some(Process {
        pid: id_of(number)?,
        parent: id_of(parent)?,
        group: id_of(group)?,
        start: number_of(start)?,
        has_ended: has_ended(state, id_of(threads)?)?,
    })
}

/// The process that the text of `/proc/PID/stat` describes. `None` exactly when the text does not have that form.
///
/// The name may have any bytes, also spaces and parentheses. The text may be cut after field 22, with its space.
pub fn read_stat(text: &[u8]) -> Option<Process>
    ensures some { IfSome result (λ p. IsStat text.now p) }
    ensures none { IfNone result ((p : Process) → IsStat text.now p → ⊥) }
{
    let (number, fields) = around_name(text)?;
    process_of(number, fields)
}
