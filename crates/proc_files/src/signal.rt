//! Which signals a process ignores.
ghost use Rattle.std.specs.Prelude.{◌≡◌, ◌↔◌, ◌≤◌, ◌^◌, ℕ, IfNone, IfSome, IsTrue};
ghost use Rattle.std.specs.Str.Parse.{IsNumeral, digits_value};
ghost use Rattle.proc_files.specs.Signals.{BeginsWithBit, HasBit, IsIgnored, IsMaskLine};

use crate::pieces::{after, is_pieces};
use std::str;

// The text before the mask of ignored signals.
const IGNORED: &[u8] = b"SigIgn:\t";

// How many digits a mask has: one for each four of 64 signals.
const DIGITS: usize = 16;

// The number with these hexadecimal digits.
fn number_of(digits: &[u8]) -> Option<u64>
    ensures some { IfSome result
        (λ number. IsNumeral 16 digits.now × (digits_value 16 digits.now ≡ number)) }
    ensures none { IfNone result (IsNumeral 16 digits.now → 2 ^ 64 ≤ digits_value 16 digits.now) }
{
    if after(digits, b"+").is_some() {
        return None;
    }
    match str::from_utf8(digits) {
        Ok(text) => u64::from_str_radix(text, 16).ok(),
        Err(_) => None,
    }
}

// The mask in the first line of a text, if that line is SigIgn.
fn mask_of(text: &[u8]) -> Option<u64>
    ensures some { IfSome result (λ mask. IsMaskLine text.now mask) }
    ensures none { IfNone result ((mask : ℕ) → IsMaskLine text.now mask → ⊥) }
{
    let value = after(text, IGNORED)?;
    if value.len() < DIGITS {
        return None;
    }
    let (digits, following) = value.split_at(DIGITS);
    after(following, b"\n")?;
    number_of(digits)
}

// Whether a mask has the bit of a signal; signal 1 has the lowest bit.
fn has_bit(mask: u64, signal: u8) -> bool
    ensures { IsTrue result ↔ HasBit mask signal }
{
    (1..=64).contains(&signal) && (mask >> (signal - 1)) % 2 == 1
}

// Whether the first line of a text is SigIgn, with a mask that has the bit of a signal.
fn begins_with_bit(text: &[u8], signal: u8) -> bool
    ensures { IsTrue result ↔ BeginsWithBit signal text.now }
{
    match mask_of(text) {
        Some(mask) => has_bit(mask, signal),
        None => false,
    }
}

/// Whether a process ignores a signal, from 1 to 64: its bit is set in the mask of the line SigIgn in `status`, the bytes of
/// `/proc/PID/status`.
pub fn is_ignored(status: &[u8], signal: u8) -> bool
    ensures { IsTrue result ↔ IsIgnored status.now signal }
{
    for at in 0..status.len() {
        let (lines, rest) = status.split_at(at);
        if is_pieces(lines, b'\n') && begins_with_bit(rest, signal) {
            return true;
        }
    }
    false
}
