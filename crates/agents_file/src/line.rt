//! Lines of one length, and the fields in them.
ghost use Rattle.std.specs.Prelude.{◌≡◌, ◌+◌, ◌<◌, ◌≤◌, ◌^◌, ◌++◌, ◌∷◌, [], ℕ, IfNone, IfSome, decimal, length};
ghost use Rattle.agents_file.specs.Lines.{Cuts, IsField, padded, space};

use arrayvec::ArrayVec;
use itoa::Buffer;
use std::str;

/// The length of a line with its newline, in bytes. It divides the length of a page, so a line that is written in one call lies in
/// one page.
pub const LINE_LEN: usize = 256;

/// The length of a line without its newline.
pub(crate) const TEXT_LEN: usize = 255;

/// The fields of a line, each followed by a space.
pub(crate) type Fields = ArrayVec<u8, { TEXT_LEN }>;

/// Appends a field, and a space after it.
pub(crate) fn add_field(fields: &mut Fields, field: &[u8])
    requires room { length fields.old.items + length field.now < 255 }
    ensures added { fields.new.items ≡ fields.old.items ++ (field.now ++ space ∷ []) }
    ensures length { length fields.new.items ≡ length fields.old.items + length field.now + 1 }
{
    // there is room for both
    let _ = fields.try_extend_from_slice(field);
    let _ = fields.try_extend_from_slice(b" ");
}

/// Appends a number in decimal digits as a field.
pub(crate) fn add_number(fields: &mut Fields, number: u64)
    requires room { length fields.old.items + 20 < 255 }
    ensures added { fields.new.items ≡ fields.old.items ++ (decimal number ++ space ∷ []) }
    ensures length { length fields.new.items ≤ length fields.old.items + 21 }
{
    let mut buffer = Buffer::new();
    add_field(fields, buffer.format(number).as_bytes());
}

/// The line of a free slot: spaces alone.
pub fn blank_line() -> [u8; LINE_LEN]
    ensures { result ≡ padded [] }
{
    let mut line = [b' '; LINE_LEN];
    line[TEXT_LEN] = b'\n';
    line
}

/// A text padded with spaces, and a newline after it.
pub(crate) fn padded(text: &[u8]) -> [u8; LINE_LEN]
    requires short { length text.now ≤ 255 }
    ensures { result ≡ padded text.now }
{
    let mut line = blank_line();
    line[..text.len()].copy_from_slice(text);
    line
}

// The parts of a text before and after its first space.
fn split_space(text: &[u8]) -> Option<(&[u8], &[u8])>
    ensures is { IfSome result (λ parts. text.now ≡ parts.0.now ++ space ∷ parts.1.now) }
    ensures first { IfSome result (λ parts. IsField parts.0.now) }
    ensures none { IfNone result (IsField text.now) }
{
    let at = text.iter().position(|byte| *byte == b' ')?;
    Some((&text[..at], &text[at + 1..]))
}

/// The first field of a text, and the text after the space that follows it. Without a space the whole text, and nothing.
pub(crate) fn cut(text: &[u8]) -> (&[u8], &[u8])
    ensures { Cuts text.now result.0.now result.1.now }
{
    match split_space(text) {
        Some(parts) => parts,
        None => (text, &[]),
    }
}

// The number that a text seems to denote: the caller checks it.
fn number_in(text: &str) -> u64
    ensures { (n : ℕ) → n < 2 ^ 64 → text.now ≡ decimal n → result ≡ n }
{
    match text.parse::<u64>() {
        Ok(number) => number,
        Err(_) => 0,
    }
}

/// The number that a field seems to denote: the caller checks it.
pub(crate) fn number(field: &[u8]) -> u64
    ensures { (n : ℕ) → n < 2 ^ 64 → field.now ≡ decimal n → result ≡ n }
{
    match str::from_utf8(field) {
        Ok(text) => number_in(text),
        Err(_) => 0,
    }
}

/// The number of 32 bits that a field seems to denote: the caller checks it.
pub(crate) fn short_number(field: &[u8]) -> u32
    ensures { (n : ℕ) → n < 2 ^ 32 → field.now ≡ decimal n → result ≡ n }
{
    u32::try_from(number(field)).unwrap_or(0)
}
