//! Escapes the bytes of a log for a terminal.
ghost use Rattle.std.specs.Prelude.{◌≡◌, ◌<◌, ◌++◌, OnOk};
ghost use Rattle.std.specs.List.{flat_map};
ghost use Rattle.agent_logs.specs.Reasons.{hex_digit, is_plain, shown_byte};

use growth::{Refused, append, push};

// Whether a byte needs no escape: a graphic character of ASCII or a space, and no backslash.
fn is_plain(byte: u8) -> bool
    ensures { result ≡ is_plain byte }
{
    byte > 31 && byte < 127 && byte != b'\\'
}

// A digit of a hexadecimal number.
fn hex_digit(digit: u8) -> u8
    requires { digit < 16 }
    ensures { result ≡ hex_digit digit }
{
    if digit < 10 {
        b'0' + digit
    } else {
        b'a' - 10 + digit
    }
}

fn add_shown_byte(text: &mut Vec<u8>, byte: u8) -> Result<(), Refused>
    ensures added { OnOk result (text.new.items ≡ text.old.items ++ shown_byte byte) }
{
    if is_plain(byte) {
        push(text, byte)
    } else {
        append(
            text,
            &[b'\\', b'x', hex_digit(byte / 16), hex_digit(byte % 16)],
        )
    }
}

/// Appends bytes, escaped for a terminal.
#[tactic(auto, using(crate::proofs::ReasonLemmas::byte_more))]
pub fn add_shown(text: &mut Vec<u8>, bytes: &[u8]) -> Result<(), Refused>
    ensures added { OnOk result (text.new.items ≡ text.old.items ++ flat_map shown_byte bytes.now) }
{
    for byte in bytes {
        add_shown_byte(text, *byte)?;
    }
    Ok(())
}
