//! Texts that contracts see as bytes.
ghost use Rattle.std.specs.Prelude.{◌≡◌, ◌++◌, IfOk};
ghost use Rattle.std.specs.String.{string_bytes};
ghost use Rattle.std.specs.Str.{IsAscii};

use growth::{Grows, Refused, push_text, text_of};
use std::alloc::{Allocator, Global};
use std::marker::Model;
use std::str::from_utf8;

/// A text whose view is its bytes, without their address.
#[derive(Drop)]
pub struct Text<A: Allocator = Global> {
    text: String<A>,
}

impl<A: Allocator> Model for Text<A> {
    ghost use Rattle.std.specs.Prelude.{List, ℕ};
    ghost use Rattle.std.specs.String.{string_bytes};

    ghost Value = { List ℕ };

    ghost view = { λ t. string_bytes t.text };
}

impl<A: Allocator> Text<A> {
    /// The text of this string.
    pub fn new(text: String<A>) -> Self
        ensures { result ≡ string_bytes text }
    {
        Text { text }
    }

    /// The text as a string.
    pub fn as_str(&self) -> &str
        ensures { result.now ≡ self.now }
    {
        self.text.as_str()
    }
}

/// A copy of a text.
pub fn copied<A: Grows>(alloc: A, text: &str) -> Result<Text<A>, Refused<A>>
    ensures text { IfOk result (λ t. t ≡ text.now) }
{
    Ok(Text::new(text_of(alloc, text)?))
}

/// The concatenation of two texts.
pub fn joined<A: Grows>(alloc: A, head: &str, tail: &str) -> Result<Text<A>, Refused<A>>
    ensures text { IfOk result (λ t. t ≡ head.now ++ tail.now) }
{
    let mut text = text_of(alloc, head)?;
    push_text(&mut text, tail)?;
    Ok(Text::new(text))
}

/// The text of ASCII bytes.
#[tactic(auto, using(ocf_types::specs::NameLemmas::texts))]
pub fn ascii(bytes: &[u8]) -> &str
    requires { IsAscii bytes.now }
    ensures { result.now ≡ bytes.now }
{
    match from_utf8(bytes) {
        Ok(text) => text,
        Err(_) => unreachable!(),
    }
}
