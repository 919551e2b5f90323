//! A text that is built piece by piece.
ghost use Rattle.std.specs.Prelude.{◌≡◌, ◌++◌, ◌∷◌, [], ℕ, List, None, IfOk, decimal};

use growth::{Refused, append};
use itoa::Buffer;
use past::Past;
use std::alloc::Global;
use std::marker::Model;

/// A text that is built piece by piece. Once an allocation was refused, nothing more is kept of it, and [`LineText::finish`] says so.
///
/// Contracts see the whole text that was appended, whatever was refused.
#[derive(Drop)]
pub struct LineText {
    kept: Vec<u8>,
    refused: Option<Refused>,
    // for contracts alone: what was appended
    appended: Past<u8>,
}

impl Model for LineText {
    ghost Value = { List ℕ };

    ghost view = { λ t. t.appended.items };

    ghost invariant = { λ t. t.refused ≡ None → t.kept.items ≡ t.appended.items };
}

// Notes each of the bytes. A running program does nothing here.
fn note_all(past: &mut Past<u8>, bytes: &[u8])
    ensures { past.new.items ≡ past.old.items ++ bytes.now }
{
    for byte in bytes {
        past.note(byte);
    }
}

impl LineText {
    /// The empty text.
    pub fn new(alloc: Global) -> LineText
        ensures empty { result ≡ [] }
    {
        LineText {
            kept: Vec::new(alloc),
            refused: None,
            appended: Past::new(),
        }
    }

    /// Appends bytes.
    pub fn bytes(&mut self, more: &[u8])
        ensures appended { self.new ≡ self.old ++ more.now }
    {
        note_all(&mut self.appended, more);
        if self.refused.is_none()
            && let Err(refused) = append(&mut self.kept, more)
        {
            self.refused = Some(refused);
        }
    }

    /// Appends a text.
    pub fn text(&mut self, more: &str)
        ensures appended { self.new ≡ self.old ++ more.now }
    {
        self.bytes(more.as_bytes());
    }

    /// Appends a number in decimal digits.
    pub fn number(&mut self, number: u64)
        ensures appended { self.new ≡ self.old ++ decimal number }
    {
        let mut buffer = Buffer::new();
        self.text(buffer.format(number));
    }

    /// Appends one byte.
    pub fn byte(&mut self, byte: u8)
        ensures appended { self.new ≡ self.old ++ byte ∷ [] }
    {
        self.bytes(&[byte]);
    }

    /// The bytes of the whole text. It fails only if an allocation was refused while the text was built.
    pub fn finish(self) -> Result<Vec<u8>, Refused>
        ensures bytes { IfOk result (λ v. v.items ≡ self) }
    {
        match self.refused {
            Some(refused) => Err(refused),
            None => Ok(self.kept),
        }
    }
}
