//! The identity of a journal.
ghost use Rattle.std.specs.Prelude.{◌≡◌, option_map};
ghost use Rattle.std.specs.List.{list_all};
ghost use Rattle.exec_replies.specs.JournalIds.{id_digits, is_hex_digit, is_journal_id, journal_id};

use arrayvec::ArrayString;
use std::str;

/// The number of hexadecimal digits of an identity.
pub const JOURNAL_ID_LEN: usize = 32;

/// The identity of a journal: 16 bytes, as 32 lowercase hexadecimal digits. Another journal has another one.
#[derive(Clone, Copy)]
pub struct JournalId {
    digits: ArrayString<{ JOURNAL_ID_LEN }>,
}

fn is_hex_digit(byte: u8) -> bool
    ensures { result ≡ is_hex_digit byte }
{
    byte.is_ascii_digit() || b'a' <= byte && byte <= b'f'
}

fn are_hex_digits(bytes: &[u8]) -> bool
    ensures { result ≡ list_all is_hex_digit bytes.now }
{
    bytes.iter().all(|byte| is_hex_digit(*byte))
}

fn is_journal_id(bytes: &[u8]) -> bool
    ensures { result ≡ is_journal_id bytes.now }
{
    bytes.len() == JOURNAL_ID_LEN && are_hex_digits(bytes)
}

impl JournalId {
    /// The identity with these 32 digits; `None` if the bytes are anything else.
    #[tactic(auto, using(crate::proofs::JournalIdLemmas::digits_are_text, crate::proofs::JournalIdLemmas::digits_fit))]
    pub fn of_hex(bytes: &[u8]) -> Option<JournalId>
        ensures { option_map id_digits result ≡ journal_id bytes.now }
    {
        if !is_journal_id(bytes) {
            return None;
        }
        let Ok(text) = str::from_utf8(bytes) else {
            return None;
        };
        match ArrayString::from(text) {
            Ok(digits) => Some(JournalId { digits }),
            Err(_) => None,
        }
    }

    /// Its 32 digits.
    pub fn hex(&self) -> &str
        ensures { result.now ≡ id_digits self.now }
    {
        self.digits.as_str()
    }
}
