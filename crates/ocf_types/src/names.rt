//! Tests of which texts are names.
ghost use Rattle.std.specs.Prelude.{◌≡◌};
ghost use Rattle.std.specs.List.{list_all};
ghost use Rattle.ocf_types.specs.Names.{is_name_byte, is_id_byte, is_first_byte, is_word_byte, is_dots, has_name_length, is_rsc_id};
ghost use Rattle.ocf_types.specs.Names.{is_provider, is_agent_type, is_param_name};

use crate::limits::NAME_LIMIT;
use thiserror::Error;

/// The text is not a name of the required kind.
#[derive(Clone, Copy, Debug, PartialEq, Eq, Error)]
#[error("not a name: 1 to 64 bytes of the letters, digits and signs that this kind of name allows")]
pub struct BadName;

fn is_name_byte(byte: u8) -> bool
    ensures { result ≡ is_name_byte byte }
{
    byte.is_ascii_alphanumeric() || byte == b'_' || byte == b'-' || byte == b'.'
}

fn is_id_byte(byte: u8) -> bool
    ensures { result ≡ is_id_byte byte }
{
    is_name_byte(byte) || byte == b':'
}

fn is_first_byte(byte: u8) -> bool
    ensures { result ≡ is_first_byte byte }
{
    byte.is_ascii_alphabetic() || byte == b'_'
}

fn is_word_byte(byte: u8) -> bool
    ensures { result ≡ is_word_byte byte }
{
    byte.is_ascii_alphanumeric() || byte == b'_'
}

fn is_dots(bytes: &[u8]) -> bool
    ensures { result ≡ is_dots bytes.now }
{
    match bytes {
        [a] => *a == b'.',
        [a, b] => *a == b'.' && *b == b'.',
        _ => false,
    }
}

fn has_name_length(bytes: &[u8]) -> bool
    ensures { result ≡ has_name_length bytes.now }
{
    1 <= bytes.len() && bytes.len() <= NAME_LIMIT
}

fn are_id_bytes(bytes: &[u8]) -> bool
    ensures { result ≡ list_all is_id_byte bytes.now }
{
    bytes.iter().all(|b| is_id_byte(*b))
}

fn are_name_bytes(bytes: &[u8]) -> bool
    ensures { result ≡ list_all is_name_byte bytes.now }
{
    bytes.iter().all(|b| is_name_byte(*b))
}

fn are_word_bytes(bytes: &[u8]) -> bool
    ensures { result ≡ list_all is_word_byte bytes.now }
{
    bytes.iter().all(|b| is_word_byte(*b))
}

pub fn is_rsc_id(bytes: &[u8]) -> bool
    ensures { result ≡ is_rsc_id bytes.now }
{
    has_name_length(bytes) && !is_dots(bytes) && are_id_bytes(bytes)
}

pub fn is_provider(bytes: &[u8]) -> bool
    ensures { result ≡ is_provider bytes.now }
{
    has_name_length(bytes) && !is_dots(bytes) && are_name_bytes(bytes)
}

pub fn is_agent_type(bytes: &[u8]) -> bool
    ensures { result ≡ is_agent_type bytes.now }
{
    is_provider(bytes)
}

pub fn is_param_name(bytes: &[u8]) -> bool
    ensures { result ≡ is_param_name bytes.now }
{
    has_name_length(bytes) && is_first_byte(bytes[0]) && are_word_bytes(bytes)
}
