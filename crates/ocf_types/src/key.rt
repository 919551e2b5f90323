//! Keys of operations.
ghost use Rattle.std.specs.Prelude.{◌≡◌, ◌≤◌, length};

use crate::limits::KEY_LIMIT;
use arrayvec::ArrayString;
use std::marker::Model;

/// The key of an operation, `<resource>_<action>_<interval in ms>`, as `r1_monitor_10000`: at most 88 bytes.
/// Pacemaker Explained, resource operations.
#[derive(Drop)]
pub struct OpKey {
    text: ArrayString<{ KEY_LIMIT }>,
}

impl Model for OpKey {
    ghost use Rattle.std.specs.Prelude.{List, ℕ, ◌≤◌, length};
    ghost use Rattle.ocf_types.specs.Limits.{key_limit};

    ghost Value = { List ℕ };

    ghost view = { λ k. k.text.bytes };

    ghost invariant = { λ k. length k.text.bytes ≤ key_limit };
}

impl OpKey {
    /// The key of this text, which takes no memory.
    pub fn new(text: &str) -> Self
        requires { length text.now ≤ KEY_LIMIT }
        ensures { result ≡ text.now }
    {
        match ArrayString::from(text) {
            Ok(text) => OpKey { text },
            Err(_) => unreachable!(),
        }
    }

    /// The text of the key.
    pub fn as_str(&self) -> &str
        ensures text { result.now ≡ self.now }
        ensures short { length result.now ≤ KEY_LIMIT }
    {
        self.text.as_str()
    }
}
