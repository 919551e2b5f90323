//! Names of parameters.
ghost use Rattle.std.specs.Prelude.{◌≡◌, ◌≤◌, length, is_ok, IfOk, IsTrue};
ghost use Rattle.ocf_types.specs.Names.{is_param_name};

use crate::limits::NAME_LIMIT;
use crate::names::{BadName, is_param_name};
use arrayvec::ArrayVec;
use std::marker::Model;

/// The name of an instance parameter: 1 to 64 bytes, an ASCII letter or `_`, then letters, digits and `_`. OCF
/// Resource Agent API 1.1, OCF_RESKEY_.
#[derive(Drop)]
pub struct ParamName {
    bytes: ArrayVec<u8, { NAME_LIMIT }>,
}

impl Model for ParamName {
    ghost use Rattle.std.specs.Prelude.{List, ℕ, IsTrue};
    ghost use Rattle.ocf_types.specs.Names.{is_param_name};

    ghost Value = { List ℕ };

    ghost view = { λ n. n.bytes.items };

    ghost invariant = { λ n. IsTrue (is_param_name n.bytes.items) };

    ghost inverse = { λ b. record { bytes = record { items = b } } };
}

impl ParamName {
    /// The name with these bytes. It takes no memory.
    pub fn new(bytes: &[u8]) -> Result<Self, BadName>
        ensures bytes { IfOk result (λ name. name ≡ bytes.now) }
        ensures lawful { is_ok result ≡ is_param_name bytes.now }
    {
        if !is_param_name(bytes) {
            return Err(BadName);
        }
        match ArrayVec::try_from(bytes) {
            Ok(bytes) => Ok(ParamName { bytes }),
            Err(_) => Err(BadName),
        }
    }

    /// The bytes of the name, which are ASCII.
    pub fn as_bytes(&self) -> &[u8]
        ensures bytes { result.now ≡ self.now }
        ensures lawful { IsTrue (is_param_name result.now) }
        ensures short { length result.now ≤ NAME_LIMIT }
    {
        self.bytes.as_slice()
    }

    /// A copy of the name. It takes no memory.
    pub fn copied(&self) -> Self
        ensures { result ≡ self.now }
    {
        match ArrayVec::try_from(self.bytes.as_slice()) {
            Ok(bytes) => ParamName { bytes },
            Err(_) => unreachable!(),
        }
    }
}
