//! Ids of resources.
ghost use Rattle.std.specs.Prelude.{◌≡◌, ◌≤◌, length, is_ok, IfOk, IsTrue};
ghost use Rattle.ocf_types.specs.Names.{is_rsc_id};

use crate::limits::NAME_LIMIT;
use crate::names::{BadName, is_rsc_id};
use arrayvec::ArrayVec;
use std::marker::Model;

/// The id of a resource: 1 to 64 bytes of ASCII letters, digits, `_`, `-`, `.` and `:`, but neither
/// `.` nor `..`. OCF Resource Agent API 1.1, OCF_RESOURCE_INSTANCE; the `:` is for clone instances, as in `r1:0`.
#[derive(Drop, PartialEq, Eq, Hash)]
pub struct RscId {
    bytes: ArrayVec<u8, { NAME_LIMIT }>,
}

impl Model for RscId {
    ghost use Rattle.std.specs.Prelude.{List, ℕ, IsTrue};
    ghost use Rattle.ocf_types.specs.Names.{is_rsc_id};

    ghost Value = { List ℕ };

    ghost view = { λ n. n.bytes.items };

    ghost invariant = { λ n. IsTrue (is_rsc_id n.bytes.items) };

    ghost inverse = { λ b. record { bytes = record { items = b } } };
}

impl RscId {
    /// The id with these bytes. It takes no memory.
    pub fn new(bytes: &[u8]) -> Result<Self, BadName>
        ensures bytes { IfOk result (λ name. name ≡ bytes.now) }
        ensures lawful { is_ok result ≡ is_rsc_id bytes.now }
    {
        if !is_rsc_id(bytes) {
            return Err(BadName);
        }
        match ArrayVec::try_from(bytes) {
            Ok(bytes) => Ok(RscId { bytes }),
            Err(_) => Err(BadName),
        }
    }

    /// The bytes of the id, which are ASCII.
    pub fn as_bytes(&self) -> &[u8]
        ensures bytes { result.now ≡ self.now }
        ensures lawful { IsTrue (is_rsc_id result.now) }
        ensures short { length result.now ≤ NAME_LIMIT }
    {
        self.bytes.as_slice()
    }

    /// A copy of the id. It takes no memory.
    pub fn copied(&self) -> Self
        ensures { result ≡ self.now }
    {
        match ArrayVec::try_from(self.bytes.as_slice()) {
            Ok(bytes) => RscId { bytes },
            Err(_) => unreachable!(),
        }
    }
}
