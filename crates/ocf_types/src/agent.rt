//! Providers and types of agents.
ghost use Rattle.std.specs.Prelude.{◌≡◌, ◌≤◌, length, is_ok, IfOk, IsTrue};
ghost use Rattle.ocf_types.specs.Names.{is_provider, is_agent_type};

use crate::limits::NAME_LIMIT;
use crate::names::{BadName, is_agent_type, is_provider};
use arrayvec::ArrayVec;
use std::marker::Model;

/// The provider of an agent, a directory below `resource.d`: 1 to 64 bytes of ASCII letters, digits, `_`, `-` and `.`, but
/// neither `.` nor `..`. OCF Resource Agent API 1.1, provider.
#[derive(Drop)]
pub struct Provider {
    bytes: ArrayVec<u8, { NAME_LIMIT }>,
}

impl Model for Provider {
    ghost use Rattle.std.specs.Prelude.{List, ℕ, IsTrue};
    ghost use Rattle.ocf_types.specs.Names.{is_provider};

    ghost Value = { List ℕ };

    ghost view = { λ n. n.bytes.items };

    ghost invariant = { λ n. IsTrue (is_provider n.bytes.items) };

    ghost inverse = { λ b. record { bytes = record { items = b } } };
}

impl Provider {
    /// The name with these bytes. It takes no memory.
    pub fn new(bytes: &[u8]) -> Result<Self, BadName>
        ensures bytes { IfOk result (λ name. name ≡ bytes.now) }
        ensures lawful { is_ok result ≡ is_provider bytes.now }
    {
        if !is_provider(bytes) {
            return Err(BadName);
        }
        match ArrayVec::try_from(bytes) {
            Ok(bytes) => Ok(Provider { bytes }),
            Err(_) => Err(BadName),
        }
    }

    /// The bytes of the name, which are ASCII.
    pub fn as_bytes(&self) -> &[u8]
        ensures bytes { result.now ≡ self.now }
        ensures lawful { IsTrue (is_provider result.now) }
        ensures short { length result.now ≤ NAME_LIMIT }
    {
        self.bytes.as_slice()
    }

    /// A copy of the name. It takes no memory.
    pub fn copied(&self) -> Self
        ensures { result ≡ self.now }
    {
        match ArrayVec::try_from(self.bytes.as_slice()) {
            Ok(bytes) => Provider { bytes },
            Err(_) => unreachable!(),
        }
    }
}

/// The type of an agent, a file in its provider's directory: a name of the same form as a provider's. OCF Resource Agent
/// API 1.1, OCF_RESOURCE_TYPE.
#[derive(Drop)]
pub struct AgentType {
    bytes: ArrayVec<u8, { NAME_LIMIT }>,
}

impl Model for AgentType {
    ghost use Rattle.std.specs.Prelude.{List, ℕ, IsTrue};
    ghost use Rattle.ocf_types.specs.Names.{is_agent_type};

    ghost Value = { List ℕ };

    ghost view = { λ n. n.bytes.items };

    ghost invariant = { λ n. IsTrue (is_agent_type n.bytes.items) };

    ghost inverse = { λ b. record { bytes = record { items = b } } };
}

impl AgentType {
    /// The name with these bytes. It takes no memory.
    pub fn new(bytes: &[u8]) -> Result<Self, BadName>
        ensures bytes { IfOk result (λ name. name ≡ bytes.now) }
        ensures lawful { is_ok result ≡ is_agent_type bytes.now }
    {
        if !is_agent_type(bytes) {
            return Err(BadName);
        }
        match ArrayVec::try_from(bytes) {
            Ok(bytes) => Ok(AgentType { bytes }),
            Err(_) => Err(BadName),
        }
    }

    /// The bytes of the name, which are ASCII.
    pub fn as_bytes(&self) -> &[u8]
        ensures bytes { result.now ≡ self.now }
        ensures lawful { IsTrue (is_agent_type result.now) }
        ensures short { length result.now ≤ NAME_LIMIT }
    {
        self.bytes.as_slice()
    }

    /// A copy of the name. It takes no memory.
    pub fn copied(&self) -> Self
        ensures { result ≡ self.now }
    {
        match ArrayVec::try_from(self.bytes.as_slice()) {
            Ok(bytes) => AgentType { bytes },
            Err(_) => unreachable!(),
        }
    }
}
