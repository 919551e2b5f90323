//! A source of metadata without agents.
ghost use Rattle.std.specs.Prelude.{⊤, [], None, false};

use ocf_types::{AgentType, MetaFault, Provider, StartFault};
use session_machine::Metadata;
use std::alloc::Global;

/// Every agent is missing.
pub struct NoMetadata;

impl Metadata for NoMetadata {
    ghost of = { λ source. record { site = record { root = []; path = []; via = None; meta = false }; groups = false } };

    ghost gives = { λ source provider agent limit given. ⊤ };

    fn metadata(
        &self,
        _alloc: Global,
        _provider: &Provider,
        _agent: &AgentType,
        _limit: Option<u32>,
    ) -> Result<Vec<u8>, MetaFault> {
        Err(MetaFault::NotStarted(StartFault::Missing))
    }

    fn poll_metadata(
        &self,
        alloc: Global,
        provider: &Provider,
        agent: &AgentType,
        limit: Option<u32>,
    ) -> Option<Result<Vec<u8>, MetaFault>> {
        Some(self.metadata(alloc, provider, agent, limit))
    }
}
