//! The source of agents' metadata.
ghost use Rattle.std.specs.Prelude.{IfSome};
ghost use Rattle.session_machine.specs.Starts.{Gives, SourceView};

use ocf_types::{AgentType, MetaFault, Provider};
use std::alloc::Global;

/// The source of agents' metadata. OCF Resource Agent API 1.1, meta-data.
pub trait Metadata {
    /// The site of the agents, and whether each runs in a process group of its own.
    ghost of: { Self → SourceView };

    /// The possible answers of such a source.
    ghost gives: { SourceView → Gives };

    /// The metadata of an agent that may take this many milliseconds, or as long as it needs; or why it has none.
    fn metadata(
        &self,
        alloc: Global,
        provider: &Provider,
        agent: &AgentType,
        limit: Option<u32>,
    ) -> Result<Vec<u8>, MetaFault>
        ensures given { Self.gives (of self.now) provider.now agent.now limit result };

    /// The same without a wait: the first call asks the agent, and each call polls it. `None`: it has not answered yet. One agent is
    /// asked at a time, until its answer is given.
    fn poll_metadata(
        &self,
        alloc: Global,
        provider: &Provider,
        agent: &AgentType,
        limit: Option<u32>,
    ) -> Option<Result<Vec<u8>, MetaFault>>
        ensures given { IfSome result
            (λ given. Self.gives (of self.now) provider.now agent.now limit given) };
}
