//! The metadata of a site's agents.
ghost use Rattle.std.specs.Prelude.{◌≡◌, ◌≤◌, length, IfOk};
ghost use Rattle.ocf_types.specs.Limits.{metadata_limit};

use crate::asked_agent::{AskedAgent, Polled};
use agent_metadata::{MetaCall, run_meta};
use agent_system::{Leading, leading_for};
use host_system::{System, SystemAgents};
use ocf_env::Site;
use ocf_types::{AgentType, MetaFault, Provider};
use session_machine::Metadata;
use std::alloc::Global;
use std::cell::Cell;

/// The metadata of a site's agents, which are asked one at a time. It cannot be dropped, only given up, so no agent that was asked is
/// left running.
pub struct SiteMetadata<'a> {
    system: &'a System<'a>,
    site: Site,
    // Whether each agent runs in a process group of its own.
    groups: bool,
    asked: Cell<Option<AskedAgent<'a>>>,
}

// Ends the agent that was asked, if there was one.
fn end(alloc: Global, asked: Option<AskedAgent<'_>>) {
    if let Some(asked) = asked {
        asked.give_up(alloc);
    }
}

impl<'a> SiteMetadata<'a> {
    /// No agent is asked yet.
    pub fn new(system: &'a System<'a>, site: Site, groups: bool) -> SiteMetadata<'a>
        ensures site { result.site ≡ site }
        ensures groups { result.groups ≡ groups }
    {
        SiteMetadata {
            system,
            site,
            groups,
            asked: Cell::new(None),
        }
    }

    // How agents are spawned. It was reported when the agents of the session were made.
    fn leading(&self, alloc: Global) -> Result<Leading, MetaFault> {
        match leading_for(&SystemAgents::new(self.system), alloc, self.groups) {
            Ok(leading) => Ok(leading),
            Err(_) => Err(MetaFault::Memory),
        }
    }

    // This agent, which is asked already or from now on. If another one is being asked, it is ended.
    fn take(
        &self,
        alloc: Global,
        provider: &Provider,
        agent: &AgentType,
        limit: Option<u32>,
    ) -> Result<AskedAgent<'a>, MetaFault> {
        if let Some(asked) = self.asked.replace(None) {
            match asked.to(provider, agent) {
                Ok(asked) => return Ok(asked),
                Err(other) => other.give_up(alloc),
            }
        }
        let leading = self.leading(alloc)?;
        let call = MetaCall {
            site: &self.site,
            provider,
            agent,
            leading: &leading,
        };
        AskedAgent::start(self.system, &call, limit)
    }

    // Keeps an agent that has not answered. If another one is being asked, it is ended.
    fn keep(&self, alloc: Global, asked: AskedAgent<'a>) {
        end(alloc, self.asked.replace(Some(asked)));
    }

    /// Ends the agent that is being asked, if there is one, with all its descendants.
    pub fn give_up(self) {
        let SiteMetadata {
            system,
            site: _,
            groups: _,
            asked,
        } = self;
        end(system.host().alloc(), asked.into_inner());
    }
}

impl Metadata for SiteMetadata<'_> {
    ghost of = { λ source. record { site = source.site; groups = source.groups } };

    ghost gives = { λ source provider agent limit given. IfOk given (λ bytes. length bytes.items ≤ metadata_limit) };

    fn metadata(
        &self,
        alloc: Global,
        provider: &Provider,
        agent: &AgentType,
        limit: Option<u32>,
    ) -> Result<Vec<u8>, MetaFault> {
        let leading = self.leading(alloc)?;
        let call = MetaCall {
            site: &self.site,
            provider,
            agent,
            leading: &leading,
        };
        run_meta(&mut SystemAgents::new(self.system), alloc, &call, limit)
    }

    fn poll_metadata(
        &self,
        alloc: Global,
        provider: &Provider,
        agent: &AgentType,
        limit: Option<u32>,
    ) -> Option<Result<Vec<u8>, MetaFault>> {
        let asked = match self.take(alloc, provider, agent, limit) {
            Ok(asked) => asked,
            Err(fault) => return Some(Err(fault)),
        };
        match asked.poll(alloc) {
            Polled::Waits(asked) => {
                self.keep(alloc, asked);
                None
            }
            Polled::Answered(answer) => Some(answer),
        }
    }
}
