//! An agent that is asked for its metadata.
ghost use Rattle.std.specs.Prelude.{◌≤◌, length, IfOk};
ghost use Rattle.agent_metadata.specs.Asking.{IsAlone};
ghost use Rattle.agent_metadata.specs.MetaChildren.{asked_process};
ghost use Rattle.ocf_types.specs.Limits.{metadata_limit};
ghost use Rattle.host_system.specs.SystemAgents.{child_process};

use agent_metadata::{MetaCall, MetaChild, MetaPoll};
use host_system::{System, SystemAgents};
use ocf_env::Site;
use ocf_types::{AgentType, MetaFault, Provider};
use std::alloc::Global;

/// The agent of a provider and a type, which is asked for its metadata and has not answered yet, by a handle of the system of its own. It
/// cannot be dropped: it is polled until it answers, or given up.
pub struct AskedAgent<'a> {
    provider: Provider,
    agent: AgentType,
    agents: SystemAgents<'a>,
    child: MetaChild<SystemAgents<'a>, Global>,
    // It lives, and is the only one that this handle asked.
    pub ghost alone: { IsAlone agents.sights (asked_process child_process child) },
}

/// The result of a poll of an agent that was asked.
pub enum Polled<'a> {
    /// It was not answered yet.
    Waits(AskedAgent<'a>),
    /// The metadata, or why there are none.
    Answered(Result<Vec<u8>, MetaFault>),
}

impl<'a> AskedAgent<'a> {
    ghost use Rattle.ocfexec.specs.Questions.{IfAnswered};

    /// Asks an agent. It has `limit` milliseconds, or as long as it takes where there is no limit.
    pub fn start(
        system: &'a System<'a>,
        call: &MetaCall<'_, Global>,
        limit: Option<u32>,
    ) -> Result<AskedAgent<'a>, MetaFault> {
        let mut agents = SystemAgents::new(system);
        let child = MetaChild::start(&mut agents, system.host().alloc(), call, limit)?;
        Ok(AskedAgent {
            provider: call.provider.copied(),
            agent: call.agent.copied(),
            agents,
            child,
        })
    }

    /// It, if it is the agent of this provider and this type; otherwise it is the error.
    pub fn to(
        self,
        provider: &Provider,
        agent: &AgentType,
    ) -> Result<AskedAgent<'a>, AskedAgent<'a>> {
        let AskedAgent {
            provider: its_provider,
            agent: its_agent,
            agents,
            child,
        } = self;
        let is_to = its_provider.as_bytes() == provider.as_bytes()
            && its_agent.as_bytes() == agent.as_bytes();
        let asked = AskedAgent {
            provider: its_provider,
            agent: its_agent,
            agents,
            child,
        };
        if is_to { Ok(asked) } else { Err(asked) }
    }

    /// Returns the answer if there is one, without waiting for it.
    pub fn poll(self, alloc: Global) -> Polled<'a>
        ensures length { IfAnswered result
            (λ answer. IfOk answer (λ bytes. length bytes.items ≤ metadata_limit)) }
    {
        let AskedAgent {
            provider,
            agent,
            mut agents,
            child,
        } = self;
        match child.poll(&mut agents, alloc) {
            MetaPoll::Waits(child) => Polled::Waits(AskedAgent {
                provider,
                agent,
                agents,
                child,
            }),
            MetaPoll::Answered(answer) => Polled::Answered(answer),
        }
    }

    /// Gives the agent up and ends it with all its descendants. An agent that lives on is named on standard error.
    pub fn give_up(self, alloc: Global) {
        let AskedAgent {
            provider: _,
            agent: _,
            mut agents,
            child,
        } = self;
        child.give_up(&mut agents, alloc);
    }
}
