//! An action that is to be run once, and the call of its agent.
ghost use Rattle.std.specs.Prelude.{IfOk};
ghost use Rattle.exec_once.specs.Calls.{IsCallFor};

use growth::Refused;
use ocf_env::{Instance, Invocation, Site, launch, launch_meta};
use ocf_types::{AgentType, Params, Provider, RscId, Running};
use std::alloc::{Allocator, Global};

/// What the agent is called for.
#[derive(Clone, Copy)]
pub enum What {
    /// Its metadata. OCF Resource Agent API 1.1, meta-data.
    MetaData,
    /// An action.
    Action(Running),
}

/// An action that is to be run once.
#[derive(Drop)]
pub struct OnceCall {
    pub provider: Provider,
    pub agent: AgentType,
    pub id: RscId,
    pub what: What,
    pub params: Params,
}

/// The invocation of the agent for it at this site.
pub fn invocation_of<S: Allocator>(
    alloc: Global,
    site: &Site<S>,
    call: &OnceCall,
) -> Result<Invocation, Refused>
    ensures call { IfOk result (IsCallFor site.now call.now) }
{
    match call.what {
        What::MetaData => launch_meta(alloc, site, &call.provider, &call.agent),
        What::Action(running) => {
            let instance = Instance {
                id: &call.id,
                provider: &call.provider,
                agent: &call.agent,
                params: &call.params,
            };
            Ok(launch(alloc, site, &instance, running)?.invocation)
        }
    }
}
