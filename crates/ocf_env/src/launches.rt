//! Launches: the invocations of agents for actions and for metadata.
ghost use Rattle.std.specs.Prelude.{◌≡◌, ◌↔◌, ℕ, List, codes, IfOk, Contains, IsTrue};
ghost use Rattle.ocf_env.specs.Instances.{registered};
ghost use Rattle.ocf_env.specs.Invocations.{IsInvocation};
ghost use Rattle.ocf_env.specs.Programs.{agent_path, program_at, arguments_at};
ghost use Rattle.ocf_env.specs.MetaVariables.{IsGiven};
ghost use Rattle.ocf_env.specs.Variables.{IsVariable, IsAgentVariable, are_ascending};

use crate::invocation::{Invocation, agent_file, called};
use crate::meta_variables::add_meta;
use crate::site::Site;
use crate::variables::{Pairs, push_instance, push_last, push_level, push_params, push_version};
use growth::{Grows, Refused};
use ocf_types::{AgentType, CallId, Millis, Params, Provider, RscId, RunId, Running, Task};
use std::alloc::{Allocator, Global};

/// An instance of an agent: its id, provider, type and parameters, all borrowed. `P` is the type of parameters. OCF Resource
/// Agent API 1.1, OCF_RESOURCE_INSTANCE.
#[derive(Drop)]
pub struct Instance<'a, P> {
    pub id: &'a RscId,
    pub provider: &'a Provider,
    pub agent: &'a AgentType,
    pub params: &'a P,
}

/// An action of an instance, ready to be spawned: the agent's invocation, the instance's id, and the call id, run number and
/// timeout of the action. `I` is the type of the invocation.
#[derive(Drop)]
pub struct LaunchOf<I> {
    pub invocation: I,
    pub id: RscId,
    pub call: CallId,
    pub run: RunId,
    pub timeout: Millis,
}

/// A launch whose texts are allocated from `A`.
pub type Launch<A = Global> = LaunchOf<Invocation<A>>;

fn action_variables<A: Grows, S: Allocator, P: Allocator>(
    alloc: A,
    site: &Site<S>,
    instance: &Instance<'_, Params<P>>,
    task: Task,
) -> Result<Pairs<A>, Refused<A>>
    ensures sorted { IfOk result (λ e. IsTrue (are_ascending e.items)) }
    ensures variables { IfOk result
        (λ e. (name value : List ℕ) → Contains e.items (name, value)
        ↔ IsVariable site.now (registered instance.now) task name value) }
{
    let mut pairs = Vec::new(alloc);
    push_level(alloc, &mut pairs, task)?;
    push_version(alloc, &mut pairs)?;
    push_params(alloc, &mut pairs, instance.params)?;
    push_instance(alloc, &mut pairs, instance.id)?;
    push_last(alloc, &mut pairs, site, instance.provider, instance.agent)?;
    Ok(pairs)
}

// The environment of an action: its variables, and Pacemaker's if the site says so.
fn given_variables<A: Grows, S: Allocator, P: Allocator>(
    alloc: A,
    site: &Site<S>,
    instance: &Instance<'_, Params<P>>,
    running: Running,
) -> Result<Pairs<A>, Refused<A>>
    ensures sorted { IfOk result (λ e. IsTrue (are_ascending e.items)) }
    ensures variables { IfOk result
        (λ e. (name value : List ℕ) → Contains e.items (name, value)
        ↔ IsGiven site.now (registered instance.now) running name value) }
{
    let mut pairs = action_variables(alloc, site, instance, running.task)?;
    if !site.meta() {
        return Ok(pairs);
    }
    add_meta(alloc, &mut pairs, running)?;
    Ok(pairs)
}

fn meta_variables<A: Grows, S: Allocator>(
    alloc: A,
    site: &Site<S>,
    provider: &Provider,
    agent: &AgentType,
) -> Result<Pairs<A>, Refused<A>>
    ensures sorted { IfOk result (λ e. IsTrue (are_ascending e.items)) }
    ensures variables { IfOk result
        (λ e. (name value : List ℕ) → Contains e.items (name, value)
        ↔ IsAgentVariable site.now provider.now agent.now name value) }
{
    let mut pairs = Vec::new(alloc);
    push_version(alloc, &mut pairs)?;
    push_last(alloc, &mut pairs, site, provider, agent)?;
    Ok(pairs)
}

/// The launch of an action of an instance. The agent gets exactly the variables of OCF Resource Agent API 1.1 that
/// `IsVariable` lists, OCF_CHECK_LEVEL for a monitor only, OCF_RESOURCE_PROVIDER as Pacemaker sets it, PATH, and one
/// OCF_RESKEY_ variable for each parameter. If the site says so, it also gets those of `IsMetaVariable`: the action's name,
/// and its interval and timeout in milliseconds. A parameter that an administrator named like one of these is never replaced;
/// if the site does not say so, no other OCF_RESKEY_CRM_meta_ variable is set.
pub fn launch<A: Grows, S: Allocator, P: Allocator>(
    alloc: A,
    site: &Site<S>,
    instance: &Instance<'_, Params<P>>,
    running: Running,
) -> Result<Launch<A>, Refused<A>>
    ensures invocation { IfOk result
        (λ l. IsInvocation site.now (registered instance.now) running l.invocation) }
    ensures id { IfOk result (λ l. l.id ≡ instance.now.id.now) }
    ensures call { IfOk result (λ l. l.call ≡ running.call) }
    ensures run { IfOk result (λ l. l.run ≡ running.run) }
    ensures timeout { IfOk result (λ l. l.timeout ≡ running.timeout) }
{
    let (task, call, run) = (running.task, running.call, running.run);
    let timeout = running.timeout;
    let environment = given_variables(alloc, site, instance, running)?;
    let file = agent_file(alloc, site, instance.provider, instance.agent)?;
    let invocation = called(alloc, site, file, task.action().word(), environment)?;
    Ok(LaunchOf {
        invocation,
        id: instance.id.copied(),
        call,
        run,
        timeout,
    })
}

/// The invocation that asks an agent for its metadata. It needs no instance: neither OCF_CHECK_LEVEL nor
/// OCF_RESOURCE_INSTANCE is set, nor any OCF_RESKEY_ variable. OCF Resource Agent API 1.1, meta-data.
pub fn launch_meta<A: Grows, S: Allocator>(
    alloc: A,
    site: &Site<S>,
    provider: &Provider,
    agent: &AgentType,
) -> Result<Invocation<A>, Refused<A>>
    ensures program { IfOk result
        (λ i. i.program ≡ program_at site.now.via
        (agent_path site.now.root provider.now agent.now)) }
    ensures arguments { IfOk result
        (λ i. i.arguments ≡ arguments_at site.now.via
        (agent_path site.now.root provider.now agent.now) (codes "meta-data")) }
    ensures sorted { IfOk result (λ i. IsTrue (are_ascending i.environment)) }
    ensures variables { IfOk result
        (λ i. (name value : List ℕ) → Contains i.environment (name, value)
        ↔ IsAgentVariable site.now provider.now agent.now name value) }
{
    let environment = meta_variables(alloc, site, provider, agent)?;
    let file = agent_file(alloc, site, provider, agent)?;
    let invocation = called(alloc, site, file, "meta-data", environment)?;
    Ok(invocation)
}
