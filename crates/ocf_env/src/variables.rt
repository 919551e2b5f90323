//! Appends the variables of an environment, in the order of their names.
ghost use Rattle.std.specs.Prelude.{◌≡◌, ◌++◌, [], ◌∷◌, OnOk, decimal};
ghost use Rattle.ocf_types.specs.Actions.{level_number};
ghost use Rattle.ocf_types.specs.Params.{AreParams};
ghost use Rattle.ocf_env.specs.Variables.{reskey};
ghost use Rattle.ocf_env.specs.Lists.{level_pairs, version_pairs, param_pairs, instance_pair, agent_pairs, site_pairs, last_pairs};

use crate::site::Site;
use crate::text::{Text, ascii, copied, joined};
use growth::{Grows, Refused, push};
use ocf_types::{Action, AgentType, Level, ParamName, ParamValue, Params, Provider, RscId, Task};
use std::alloc::Allocator;

/// A list of variables that is being filled.
pub type Pairs<A> = Vec<(Text<A>, Text<A>), A>;

fn push_pair<A: Grows>(
    alloc: A,
    pairs: &mut Pairs<A>,
    name: &str,
    value: &str,
) -> Result<(), Refused<A>>
    ensures pairs { OnOk result (pairs.new.items ≡ pairs.old.items ++ (name.now, value.now) ∷ []) }
{
    let name = copied(alloc, name)?;
    let value = copied(alloc, value)?;
    push(pairs, (name, value))?;
    Ok(())
}

fn level_text(level: Level) -> &'static str
    ensures { result.now ≡ decimal (level_number level) }
{
    match level {
        Level::Zero => "0",
        Level::Ten => "10",
        Level::Twenty => "20",
    }
}

/// Appends the level of a monitor. OCF Resource Agent API 1.1, OCF_CHECK_LEVEL.
pub fn push_level<A: Grows>(alloc: A, pairs: &mut Pairs<A>, task: Task) -> Result<(), Refused<A>>
    ensures pairs { OnOk result (pairs.new.items ≡ pairs.old.items ++ level_pairs task) }
{
    match task.action() {
        Action::Monitor => {
            push_pair(
                alloc,
                pairs,
                "OCF_CHECK_LEVEL",
                level_text(task.check().level),
            )?;
            Ok(())
        }
        _ => Ok(()),
    }
}

/// Appends the version of the standard, 1.1. OCF Resource Agent API 1.1, OCF_RA_VERSION_MAJOR.
pub fn push_version<A: Grows>(alloc: A, pairs: &mut Pairs<A>) -> Result<(), Refused<A>>
    ensures pairs { OnOk result (pairs.new.items ≡ pairs.old.items ++ version_pairs) }
{
    push_pair(alloc, pairs, "OCF_RA_VERSION_MAJOR", "1")?;
    push_pair(alloc, pairs, "OCF_RA_VERSION_MINOR", "1")?;
    Ok(())
}

#[tactic(auto, using(ocf_types::specs::NameLemmas::param_names))]
fn push_param<A: Grows, P: Allocator>(
    alloc: A,
    pairs: &mut Pairs<A>,
    param: &(ParamName, ParamValue<P>),
) -> Result<(), Refused<A>>
    ensures pairs { OnOk result (pairs.new.items
        ≡ pairs.old.items ++ (reskey param.now.0, param.now.1) ∷ []) }
{
    let name = joined(alloc, "OCF_RESKEY_", ascii(param.0.as_bytes()))?;
    let value = copied(alloc, param.1.as_str())?;
    push(pairs, (name, value))?;
    Ok(())
}

/// Appends the parameters, which are sorted by name. OCF Resource Agent API 1.1, OCF_RESKEY_.
pub fn push_params<A: Grows, P: Allocator>(
    alloc: A,
    pairs: &mut Pairs<A>,
    params: &Params<P>,
) -> Result<(), Refused<A>>
    ensures pairs { OnOk result (pairs.new.items ≡ pairs.old.items ++ param_pairs params.now) }
    ensures lawful { AreParams params.now }
{
    for param in params.as_slice() {
        push_param(alloc, pairs, param)?;
    }
    Ok(())
}

/// Appends the instance. OCF Resource Agent API 1.1, OCF_RESOURCE_INSTANCE.
#[tactic(auto, using(ocf_types::specs::NameLemmas::ids))]
pub fn push_instance<A: Grows>(alloc: A, pairs: &mut Pairs<A>, id: &RscId) -> Result<(), Refused<A>>
    ensures pairs { OnOk result (pairs.new.items ≡ pairs.old.items ++ instance_pair id.now ∷ []) }
{
    push_pair(alloc, pairs, "OCF_RESOURCE_INSTANCE", ascii(id.as_bytes()))?;
    Ok(())
}

#[tactic(auto, using(ocf_types::specs::NameLemmas::providers, ocf_types::specs::NameLemmas::agent_types))]
fn push_agent<A: Grows>(
    alloc: A,
    pairs: &mut Pairs<A>,
    provider: &Provider,
    agent: &AgentType,
) -> Result<(), Refused<A>>
    ensures pairs { OnOk result (pairs.new.items
        ≡ pairs.old.items ++ agent_pairs provider.now agent.now) }
{
    push_pair(
        alloc,
        pairs,
        "OCF_RESOURCE_PROVIDER",
        ascii(provider.as_bytes()),
    )?;
    push_pair(alloc, pairs, "OCF_RESOURCE_TYPE", ascii(agent.as_bytes()))?;
    Ok(())
}

fn push_site<A: Grows, S: Allocator>(
    alloc: A,
    pairs: &mut Pairs<A>,
    site: &Site<S>,
) -> Result<(), Refused<A>>
    ensures pairs { OnOk result (pairs.new.items ≡ pairs.old.items ++ site_pairs site.now) }
{
    push_pair(alloc, pairs, "OCF_ROOT", site.root())?;
    push_pair(alloc, pairs, "PATH", site.path())
}

/// Appends the last variables: provider, type, root and path. OCF Resource Agent API 1.1, OCF_RESOURCE_TYPE.
pub fn push_last<A: Grows, S: Allocator>(
    alloc: A,
    pairs: &mut Pairs<A>,
    site: &Site<S>,
    provider: &Provider,
    agent: &AgentType,
) -> Result<(), Refused<A>>
    ensures pairs { OnOk result (pairs.new.items
        ≡ pairs.old.items ++ last_pairs site.now provider.now agent.now) }
{
    push_agent(alloc, pairs, provider, agent)?;
    push_site(alloc, pairs, site)
}
