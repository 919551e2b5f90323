//! Names as texts.
ghost use Rattle.std.specs.Prelude.{◌≡◌};

use ocf_env::ascii;
use ocf_types::{AgentType, ParamName, Provider, RscId};

/// The text of an id.
#[tactic(auto, using(ocf_types::specs::NameLemmas::ids))]
pub fn id_text(id: &RscId) -> &str
    ensures { result.now ≡ id.now }
{
    ascii(id.as_bytes())
}

/// The text of a provider.
#[tactic(auto, using(ocf_types::specs::NameLemmas::providers))]
pub fn provider_text(provider: &Provider) -> &str
    ensures { result.now ≡ provider.now }
{
    ascii(provider.as_bytes())
}

/// The text of an agent's type.
#[tactic(auto, using(ocf_types::specs::NameLemmas::agent_types))]
pub fn agent_text(agent: &AgentType) -> &str
    ensures { result.now ≡ agent.now }
{
    ascii(agent.as_bytes())
}

/// The text of a parameter's name.
#[tactic(auto, using(ocf_types::specs::NameLemmas::param_names))]
pub fn param_text(name: &ParamName) -> &str
    ensures { result.now ≡ name.now }
{
    ascii(name.as_bytes())
}
