//! The call of an agent, by its arguments and its environment.
ghost use Rattle.std.specs.Prelude.{option_map, IfSome, IfNone};
ghost use Rattle.ocf_types.specs.declared.action.Action.{Action};
ghost use Rattle.ocf_agents.specs.declared.agent.Agent.{Agent};
ghost use Rattle.ocf_agents.specs.Calls.{Asks, IsRead, Types};

use crate::agent::Agent;
use ocf_codes::Code;
use ocf_types::Action;

/// The call of an agent.
#[derive(Clone, Copy)]
pub enum Call<'a> {
    /// For its metadata. OCF Resource Agent API 1.1, meta-data.
    Metadata(Agent),
    /// For an action on the state file of this name.
    Act(Agent, Action, &'a str),
}

fn agent_of(kind: Option<&str>) -> Option<Agent>
    ensures found { IfSome result (Types (option_map (λ s. s.now) kind.entry)) }
    ensures none { IfNone result ((agent : Agent)
        → ¬ (Types (option_map (λ s. s.now) kind.entry) agent)) }
{
    match kind {
        Some(kind) => Agent::of(kind),
        None => None,
    }
}

fn asked_action(word: &str, agent: Agent) -> Option<Action>
    ensures found { IfSome result (Asks (Some word.now) agent) }
    ensures none { IfNone result ((action : Action) → ¬ (Asks (Some word.now) agent action)) }
{
    match Action::named(word) {
        Some(action) if agent.has(action) => Some(action),
        _ => None,
    }
}

/// The call that the last argument, the agent's type and the name of its state file ask for, or the exit code of the first error:
/// OCF_ERR_ARGS without an argument, OCF_ERR_INSTALLED without an agent of this type, OCF_ERR_UNIMPLEMENTED if the agent has no such
/// action, and OCF_ERR_CONFIGURED if an action is asked for and no state file is named. OCF Resource Agent API 1.1, exit codes.
pub fn read_call<'a>(
    word: Option<&str>,
    kind: Option<&str>,
    state: Option<&'a str>,
) -> Result<Call<'a>, Code>
    ensures { IsRead (option_map (λ s. s.now) word.entry) (option_map (λ s. s.now) kind.entry)
        (option_map (λ s. s.now) state.entry) result }
{
    let Some(word) = word else {
        return Err(Code::Args);
    };
    let Some(agent) = agent_of(kind) else {
        return Err(Code::Installed);
    };
    if word == "meta-data" {
        return Ok(Call::Metadata(agent));
    }
    let Some(action) = asked_action(word, agent) else {
        return Err(Code::Unimplemented);
    };
    match state {
        Some(path) if !path.is_empty() => Ok(Call::Act(agent, action, path)),
        _ => Err(Code::Configured),
    }
}
