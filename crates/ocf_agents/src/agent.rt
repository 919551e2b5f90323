//! The agents and their actions.
ghost use Rattle.std.specs.Prelude.{◌≡◌, ◌≢◌, IfSome, IfNone};
ghost use Rattle.ocf_agents.specs.declared.agent.Agent.{Agent};
ghost use Rattle.ocf_agents.specs.Agents.{agent_word, has_action};

use ocf_types::Action;

/// An agent that keeps a state file. OCF Resource Agent API 1.1, resource type.
#[derive(Clone, Copy)]
pub enum Agent {
    /// Its resource runs exactly when the state file exists.
    Dummy,
    /// Its resource runs exactly when the state file exists; the file holds its role.
    Stateful,
}

impl Agent {
    /// The agent of this type, which is `Dummy` or `Stateful`.
    pub fn of(word: &str) -> Option<Agent>
        ensures found { IfSome result (λ agent. word.now ≡ agent_word agent) }
        ensures none { IfNone result ((agent : Agent) → word.now ≢ agent_word agent) }
    {
        if word == "Dummy" {
            Some(Agent::Dummy)
        } else if word == "Stateful" {
            Some(Agent::Stateful)
        } else {
            None
        }
    }

    /// Whether the agent has this action, apart from its metadata. Only a promotable agent has those that change a role.
    pub fn has(self, action: Action) -> bool
        ensures { result ≡ has_action self action }
    {
        match action {
            Action::Promote | Action::Demote => self == Agent::Stateful,
            _ => true,
        }
    }

    /// The output of the agent for `meta-data`, without the newline. OCF Resource Agent API 1.1, meta-data.
    pub fn metadata(self) -> &'static str {
        match self {
            Agent::Dummy => "<resource-agent name=\"Dummy\"/>",
            Agent::Stateful => "<resource-agent name=\"Stateful\"/>",
        }
    }
}
