//! The result of an action, by what it finds in the state file.
ghost use Rattle.std.specs.Prelude.{◌≡◌, ◌↔◌, IsTrue};
ghost use Rattle.ocf_agents.specs.Table.{HoldsAs, code_for, deed_for, role_word};

use crate::agent::Agent;
use ocf_codes::Code;
use ocf_types::Action;

/// The role of a promotable agent that runs. Pacemaker Explained, promotable clones.
#[derive(Clone, Copy)]
pub enum Role {
    Unpromoted,
    Promoted,
}

impl Role {
    /// The name of the role, which is the whole content of the state file.
    pub fn word(self) -> &'static str
        ensures { result.now ≡ role_word self }
    {
        match self {
            Role::Unpromoted => "unpromoted",
            Role::Promoted => "promoted",
        }
    }
}

/// What the state file holds.
#[derive(Clone, Copy)]
pub enum Held {
    /// It does not exist.
    Absent,
    /// The name of a role.
    Named(Role),
    /// Anything else, or content that was not read.
    Other,
}

impl Held {
    /// What a state file with this content holds.
    pub fn of(content: &[u8]) -> Held
        ensures { HoldsAs content.now result }
    {
        match content {
            b"unpromoted" => Held::Named(Role::Unpromoted),
            b"promoted" => Held::Named(Role::Promoted),
            _ => Held::Other,
        }
    }
}

/// What an action does with the state file.
#[derive(Clone, Copy)]
pub enum Deed {
    Leave,
    /// Makes an empty file.
    Make,
    /// Makes it with the name of a role.
    MakeIn(Role),
    /// Replaces its content by the name of a role.
    Write(Role),
    /// Removes it, if it exists.
    Remove,
}

/// The exit code of an action that finds this, if no call on the file fails. OCF Resource Agent API 1.1, exit codes.
pub fn code_for(agent: Agent, action: Action, held: Held) -> Code
    ensures { result ≡ code_for agent action held }
{
    match (agent, action, held) {
        (Agent::Dummy, Action::Promote | Action::Demote, _) => Code::Unimplemented,
        (_, Action::Promote | Action::Demote | Action::Monitor, Held::Absent) => Code::NotRunning,
        (Agent::Stateful, Action::Monitor, Held::Named(Role::Promoted)) => Code::RunningPromoted,
        (Agent::Stateful, Action::Monitor, Held::Other) => Code::Generic,
        _ => Code::Success,
    }
}

/// What an action that finds this does with the state file.
pub fn deed_for(agent: Agent, action: Action, held: Held) -> Deed
    ensures { result ≡ deed_for agent action held }
{
    match (agent, action, held) {
        (Agent::Dummy, Action::Start, Held::Absent) => Deed::Make,
        (Agent::Stateful, Action::Start, Held::Absent) => Deed::MakeIn(Role::Unpromoted),
        (_, Action::Stop, _) => Deed::Remove,
        (Agent::Stateful, Action::Promote, Held::Named(_) | Held::Other) => Deed::Write(
            Role::Promoted,
        ),
        (Agent::Stateful, Action::Demote, Held::Named(_) | Held::Other) => Deed::Write(
            Role::Unpromoted,
        ),
        _ => Deed::Leave,
    }
}

/// Whether the action's code depends on the role that the state file names.
pub fn asks_role(agent: Agent, action: Action) -> bool
    ensures { IsTrue result ↔ (agent ≡ Agent.Stateful) × (action ≡ Action.Monitor) }
{
    agent == Agent::Stateful && action == Action::Monitor
}
