//! Lemmas about the table, each the contract of a function that does nothing.
ghost use Rattle.std.specs.Prelude.{◌≡◌, ◌≢◌, false};
ghost use Rattle.ocf_agents.specs.Agents.{has_action};
ghost use Rattle.ocf_agents.specs.Table.{code_for, deed_for, held_by};

use crate::agent::Agent;
use crate::table::{Held, Role};
use ocf_codes::Code;
use ocf_types::Action;

/// The result of a monitor after another action: a resource that did not run is running and unpromoted after a start, it is not
/// running after a stop, and a running one has the new role after a promotion or a demotion.
pub fn lemma_monitor_follows(agent: Agent, held: Held)
    ensures start { code_for agent Action.Monitor (held_by agent Action.Start Held.Absent)
        ≡ Code.Success }
    ensures stop { code_for agent Action.Monitor (held_by agent Action.Stop held)
        ≡ Code.NotRunning }
    ensures promote { held ≢ Held.Absent
        → code_for Agent.Stateful Action.Monitor (held_by Agent.Stateful Action.Promote held)
        ≡ Code.RunningPromoted }
    ensures demote { held ≢ Held.Absent
        → code_for Agent.Stateful Action.Monitor (held_by Agent.Stateful Action.Demote held)
        ≡ Code.Success }
{}

/// A start and a stop are idempotent: both succeed, and a second one changes nothing.
pub fn lemma_may_come_again(agent: Agent, held: Held)
    ensures started { code_for agent Action.Start held ≡ Code.Success }
    ensures stopped { code_for agent Action.Stop held ≡ Code.Success }
    ensures start { held_by agent Action.Start (held_by agent Action.Start held)
        ≡ held_by agent Action.Start held }
    ensures stop { held_by agent Action.Stop (held_by agent Action.Stop held)
        ≡ held_by agent Action.Stop held }
{}

/// A monitor, a validation and a reload change nothing, and nor does an action that the agent lacks.
pub fn lemma_changes_nothing(agent: Agent, action: Action, held: Held)
    ensures monitor { held_by agent Action.Monitor held ≡ held }
    ensures validate_all { held_by agent Action.ValidateAll held ≡ held }
    ensures reload_agent { held_by agent Action.ReloadAgent held ≡ held }
    ensures lacks { has_action agent action ≡ false
        → (code_for agent action held ≡ Code.Unimplemented) × (held_by agent action held ≡ held) }
{}

/// Code and deed do not depend on the content of a file that exists, except for a monitor of `Stateful`.
pub fn lemma_role_is_moot(agent: Agent, action: Action, role: Role)
    ensures { ¬ ((agent ≡ Agent.Stateful) × (action ≡ Action.Monitor))
        → (code_for agent action (Held.Named role) ≡ code_for agent action Held.Other)
        × (deed_for agent action (Held.Named role) ≡ deed_for agent action Held.Other) }
{}
