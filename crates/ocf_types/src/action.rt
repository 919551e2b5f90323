//! Actions of agents.
ghost use Rattle.std.specs.Prelude.{◌≡◌, ◌≢◌, IfSome, IfNone};
ghost use Rattle.ocf_types.specs.Actions.{action_word, action_named, level_number, level_numbered};
ghost use Rattle.ocf_types.specs.Actions.{plain, task, task_of};
ghost use Rattle.ocf_types.specs.declared.action.Action.{Action};
ghost use Rattle.ocf_types.specs.declared.action.Action.TheVariants.{Monitor};

use crate::expect::Expect;
use std::marker::Model;

/// An action that an agent is asked to run. OCF Resource Agent API 1.1, actions; `promote` and `demote` apply to promotable
/// agents.
#[derive(Clone, Copy)]
pub enum Action {
    Start,
    Stop,
    Monitor,
    Promote,
    Demote,
    ReloadAgent,
    ValidateAll,
}

impl Action {
    /// The action of this word; `None` if no action has it.
    pub fn named(word: &str) -> Option<Action>
        ensures named { result ≡ action_named word.now }
        ensures found { IfSome result (λ action. word.now ≡ action_word action) }
        ensures none { IfNone result ((action : Action) → word.now ≢ action_word action) }
    {
        if word == "start" {
            Some(Action::Start)
        } else if word == "stop" {
            Some(Action::Stop)
        } else if word == "monitor" {
            Some(Action::Monitor)
        } else if word == "promote" {
            Some(Action::Promote)
        } else if word == "demote" {
            Some(Action::Demote)
        } else if word == "reload-agent" {
            Some(Action::ReloadAgent)
        } else if word == "validate-all" {
            Some(Action::ValidateAll)
        } else {
            None
        }
    }

    /// The word for the action, which is the agent's argument.
    pub fn word(self) -> &'static str
        ensures { result.now ≡ action_word self }
    {
        match self {
            Action::Start => "start",
            Action::Stop => "stop",
            Action::Monitor => "monitor",
            Action::Promote => "promote",
            Action::Demote => "demote",
            Action::ReloadAgent => "reload-agent",
            Action::ValidateAll => "validate-all",
        }
    }
}

/// The depth of a monitor: 0, 10 or 20. OCF Resource Agent API 1.1, OCF_CHECK_LEVEL.
#[derive(Clone, Copy, PartialEq, Eq)]
pub enum Level {
    Zero,
    Ten,
    Twenty,
}

impl Level {
    /// The level of this number; `None` if no level has it.
    pub fn numbered(number: u64) -> Option<Level>
        ensures { result ≡ level_numbered number }
    {
        match number {
            0 => Some(Level::Zero),
            10 => Some(Level::Ten),
            20 => Some(Level::Twenty),
            _ => None,
        }
    }

    /// The number of the level: 0, 10 or 20.
    pub fn number(self) -> u8
        ensures { result ≡ level_number self }
    {
        match self {
            Level::Zero => 0,
            Level::Ten => 10,
            Level::Twenty => 20,
        }
    }
}

/// The depth of a monitor, and its expected finding.
#[derive(Clone, Copy, PartialEq, Eq)]
pub struct Check {
    pub level: Level,
    pub expect: Expect,
}

impl Check {
    /// The check of every action except a monitor: level 0, and success is expected.
    pub fn plain() -> Check
        ensures { result ≡ plain }
    {
        Check {
            level: Level::Zero,
            expect: Expect::Success,
        }
    }
}

/// An action and its check, which is the plain one unless the action is a monitor.
#[derive(Clone, Copy)]
pub struct Task {
    action: Action,
    check: Check,
}

impl Model for Task {
    ghost use Rattle.ocf_types.specs.Actions.{TaskView, task, IsTask};

    ghost Value = { TaskView };

    ghost view = { λ t. task t.action t.check };

    ghost invariant = { λ t. IsTask (task t.action t.check) };

    ghost inverse = { λ t. record { action = t.action; check = t.check } };
}

impl Task {
    /// The task of an action and a check. `None` exactly when an action other than a monitor has a level other than 0, or an
    /// expected code other than 0.
    pub fn new(action: Action, check: Check) -> Option<Task>
        ensures { result ≡ task_of action check }
    {
        if action == Action::Monitor || check == Check::plain() {
            Some(Task { action, check })
        } else {
            None
        }
    }

    /// An action with the plain check.
    pub fn plain(action: Action) -> Task
        ensures { result ≡ task action plain }
    {
        Task {
            action,
            check: Check::plain(),
        }
    }

    /// A monitor with a check.
    pub fn monitor(check: Check) -> Task
        ensures { result ≡ task Monitor check }
    {
        Task {
            action: Action::Monitor,
            check,
        }
    }

    /// The action.
    pub fn action(self) -> Action
        ensures { result ≡ self.action }
    {
        self.action
    }

    /// The check; the plain one unless the action is a monitor.
    pub fn check(self) -> Check
        ensures { result ≡ self.check }
    {
        self.check
    }
}
