//! The arguments of an action that is to be run once.
ghost use Rattle.std.specs.Prelude.{IfOk, IfSome};
ghost use Rattle.exec_once.specs.Texts.{IsRunningOf, IsTaskOf, IsWhat};

use crate::call::What;
use ocf_types::{
    Action, AgentType, CallId, Check, Expect, Level, Millis, Moment, ParamName, ParamValue, Params,
    Provider, RscId, RunId, Running, Task, ValueError,
};
use std::alloc::Global;

/// Why an action is not run.
#[derive(Clone, Copy)]
pub enum OnceFault {
    /// The agent is no provider and type.
    Agent,
    /// The word names no action.
    Action,
    /// Another action than a monitor has a level.
    Level,
    /// The text is not the id of a resource.
    Id,
    /// A parameter has no `=`.
    Parameter,
    /// A parameter's name is none.
    ParameterName,
    /// A parameter's value is too long.
    ParameterValue,
    /// There are more than 64 parameters.
    Parameters,
    /// There is no memory for the parameters.
    Memory,
}

impl OnceFault {
    /// What to give in its place.
    pub fn text(self) -> &'static str {
        match self {
            OnceFault::Agent => "give an agent as PROVIDER:TYPE, as heartbeat:Dummy",
            OnceFault::Action => {
                "give an action: start, stop, monitor, promote, demote, reload-agent, validate-all or meta-data"
            }
            OnceFault::Level => "give --level with a monitor only",
            OnceFault::Id => "give --id or --of the id of a resource",
            OnceFault::Parameter => "give parameters as NAME=VALUE",
            OnceFault::ParameterName => {
                "give a parameter a name of 1 to 64 letters, digits and _, which begins with no digit"
            }
            OnceFault::ParameterValue => "give a parameter a value of at most 1024 bytes",
            OnceFault::Parameters => "give at most 64 parameters",
            OnceFault::Memory => "no memory",
        }
    }
}

/// The provider and the type of an agent, by a text such as `heartbeat:Dummy`.
pub fn read_agent(text: &str) -> Result<(Provider, AgentType), OnceFault> {
    let Some((provider, agent)) = text.split_once(':') else {
        return Err(OnceFault::Agent);
    };
    match (
        Provider::new(provider.as_bytes()),
        AgentType::new(agent.as_bytes()),
    ) {
        (Ok(provider), Ok(agent)) => Ok((provider, agent)),
        _ => Err(OnceFault::Agent),
    }
}

/// The id of a resource.
pub fn read_id(text: &str) -> Result<RscId, OnceFault> {
    RscId::new(text.as_bytes()).map_err(|_| OnceFault::Id)
}

// The action of this name, with a level.
fn read_task(word: &str, level: Level) -> Result<Task, OnceFault>
    ensures { IfOk result (IsTaskOf word.now level) }
{
    let Some(action) = Action::named(word) else {
        return Err(OnceFault::Action);
    };
    let check = Check {
        level,
        expect: Expect::Success,
    };
    match Task::new(action, check) {
        Some(task) => Ok(task),
        None => Err(OnceFault::Level),
    }
}

// An action with this timeout. Call and run are the first ones, since nothing counts them.
fn running_of(task: Task, timeout: u32) -> Option<Running>
    ensures { IfSome result (IsRunningOf task timeout) }
{
    Some(Running {
        call: CallId::new(1)?,
        run: RunId::new(1)?,
        task,
        timeout: Millis::new(timeout)?,
        interval: 0,
        since: Moment::cut(0),
    })
}

/// The action of this name, or the metadata, with this level and this timeout in milliseconds, at least 1.
pub fn read_what(word: &str, level: Option<Level>, timeout: u32) -> Result<What, OnceFault>
    ensures { IfOk result (IsWhat word.now level timeout) }
{
    if word == "meta-data" {
        return match level {
            None => Ok(What::MetaData),
            Some(_) => Err(OnceFault::Level),
        };
    }
    let task = read_task(word, level.unwrap_or(Level::Zero))?;
    match running_of(task, timeout) {
        Some(running) => Ok(What::Action(running)),
        None => Err(OnceFault::Action),
    }
}

// A parameter of the form `NAME=VALUE`.
fn read_parameter(alloc: Global, text: &str) -> Result<(ParamName, ParamValue), OnceFault> {
    let Some((name, value)) = text.split_once('=') else {
        return Err(OnceFault::Parameter);
    };
    let Ok(name) = ParamName::new(name.as_bytes()) else {
        return Err(OnceFault::ParameterName);
    };
    match ParamValue::new(alloc, value.as_bytes()) {
        Ok(value) => Ok((name, value)),
        Err(ValueError::BadValue) => Err(OnceFault::ParameterValue),
        Err(ValueError::Memory) => Err(OnceFault::Memory),
    }
}

/// The parameters in these texts; a later one replaces an earlier one of the same name.
pub fn read_parameters(alloc: Global, texts: &[&str]) -> Result<Params, OnceFault> {
    let mut params = Params::new(alloc);
    for text in texts {
        let (name, value) = read_parameter(alloc, text)?;
        match params.insert(name, value) {
            Ok(()) => {}
            Err(ValueError::BadValue) => return Err(OnceFault::Parameters),
            Err(ValueError::Memory) => return Err(OnceFault::Memory),
        }
    }
    Ok(params)
}
