//! Names and values of a line.
ghost use Rattle.std.specs.Prelude.{◌≡◌, ◌≢◌, IfErr};
ghost use Rattle.ocf_types.specs.Names.{is_rsc_id, is_provider, is_agent_type};
ghost use Rattle.exec_commands.specs.Values.{named, check_numbered, check_of, task_named, millis_of, call_of, limit_if_named, limit_of};
ghost use Rattle.ocf_model.specs.declared.refusal.Refusal.TheVariants.{Memory};

use ocf_model::Refusal;
use ocf_types::{Action, AgentType, CallId, Check, Expect, Level, Millis, Provider, RscId, Task};

/// The id of a resource.
pub fn rsc_id(text: &str) -> Result<RscId, Refusal>
    ensures value { result ≡ named is_rsc_id text.now }
    ensures memory { IfErr result (λ e. e ≢ Memory) }
{
    match RscId::new(text.as_bytes()) {
        Ok(id) => Ok(id),
        Err(_) => Err(Refusal::BadName),
    }
}

/// The provider of an agent.
pub fn provider(text: &str) -> Result<Provider, Refusal>
    ensures value { result ≡ named is_provider text.now }
    ensures memory { IfErr result (λ e. e ≢ Memory) }
{
    match Provider::new(text.as_bytes()) {
        Ok(provider) => Ok(provider),
        Err(_) => Err(Refusal::BadName),
    }
}

/// The type of an agent.
pub fn agent_type(text: &str) -> Result<AgentType, Refusal>
    ensures value { result ≡ named is_agent_type text.now }
    ensures memory { IfErr result (λ e. e ≢ Memory) }
{
    match AgentType::new(text.as_bytes()) {
        Ok(agent) => Ok(agent),
        Err(_) => Err(Refusal::BadName),
    }
}

/// The check of a level's number and an exit code.
fn check_numbered(level: u64, code: u64) -> Option<Check>
    ensures { result ≡ check_numbered level code }
{
    let (Some(level), Some(expect)) = (Level::numbered(level), Expect::from_code(code)) else {
        return None;
    };
    Some(Check { level, expect })
}

/// The check of a recurring monitor, from the number of a level and the expected exit code.
pub fn check(level: u64, code: u64) -> Result<Check, Refusal>
    ensures value { result ≡ check_of level code }
    ensures memory { IfErr result (λ e. e ≢ Memory) }
{
    match check_numbered(level, code) {
        Some(check) => Ok(check),
        None => Err(Refusal::BadValue),
    }
}

/// The task of an action, by its name, with the number of a level and the expected exit code.
pub fn task(word: &str, level: u64, code: u64) -> Result<Task, Refusal>
    ensures value { result ≡ task_named word.now level code }
    ensures memory { IfErr result (λ e. e ≢ Memory) }
{
    let (Some(action), Some(check)) = (Action::named(word), check_numbered(level, code)) else {
        return Err(Refusal::BadValue);
    };
    match Task::new(action, check) {
        Some(task) => Ok(task),
        None => Err(Refusal::BadValue),
    }
}

/// An interval or a timeout.
pub fn millis(number: u64) -> Result<Millis, Refusal>
    ensures value { result ≡ millis_of number }
    ensures memory { IfErr result (λ e. e ≢ Memory) }
{
    let Ok(number) = u32::try_from(number) else {
        return Err(Refusal::BadValue);
    };
    match Millis::new(number) {
        Some(millis) => Ok(millis),
        None => Err(Refusal::BadValue),
    }
}

/// The call id of an action.
pub fn call_id(number: u64) -> Result<CallId, Refusal>
    ensures value { result ≡ call_of number }
    ensures memory { IfErr result (λ e. e ≢ Memory) }
{
    match CallId::new(number) {
        Some(call) => Ok(call),
        None => Err(Refusal::BadValue),
    }
}

/// The limit of a drain or of a request for metadata, in milliseconds.
pub fn limit(number: u64) -> Result<u32, Refusal>
    ensures value { result ≡ limit_of number }
    ensures memory { IfErr result (λ e. e ≢ Memory) }
{
    if number > 86_400_000 {
        return Err(Refusal::BadValue);
    }
    Ok(number as u32)
}

/// The limit, if one is named.
pub fn limit_if_named(number: Option<u64>) -> Result<Option<u32>, Refusal>
    ensures value { result ≡ limit_if_named number }
    ensures memory { IfErr result (λ e. e ≢ Memory) }
{
    match number {
        Some(number) => Ok(Some(limit(number)?)),
        None => Ok(None),
    }
}
