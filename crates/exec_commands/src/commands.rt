//! Reads commands from JSON values.
ghost use Rattle.std.specs.Prelude.{◌≡◌, ◌≢◌, Ok, Err, IfOk, IfErr, IsTrue};
ghost use Rattle.serde_json.specs.View.{view};
ghost use Rattle.ocf_model.specs.declared.refusal.Refusal.TheVariants.{Memory};
ghost use Rattle.exec_commands.specs.Lines.{id_in, register_in, set_params_in, exec_in, recur_in, cancel_in};
ghost use Rattle.exec_commands.specs.Lines.{withdraw_in};

use crate::keys::{number_at, number_or, text_at};
use crate::params::params_of;
use crate::texts::{params_at, params_if_there};
use crate::values::{agent_type, call_id, check, millis, provider, rsc_id, task};
use growth::Grows;
use ocf_model::Refusal;
use ocf_types::{Command, DEFAULT_TIMEOUT, Registration, RscId};
use serde_json::Value;
use std::alloc::Global;

/// The id of a line that needs no other key.
pub fn id_in(line: &Value) -> Result<RscId, Refusal>
    ensures value { result ≡ id_in (view line.now) }
    ensures memory { IfErr result (λ e. e ≢ Memory) }
{
    rsc_id(text_at(line, "id")?)
}

/// The registration of a resource.
pub fn register_in(alloc: Global, line: &Value) -> Result<Command, Refusal>
    ensures ok { IfOk result (λ c. register_in (view line.now) ≡ Ok c) }
    ensures err { IfErr result (λ e. e ≢ Memory → register_in (view line.now) ≡ Err e) }
    ensures memory { IfErr result (λ e. e ≡ Memory → IsTrue ⟦<Global as Grows>⟧.refuses) }
{
    let id = text_at(line, "id")?;
    let provider_text = text_at(line, "provider")?;
    let agent_text = text_at(line, "type")?;
    let texts = params_if_there(alloc, line)?;
    let id = rsc_id(id)?;
    let provider = provider(provider_text)?;
    let agent = agent_type(agent_text)?;
    let params = params_of(alloc, &texts)?;
    Ok(Command::Register(Registration {
        id,
        provider,
        agent,
        params,
    }))
}

/// New parameters of a resource.
pub fn set_params_in(alloc: Global, line: &Value) -> Result<Command, Refusal>
    ensures ok { IfOk result (λ c. set_params_in (view line.now) ≡ Ok c) }
    ensures err { IfErr result (λ e. e ≢ Memory → set_params_in (view line.now) ≡ Err e) }
    ensures memory { IfErr result (λ e. e ≡ Memory → IsTrue ⟦<Global as Grows>⟧.refuses) }
{
    let id = text_at(line, "id")?;
    let texts = params_at(alloc, line)?;
    let id = rsc_id(id)?;
    let params = params_of(alloc, &texts)?;
    Ok(Command::SetParams { id, params })
}

/// An action that runs once.
pub fn exec_in(line: &Value) -> Result<Command, Refusal>
    ensures value { result ≡ exec_in (view line.now) }
    ensures memory { IfErr result (λ e. e ≢ Memory) }
{
    let id = text_at(line, "id")?;
    let word = text_at(line, "action")?;
    let timeout = number_or(line, "timeout", u64::from(DEFAULT_TIMEOUT))?;
    let level = number_or(line, "level", 0)?;
    let expected = number_or(line, "expect", 0)?;
    let id = rsc_id(id)?;
    let task = task(word, level, expected)?;
    let timeout = millis(timeout)?;
    Ok(Command::Exec { id, task, timeout })
}

/// A recurring monitor.
pub fn recur_in(line: &Value) -> Result<Command, Refusal>
    ensures value { result ≡ recur_in (view line.now) }
    ensures memory { IfErr result (λ e. e ≢ Memory) }
{
    let id = text_at(line, "id")?;
    let interval = number_at(line, "interval")?;
    let timeout = number_or(line, "timeout", u64::from(DEFAULT_TIMEOUT))?;
    let level = number_or(line, "level", 0)?;
    let expected = number_or(line, "expect", 0)?;
    let id = rsc_id(id)?;
    let interval = millis(interval)?;
    let timeout = millis(timeout)?;
    let check = check(level, expected)?;
    Ok(Command::Recur {
        id,
        interval,
        timeout,
        check,
    })
}

/// The end of a recurring monitor.
pub fn cancel_in(line: &Value) -> Result<Command, Refusal>
    ensures value { result ≡ cancel_in (view line.now) }
    ensures memory { IfErr result (λ e. e ≢ Memory) }
{
    let id = text_at(line, "id")?;
    let interval = number_at(line, "interval")?;
    let id = rsc_id(id)?;
    let interval = millis(interval)?;
    Ok(Command::Cancel { id, interval })
}

/// The withdrawal of a queued action.
pub fn withdraw_in(line: &Value) -> Result<Command, Refusal>
    ensures value { result ≡ withdraw_in (view line.now) }
    ensures memory { IfErr result (λ e. e ≢ Memory) }
{
    let id = text_at(line, "id")?;
    let call = number_at(line, "call")?;
    let id = rsc_id(id)?;
    let call = call_id(call)?;
    Ok(Command::Withdraw { id, call })
}
