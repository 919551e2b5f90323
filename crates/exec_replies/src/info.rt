//! The reply to `info`: how a resource is registered, and what it does now.
ghost use Rattle.std.specs.Prelude.{◌≡◌, ◌++◌, codes, OnOk};
ghost use Rattle.exec_replies.specs.Infos.{info_state, info_lists, info_more, params_tokens, queued_tokens, recur_first, recur_rest, recurring_tokens, running_tokens};
ghost use Rattle.exec_replies.specs.Objects.{natural_data};
ghost use Rattle.exec_replies.specs.Replies.{info_data, recur_data, running_data};
ghost use Rattle.exec_replies.specs.Tags.{marked_tokens};
ghost use Rattle.exec_replies.specs.Tokens.{text_member, value_tokens, values_tokens};

use crate::line_tokens::LineTokens;
use crate::marks::Marks;
use crate::names::{agent_text, id_text, param_text, provider_text};
use crate::results::put_last_failed;
use growth::Refused;
use ocf_env::op_key;
use ocf_model::Info;
use ocf_types::{
    AgentType, CallId, ParamName, ParamValue, Params, Provider, Recur, RscId, Running,
};

fn put_param(line: &mut LineTokens, name: &ParamName, value: &ParamValue) -> Result<(), Refused>
    ensures ok { OnOk result (line.new ≡ line.old ++ text_member name.now value.now) }
{
    line.text(param_text(name), value.as_str())
}

fn put_params(line: &mut LineTokens, params: &Params) -> Result<(), Refused>
    ensures ok { OnOk result (line.new ≡ line.old ++ params_tokens params.now) }
{
    let entries = params.as_slice();
    for (name, value) in entries {
        put_param(line, name, value)?;
    }
    Ok(())
}

fn put_calls(line: &mut LineTokens, calls: &[CallId]) -> Result<(), Refused>
    ensures ok { OnOk result (line.new ≡ line.old ++ values_tokens natural_data calls.now) }
{
    for call in calls {
        line.number_value(call.get())?;
    }
    Ok(())
}

// The members up to the level.
fn put_recur_first(line: &mut LineTokens, monitor: &Recur) -> Result<(), Refused>
    ensures ok { OnOk result (line.new ≡ line.old ++ recur_first monitor.now) }
{
    line.begin_object()?;
    line.number("call", monitor.call.get())?;
    line.number("expect", u64::from(monitor.check.expect.code()))?;
    line.number("interval", u64::from(monitor.interval.get()))
}

// The other members.
fn put_recur_rest(line: &mut LineTokens, monitor: &Recur) -> Result<(), Refused>
    ensures ok { OnOk result (line.new ≡ line.old ++ recur_rest monitor.now) }
{
    line.number("level", u64::from(monitor.check.level.number()))?;
    line.number("timeout", u64::from(monitor.timeout.get()))?;
    line.end_object()
}

fn put_recur(line: &mut LineTokens, monitor: &Recur) -> Result<(), Refused>
    ensures ok { OnOk result (line.new ≡ line.old ++ value_tokens (recur_data monitor.now)) }
{
    put_recur_first(line, monitor)?;
    put_recur_rest(line, monitor)
}

fn put_monitors(line: &mut LineTokens, monitors: &[Recur]) -> Result<(), Refused>
    ensures ok { OnOk result (line.new ≡ line.old ++ values_tokens recur_data monitors.now) }
{
    for monitor in monitors {
        put_recur(line, monitor)?;
    }
    Ok(())
}

#[tactic(auto, using(crate::proofs::WholeLemmas::running_whole), unfolding(crate::specs::Tokens::text_member, crate::specs::Tokens::number_member, crate::specs::Tokens::flag_member))]
fn put_run(line: &mut LineTokens, id: &RscId, running: &Running) -> Result<(), Refused>
    ensures ok { OnOk result
        (line.new ≡ line.old ++ value_tokens (running_data id.now (Some running.now))) }
{
    let key = op_key(id, running.task.action(), running.interval);
    line.begin_object()?;
    line.number("call", running.call.get())?;
    line.text("key", key.as_str())?;
    line.number("run", running.run.get())?;
    line.end_object()
}

fn put_running(line: &mut LineTokens, id: &RscId, running: Option<Running>) -> Result<(), Refused>
    ensures ok { OnOk result (line.new ≡ line.old ++ running_tokens id.now running) }
{
    line.name("running")?;
    match running {
        Some(running) => put_run(line, id, &running),
        None => line.null_value(),
    }
}

fn put_id(line: &mut LineTokens, id: &RscId) -> Result<(), Refused>
    ensures ok { OnOk result (line.new ≡ line.old ++ text_member (codes "id") id.now) }
{
    line.text("id", id_text(id))
}

fn put_provider(line: &mut LineTokens, provider: &Provider) -> Result<(), Refused>
    ensures ok { OnOk result (line.new ≡ line.old ++ text_member (codes "provider") provider.now) }
{
    line.text("provider", provider_text(provider))
}

fn put_type(line: &mut LineTokens, agent: &AgentType) -> Result<(), Refused>
    ensures ok { OnOk result (line.new ≡ line.old ++ text_member (codes "type") agent.now) }
{
    line.text("type", agent_text(agent))
}

fn put_queued(line: &mut LineTokens, calls: &[CallId]) -> Result<(), Refused>
    ensures ok { OnOk result (line.new ≡ line.old ++ queued_tokens calls.now) }
{
    line.begin_array("queued")?;
    put_calls(line, calls)?;
    line.end_array()
}

fn put_recurring(line: &mut LineTokens, monitors: &[Recur]) -> Result<(), Refused>
    ensures ok { OnOk result (line.new ≡ line.old ++ recurring_tokens monitors.now) }
{
    line.begin_array("recurring")?;
    put_monitors(line, monitors)?;
    line.end_array()
}

// The last failed result, and the id.
fn put_state(line: &mut LineTokens, info: &Info) -> Result<(), Refused>
    ensures ok { OnOk result (line.new ≡ line.old ++ info_state info.now) }
{
    line.begin_object()?;
    line.name("failed")?;
    put_last_failed(line, info.failed)?;
    put_id(line, &info.id)
}

// How it is registered.
fn put_registered(line: &mut LineTokens, info: &Info) -> Result<(), Refused>
    ensures ok { OnOk result (line.new ≡ line.old ++ info_lists info.now) }
{
    line.flag("ok", true)?;
    line.name("params")?;
    line.begin_object()?;
    put_params(line, &info.params)?;
    line.end_object()?;
    put_provider(line, &info.provider)
}

// What it does.
fn put_work(line: &mut LineTokens, info: &Info) -> Result<(), Refused>
    ensures ok { OnOk result (line.new ≡ line.old ++ info_more info.now) }
{
    put_queued(line, info.queued.as_slice())?;
    put_recurring(line, info.recurring.as_slice())?;
    put_running(line, &info.id, info.running)
}

/// Writes the reply to `info`: how a resource is registered, and what it does now.
pub fn put_info(line: &mut LineTokens, marks: Marks, info: &Info) -> Result<(), Refused>
    ensures ok { OnOk result (line.new ≡ line.old ++ marked_tokens marks.entry (info_data info.now)) }
{
    put_state(line, info)?;
    marks.put_kind(line)?;
    put_registered(line, info)?;
    put_work(line, info)?;
    marks.put_tag(line)?;
    put_type(line, &info.agent)?;
    line.end_object()
}
