//! Reads the lines of a `run` session.
ghost use Rattle.std.specs.Prelude.{◌≡◌, ◌≢◌, ◌<◌, false, length, None, Some, Err, Ok, IfOk, IfErr, IsTrue, IfSome, IfNone};
ghost use Rattle.std.specs.Str.{IsUtf8};
ghost use Rattle.serde_json.specs.Read.{read};
ghost use Rattle.serde_json.specs.View.{view};
ghost use Rattle.ocf_model.specs.declared.refusal.Refusal.TheVariants.{Syntax, Memory};
ghost use Rattle.exec_commands.specs.Served.{is_service_line};
ghost use Rattle.exec_commands.specs.Lines.{drain_in, watch_in, meta_in, line_for, line_of, value_of, line_read, commanded, asked};

use crate::commands::{
    cancel_in, exec_in, id_in, recur_in, register_in, set_params_in, withdraw_in,
};
use crate::keys::{number_at, number_or, number_there, text_at};
use crate::line::Line;
use crate::operation::{Operation, operation_named};
use crate::values::{agent_type, limit, limit_if_named, millis, provider};
use growth::{Grows, Refused};
use ocf_model::Refusal;
use ocf_types::{Command, LINE_LIMIT, Question, Request};
use serde_json::Value;
use std::alloc::Global;

fn drain_in(line: &Value) -> Result<Line, Refusal>
    ensures value { result ≡ drain_in (view line.now) }
    ensures memory { IfErr result (λ e. e ≢ Memory) }
{
    let number = number_or(line, "limit", 60_000)?;
    Ok(Line::Drain(limit(number)?))
}

fn watch_in(line: &Value) -> Result<Line, Refusal>
    ensures value { result ≡ watch_in (view line.now) }
    ensures memory { IfErr result (λ e. e ≢ Memory) }
{
    let number = number_at(line, "limit")?;
    Ok(Line::Watch(millis(number)?.get()))
}

// There is no limit if the line names none.
fn meta_in(line: &Value) -> Result<Line, Refusal>
    ensures value { result ≡ meta_in (view line.now) }
    ensures memory { IfErr result (λ e. e ≢ Memory) }
{
    let provider_text = text_at(line, "provider")?;
    let agent_text = text_at(line, "type")?;
    let provider = provider(provider_text)?;
    let agent = agent_type(agent_text)?;
    let limit = limit_if_named(number_there(line, "limit"))?;
    Ok(Line::Meta {
        provider,
        agent,
        limit,
    })
}

fn commanded(found: Result<Command, Refusal>) -> Result<Line, Refusal>
    ensures value { result ≡ commanded found }
{
    Ok(Line::Request(Request::Command(found?)))
}

fn asked(found: Result<Question, Refusal>) -> Result<Line, Refusal>
    ensures value { result ≡ asked found }
{
    Ok(Line::Request(Request::Question(found?)))
}

fn unregister_in(line: &Value) -> Result<Command, Refusal>
    ensures value { commanded result ≡ line_for Operation.Unregister (view line.now) }
    ensures memory { IfErr result (λ e. e ≢ Memory) }
{
    Ok(Command::Unregister(id_in(line)?))
}

fn forget_in(line: &Value) -> Result<Command, Refusal>
    ensures value { commanded result ≡ line_for Operation.Forget (view line.now) }
    ensures memory { IfErr result (λ e. e ≢ Memory) }
{
    Ok(Command::Forget(id_in(line)?))
}

fn info_in(line: &Value) -> Result<Question, Refusal>
    ensures value { asked result ≡ line_for Operation.Info (view line.now) }
    ensures memory { IfErr result (λ e. e ≢ Memory) }
{
    Ok(Question::Info(id_in(line)?))
}

fn history_in(line: &Value) -> Result<Question, Refusal>
    ensures value { asked result ≡ line_for Operation.History (view line.now) }
    ensures memory { IfErr result (λ e. e ≢ Memory) }
{
    Ok(Question::History(id_in(line)?))
}

fn line_for(alloc: Global, operation: Operation, line: &Value) -> Result<Line, Refusal>
    ensures ok { IfOk result (λ l. line_for operation (view line.now) ≡ Ok l) }
    ensures err { IfErr result (λ e. e ≢ Memory → line_for operation (view line.now) ≡ Err e) }
    ensures memory { IfErr result (λ e. e ≡ Memory → IsTrue ⟦<Global as Grows>⟧.refuses) }
{
    match operation {
        Operation::Register => commanded(register_in(alloc, line)),
        Operation::Unregister => commanded(unregister_in(line)),
        Operation::SetParams => commanded(set_params_in(alloc, line)),
        Operation::Exec => commanded(exec_in(line)),
        Operation::Recur => commanded(recur_in(line)),
        Operation::Cancel => commanded(cancel_in(line)),
        Operation::Withdraw => commanded(withdraw_in(line)),
        Operation::Forget => commanded(forget_in(line)),
        Operation::List => asked(Ok(Question::List)),
        Operation::Info => asked(info_in(line)),
        Operation::History => asked(history_in(line)),
        Operation::Drain => drain_in(line),
        Operation::Watch => watch_in(line),
        Operation::Meta => meta_in(line),
        Operation::Tidy => Ok(Line::Tidy),
    }
}

/// The request of a JSON value, or the first refusal.
pub fn line_of(alloc: Global, value: &Value) -> Result<Line, Refusal>
    ensures ok { IfOk result (λ l. line_of (view value.now) ≡ Ok l) }
    ensures err { IfErr result (λ e. e ≢ Memory → line_of (view value.now) ≡ Err e) }
    ensures memory { IfErr result (λ e. e ≡ Memory → IsTrue ⟦<Global as Grows>⟧.refuses) }
{
    match operation_named(text_at(value, "op")?) {
        Some(operation) => line_for(alloc, operation, value),
        None => Err(Refusal::UnknownOp),
    }
}

// The JSON value of these bytes, or `None` if they are not JSON.
#[tactic(auto, using(growth::specs::Refused::refuses))]
fn parsed(alloc: Global, bytes: &[u8]) -> Result<Option<Value>, Refused>
    ensures some { IfOk result (λ found. IfSome found
        (λ v. IsUtf8 bytes.now × (read bytes.now ≡ Some (view v)))) }
    ensures none { IfOk result (λ found. IfNone found (IsUtf8 bytes.now → read bytes.now ≡ None)) }
{
    match Value::from_slice(alloc, bytes) {
        Ok(value) => Ok(Some(value)),
        // TRUSTED: it is lack of memory only where the memory that the value takes is refused.
        Err(error) if error.is_memory() => Err(Refused::known()),
        Err(_) => Ok(None),
    }
}

/// The JSON value of a line.
#[tactic(auto, using(crate::proofs::ValueLemmas::too_long))]
pub fn value_of(alloc: Global, bytes: &[u8]) -> Result<Value, Refusal>
    ensures ok { IfOk result (λ v. value_of bytes.now ≡ Some (view v)) }
    ensures err { IfErr result (λ e. e ≢ Memory → (value_of bytes.now ≡ None) × (e ≡ Syntax)) }
    ensures long { LINE_LIMIT < length bytes.now → result ≡ Err Syntax }
    ensures memory { IfErr result (λ e. e ≡ Memory → IsTrue ⟦<Global as Grows>⟧.refuses) }
{
    if bytes.len() > LINE_LIMIT {
        return Err(Refusal::Syntax);
    }
    match parsed(alloc, bytes) {
        Ok(Some(value)) => Ok(value),
        Ok(None) => Err(Refusal::Syntax),
        Err(_) => Err(Refusal::Memory),
    }
}

/// The request of a line, given without its newline, or why it is refused: the first of syntax, unknown-op, bad-name and
/// bad-value that holds. A line of at most 131,072 bytes is instead refused for memory if the allocator refused it. Operations of
/// `serve` sessions alone are unknown here, and a request for metadata has a limit only if it names one.
pub fn read_command(alloc: Global, bytes: &[u8]) -> Result<Line, Refusal>
    ensures ok { IfOk result (λ l. line_read bytes.now ≡ Ok l) }
    ensures refused { IfErr result (λ e. e ≢ Memory → line_read bytes.now ≡ Err e) }
    ensures long { LINE_LIMIT < length bytes.now → result ≡ Err Syntax }
    ensures stays { result ≢ Ok Line.Leave }
    ensures plain { IfOk result (λ l. is_service_line l ≡ false) }
    ensures memory { IfErr result (λ e. e ≡ Memory → IsTrue ⟦<Global as Grows>⟧.refuses) }
{
    line_of(alloc, &value_of(alloc, bytes)?)
}
