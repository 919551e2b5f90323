//! Results, as the replies to `history` and `info` show them.
ghost use Rattle.std.specs.Prelude.{◌≡◌, ◌++◌, OnOk};
ghost use Rattle.exec_replies.specs.Replies.{ended_data, failed_data};
ghost use Rattle.exec_replies.specs.Results.{ended_first, ended_rest};
ghost use Rattle.exec_replies.specs.Tokens.{value_tokens, values_tokens};

use crate::line_tokens::LineTokens;
use growth::Refused;
use ocf_codes::{code_of, name_of};
use ocf_types::Ended;

// The members up to the code.
fn put_ended_first(line: &mut LineTokens, ended: &Ended) -> Result<(), Refused>
    ensures ok { OnOk result (line.new ≡ line.old ++ ended_first ended.now) }
{
    line.begin_object()?;
    line.text("action", ended.action.word())?;
    line.number("at", ended.at.get())?;
    line.number("call", ended.call.get())?;
    line.number("code", u64::from(code_of(ended.outcome)))
}

// The other members.
fn put_ended_rest(line: &mut LineTokens, ended: &Ended) -> Result<(), Refused>
    ensures ok { OnOk result (line.new ≡ line.old ++ ended_rest ended.now) }
{
    line.number("interval", u64::from(ended.interval))?;
    line.text("name", name_of(ended.outcome))?;
    line.text("outcome", ended.outcome.word())?;
    line.number("run", ended.run)?;
    line.number("since", ended.since.get())?;
    line.end_object()
}

fn put_ended(line: &mut LineTokens, ended: &Ended) -> Result<(), Refused>
    ensures ok { OnOk result (line.new ≡ line.old ++ value_tokens (ended_data ended.now)) }
{
    put_ended_first(line, ended)?;
    put_ended_rest(line, ended)
}

/// Writes the last failed result, or null.
pub fn put_last_failed(line: &mut LineTokens, failed: Option<Ended>) -> Result<(), Refused>
    ensures ok { OnOk result (line.new ≡ line.old ++ value_tokens (failed_data failed)) }
{
    match failed {
        Some(ended) => put_ended(line, &ended),
        None => line.null_value(),
    }
}

/// Writes the results of a history, in order.
pub fn put_results(line: &mut LineTokens, results: &[Ended]) -> Result<(), Refused>
    ensures ok { OnOk result (line.new ≡ line.old ++ values_tokens ended_data results.now) }
{
    for ended in results {
        put_ended(line, ended)?;
    }
    Ok(())
}
