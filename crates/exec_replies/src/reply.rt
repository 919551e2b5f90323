//! Replies, as the tokens of their lines.
ghost use Rattle.std.specs.Prelude.{◌≡◌, ◌≢◌, ◌++◌, OnOk};
ghost use Rattle.serde_json.specs.Data.{string};
ghost use Rattle.exec_replies.specs.Replies.{accepted_data, done_data, history_data, kind_of, length_data, list_data, request_data, run_data, serve_data, served_meta_data, served_request_data};
ghost use Rattle.exec_replies.specs.Tags.{marked_tokens};
ghost use Rattle.exec_replies.specs.Tokens.{values_tokens};
ghost use Rattle.exec_replies.specs.declared.reply.LineReply.TheVariants as answer;
ghost use Rattle.exec_replies.specs.declared.statuses.Statuses.{Statuses as AllStatuses};

use crate::ends::{DrainEnd, drain_word, put_end, put_fault, tidy_word, turn_word};
use crate::info::put_info;
use crate::kind::LineKind;
use crate::line_tokens::LineTokens;
use crate::marks::Marks;
use crate::names::id_text;
use crate::refused::{put_refusal, put_refused};
use crate::results::put_results;
use crate::service::{Counts, Service, put_metadata, put_ready, put_version};
use crate::statuses::Statuses;
use exec_commands::{About, LineRefusal};
use growth::Refused;
use ocf_model::{Refusal, Reply, TidyEnd, TurnEnd};
use ocf_types::{CallId, Ended, MetaFault, OpKey, RscId};

/// The reply to a line.
#[derive(Drop)]
pub enum LineReply {
    /// The reply to a request, or a refusal.
    Request(Reply),
    /// How a drain or a watch ended.
    Drain(DrainEnd),
    /// How a turn ended that the session made by itself, if not as done. It answers no line.
    Trouble(TurnEnd),
    /// How a tidy ended.
    Tidy(TidyEnd),
    /// The session ends, as it was asked to.
    Left,
    /// The metadata of an agent, or why it has none.
    Meta(Result<Vec<u8>, MetaFault>),
    /// The refusal of a line for its content.
    Refused(LineRefusal),
    /// The version of the program. This reply and those below are of `serve` sessions alone.
    Version,
    /// The status of all resources.
    Status(Statuses),
    /// The session has opened its journal, and reads lines from now on.
    Ready(Counts),
}

/// The kind of a reply's line.
pub fn kind_of(reply: &LineReply) -> LineKind
    ensures { result ≡ kind_of reply.now }
{
    match reply {
        LineReply::Ready(_) => LineKind::Ready,
        LineReply::Trouble(_) => LineKind::Trouble,
        _ => LineKind::Reply,
    }
}

#[tactic(auto, using(crate::proofs::WholeLemmas::done_whole), unfolding(crate::specs::Tokens::text_member, crate::specs::Tokens::number_member, crate::specs::Tokens::flag_member))]
fn put_done(line: &mut LineTokens, marks: Marks) -> Result<(), Refused>
    ensures ok { OnOk result (line.new ≡ line.old ++ marked_tokens marks.entry done_data) }
{
    line.begin_object()?;
    marks.put_kind(line)?;
    line.flag("ok", true)?;
    marks.put_tag(line)?;
    line.end_object()
}

#[tactic(auto, using(crate::proofs::WholeLemmas::accepted_whole), unfolding(crate::specs::Tokens::text_member, crate::specs::Tokens::number_member, crate::specs::Tokens::flag_member))]
fn put_accepted(
    line: &mut LineTokens,
    marks: Marks,
    call: CallId,
    key: &OpKey,
) -> Result<(), Refused>
    ensures ok { OnOk result (line.new ≡ line.old ++ marked_tokens marks.entry (accepted_data call key.now)) }
{
    line.begin_object()?;
    line.number("call", call.get())?;
    line.text("key", key.as_str())?;
    marks.put_kind(line)?;
    line.flag("ok", true)?;
    marks.put_tag(line)?;
    line.end_object()
}

fn put_ids(line: &mut LineTokens, ids: &[RscId]) -> Result<(), Refused>
    ensures ok { OnOk result (line.new ≡ line.old ++ values_tokens string ids.now) }
{
    for id in ids {
        line.text_value(id_text(id))?;
    }
    Ok(())
}

fn put_list(line: &mut LineTokens, marks: Marks, ids: &[RscId]) -> Result<(), Refused>
    ensures ok { OnOk result (line.new ≡ line.old ++ marked_tokens marks.entry (list_data ids.now)) }
{
    line.begin_object()?;
    marks.put_kind(line)?;
    line.flag("ok", true)?;
    line.begin_array("resources")?;
    put_ids(line, ids)?;
    line.end_array()?;
    marks.put_tag(line)?;
    line.end_object()
}

fn put_history(line: &mut LineTokens, marks: Marks, results: &[Ended]) -> Result<(), Refused>
    ensures ok { OnOk result (line.new ≡ line.old ++ marked_tokens marks.entry (history_data results.now)) }
{
    line.begin_object()?;
    marks.put_kind(line)?;
    line.flag("ok", true)?;
    line.begin_array("results")?;
    put_results(line, results)?;
    line.end_array()?;
    marks.put_tag(line)?;
    line.end_object()
}

/// Writes the reply to a request, a refusal with its word and number alone.
pub fn put_request(line: &mut LineTokens, marks: Marks, reply: &Reply) -> Result<(), Refused>
    ensures ok { OnOk result (line.new ≡ line.old ++ marked_tokens marks.entry (request_data reply.now)) }
{
    match reply {
        Reply::Refused(refusal) => put_refusal(line, marks, *refusal),
        Reply::Done => put_done(line, marks),
        Reply::Accepted { call, key } => put_accepted(line, marks, *call, key),
        Reply::List(ids) => put_list(line, marks, ids.as_slice()),
        Reply::Info(info) => put_info(line, marks, info),
        Reply::History(results) => put_history(line, marks, results.as_slice()),
        Reply::Turn(end) => put_end(line, marks, turn_word(*end)),
    }
}

/// The same in a `serve` session, where a refusal says what it is about.
pub fn put_served_request(line: &mut LineTokens, marks: Marks, reply: &Reply) -> Result<(), Refused>
    ensures ok { OnOk result (line.new ≡ line.old ++ marked_tokens marks.entry (served_request_data reply.now)) }
{
    match reply {
        Reply::Refused(why) => {
            let refusal = LineRefusal {
                why: *why,
                about: About::Whole,
            };
            put_refused(line, marks, &refusal)
        }
        _ => put_request(line, marks, reply),
    }
}

// How many bytes of metadata follow.
#[tactic(auto, using(crate::proofs::WholeLemmas::length_whole), unfolding(crate::specs::Tokens::text_member, crate::specs::Tokens::number_member, crate::specs::Tokens::flag_member))]
fn put_length(line: &mut LineTokens, marks: Marks, metadata: &[u8]) -> Result<(), Refused>
    ensures ok { OnOk result (line.new ≡ line.old ++ marked_tokens marks.entry (length_data metadata.now)) }
{
    line.begin_object()?;
    marks.put_kind(line)?;
    line.number("meta", metadata.len() as u64)?;
    marks.put_tag(line)?;
    line.end_object()
}

/// Writes a reply of a `run` session.
pub fn put_run_reply(line: &mut LineTokens, marks: Marks, reply: &LineReply) -> Result<(), Refused>
    ensures ok { OnOk result (line.new ≡ line.old ++ marked_tokens marks.entry (run_data reply.now)) }
{
    match reply {
        LineReply::Request(reply) => put_request(line, marks, reply),
        LineReply::Drain(end) => put_end(line, marks, drain_word(*end)),
        LineReply::Trouble(end) => put_end(line, marks, turn_word(*end)),
        LineReply::Tidy(end) => put_end(line, marks, tidy_word(*end)),
        LineReply::Left => put_end(line, marks, "left"),
        LineReply::Meta(Ok(metadata)) => put_length(line, marks, metadata.as_slice()),
        LineReply::Meta(Err(fault)) => put_fault(line, marks, *fault),
        LineReply::Refused(refusal) => put_refused(line, marks, refusal),
        LineReply::Version | LineReply::Status(_) | LineReply::Ready(_) => {
            put_refusal(line, marks, Refusal::UnknownOp)
        }
    }
}

fn put_served_meta(
    line: &mut LineTokens,
    marks: Marks,
    found: &Result<Vec<u8>, MetaFault>,
) -> Result<(), Refused>
    ensures ok { OnOk result (line.new ≡ line.old ++ marked_tokens marks.entry (served_meta_data found.now)) }
{
    match found {
        Ok(metadata) => put_metadata(line, marks, metadata.as_slice()),
        Err(fault) => put_fault(line, marks, *fault),
    }
}

/// Writes a reply of a `serve` session, other than the status of all resources, which is no bounded line.
pub fn put_serve_reply(
    line: &mut LineTokens,
    marks: Marks,
    service: Service,
    reply: &LineReply,
) -> Result<(), Refused>
    requires bounded { (statuses : AllStatuses) → reply.now ≢ answer.Status statuses }
    ensures ok { OnOk result (line.new ≡ line.old ++ marked_tokens marks.entry (serve_data service.entry reply.now)) }
{
    match reply {
        LineReply::Request(reply) => put_served_request(line, marks, reply),
        LineReply::Meta(found) => put_served_meta(line, marks, found),
        LineReply::Version => put_version(line, marks, service),
        LineReply::Ready(counts) => put_ready(line, marks, service, counts),
        _ => put_run_reply(line, marks, reply),
    }
}
