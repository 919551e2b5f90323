//! Replies of `serve` sessions alone: the version, the ready line, and metadata as a text.
ghost use Rattle.std.specs.Prelude.{◌≡◌, ◌++◌, codes, OnOk};
ghost use Rattle.exec_replies.specs.Places.{counts_tokens, place_tokens};
ghost use Rattle.exec_replies.specs.Service.{identity_in, lent, metadata_data, ready_data, text_data, version_data};
ghost use Rattle.exec_replies.specs.Tags.{marked_tokens};
ghost use Rattle.exec_replies.specs.Tokens.{text_member};

use crate::ends::put_end;
use crate::journal_id::JournalId;
use crate::line_tokens::LineTokens;
use crate::marks::Marks;
use growth::Refused;
use ocf_types::Orphan;
use std::str;

/// What a `serve` session reports of itself, and the processes that earlier incarnations left.
#[derive(Clone, Copy)]
pub struct Service<'a> {
    /// The version of the program.
    pub version: &'a str,
    /// The directory of the journal, as it was given; `None` for a journal in memory.
    pub journal: Option<&'a str>,
    /// The identity of the journal; `None` for a journal in memory.
    pub identity: Option<&'a JournalId>,
    /// Processes of interrupted runs that are still alive.
    pub left: &'a [Orphan],
}

/// What a `serve` session counted when it opened its journal.
#[derive(Clone, Copy)]
pub struct Counts {
    /// The registered resources.
    pub resources: usize,
    /// The results of actions that the end of the previous incarnation interrupted.
    pub interrupted: usize,
    /// The results of actions that were queued at that end, and are dropped.
    pub dropped: usize,
    /// The call id that the next accepted action or monitor gets.
    pub next_call: u64,
}

/// Writes the version of the program.
#[tactic(auto, using(crate::proofs::WholeLemmas::version_whole), unfolding(crate::specs::Tokens::text_member, crate::specs::Tokens::number_member, crate::specs::Tokens::flag_member))]
pub fn put_version(line: &mut LineTokens, marks: Marks, service: Service) -> Result<(), Refused>
    ensures ok { OnOk result (line.new ≡ line.old ++ marked_tokens marks.entry (version_data service.entry)) }
{
    line.begin_object()?;
    marks.put_kind(line)?;
    line.flag("ok", true)?;
    marks.put_tag(line)?;
    line.text("version", service.version)?;
    line.end_object()
}

// The digits of the journal's identity, if it has one.
fn identity_in<'a>(service: Service<'a>) -> Option<&'a str>
    ensures { lent result ≡ identity_in service.entry }
{
    match service.identity {
        Some(id) => Some(id.hex()),
        None => None,
    }
}

// What was interrupted and dropped, and the journal of a session.
fn put_place(line: &mut LineTokens, service: Service, counts: &Counts) -> Result<(), Refused>
    ensures ok { OnOk result (line.new ≡ line.old ++ place_tokens service.entry counts.now) }
{
    line.begin_object()?;
    line.number("dropped", counts.dropped as u64)?;
    line.text_or_null("identity", identity_in(service))?;
    line.number("interrupted", counts.interrupted as u64)?;
    line.text_or_null("journal", service.journal)
}

// From where the session goes on.
fn put_counts(line: &mut LineTokens, counts: &Counts) -> Result<(), Refused>
    ensures ok { OnOk result (line.new ≡ line.old ++ counts_tokens counts.now) }
{
    line.number("next_call", counts.next_call)?;
    line.flag("ready", true)?;
    line.number("resources", counts.resources as u64)
}

/// Writes the ready line: the session has opened its journal, and reads lines from now on.
pub fn put_ready(
    line: &mut LineTokens,
    marks: Marks,
    service: Service,
    counts: &Counts,
) -> Result<(), Refused>
    ensures ok { OnOk result (line.new ≡ line.old ++ marked_tokens marks.entry (ready_data service.entry counts.now)) }
{
    put_place(line, service, counts)?;
    marks.put_kind(line)?;
    put_counts(line, counts)?;
    marks.put_tag(line)?;
    line.text("version", service.version)?;
    line.end_object()
}

#[tactic(auto, using(crate::proofs::WholeLemmas::text_whole), unfolding(crate::specs::Tokens::text_member, crate::specs::Tokens::number_member, crate::specs::Tokens::flag_member))]
fn put_text(line: &mut LineTokens, marks: Marks, metadata: &str) -> Result<(), Refused>
    ensures ok { OnOk result (line.new ≡ line.old ++ marked_tokens marks.entry (text_data metadata.now)) }
{
    line.begin_object()?;
    marks.put_kind(line)?;
    line.text("metadata", metadata)?;
    line.flag("ok", true)?;
    marks.put_tag(line)?;
    line.end_object()
}

/// Writes the metadata of an agent as a JSON string, or the end `no-text` if they are not UTF-8.
#[tactic(auto, using(crate::proofs::TextLemmas::metadata_text, crate::proofs::TextLemmas::metadata_no_text))]
pub fn put_metadata(line: &mut LineTokens, marks: Marks, metadata: &[u8]) -> Result<(), Refused>
    ensures ok { OnOk result (line.new ≡ line.old ++ marked_tokens marks.entry (metadata_data metadata.now)) }
{
    match str::from_utf8(metadata) {
        Ok(text) => put_text(line, marks, text),
        Err(_) => put_end(line, marks, "no-text"),
    }
}
