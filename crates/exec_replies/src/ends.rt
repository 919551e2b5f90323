//! How turns, drains, watches and tidies end, and why there are no metadata, as words and as JSON.
ghost use Rattle.std.specs.Prelude.{◌≡◌, ◌++◌, OnOk};
ghost use Rattle.exec_replies.specs.Replies.{turn_word, drain_word, tidy_word, start_word, end_data, fault_data};
ghost use Rattle.exec_replies.specs.Tags.{marked_tokens};

use crate::line_tokens::LineTokens;
use crate::marks::Marks;
use growth::Refused;
use ocf_model::{TidyEnd, TurnEnd};
use ocf_types::{MetaFault, StartFault};

/// How a drain or a watch ended.
#[derive(Clone, Copy)]
pub enum DrainEnd {
    /// Nothing is queued or running any more.
    Idle,
    /// Its limit has passed.
    Limit,
    /// It has made the most turns that a drain may make.
    Turns,
    /// A turn did not end as done, and ended the drain.
    Turn(TurnEnd),
}

/// The word for the end of a turn.
pub fn turn_word(end: TurnEnd) -> &'static str
    ensures { result.now ≡ turn_word end }
{
    match end {
        TurnEnd::Done => "done",
        TurnEnd::Closed => "closed",
        TurnEnd::BookFull => "book-full",
        TurnEnd::RunsSpent => "runs-spent",
        TurnEnd::Full => "full",
        TurnEnd::Memory => "memory",
        TurnEnd::Disk => "disk",
    }
}

/// The word for the end of a drain or a watch.
pub fn drain_word(end: DrainEnd) -> &'static str
    ensures { result.now ≡ drain_word end }
{
    match end {
        DrainEnd::Idle => "idle",
        DrainEnd::Limit => "limit",
        DrainEnd::Turns => "turns",
        DrainEnd::Turn(end) => turn_word(end),
    }
}

/// The word for the end of a tidy.
pub fn tidy_word(end: TidyEnd) -> &'static str
    ensures { result.now ≡ tidy_word end }
{
    match end {
        TidyEnd::Done => "done",
        TidyEnd::Closed => "closed",
        TidyEnd::EpochSpent => "epoch-spent",
        TidyEnd::Disk => "disk",
    }
}

fn start_word(fault: StartFault) -> &'static str
    ensures { result.now ≡ start_word fault }
{
    match fault {
        StartFault::Missing => "missing",
        StartFault::Denied => "denied",
        StartFault::Other => "other",
    }
}

/// Writes an end with this word.
#[tactic(auto, using(crate::proofs::WholeLemmas::end_whole), unfolding(crate::specs::Tokens::text_member, crate::specs::Tokens::number_member, crate::specs::Tokens::flag_member))]
pub fn put_end(line: &mut LineTokens, marks: Marks, word: &str) -> Result<(), Refused>
    ensures ok { OnOk result (line.new ≡ line.old ++ marked_tokens marks.entry (end_data word.now)) }
{
    line.begin_object()?;
    line.text("end", word)?;
    marks.put_kind(line)?;
    marks.put_tag(line)?;
    line.end_object()
}

#[tactic(auto, using(crate::proofs::WholeLemmas::failed_whole), unfolding(crate::specs::Tokens::text_member, crate::specs::Tokens::number_member, crate::specs::Tokens::flag_member))]
fn put_failed(line: &mut LineTokens, marks: Marks, code: u8) -> Result<(), Refused>
    ensures ok { OnOk result
        (line.new ≡ line.old ++ marked_tokens marks.entry (fault_data (MetaFault.Failed code))) }
{
    line.begin_object()?;
    line.number("code", u64::from(code))?;
    line.text("end", "failed")?;
    marks.put_kind(line)?;
    marks.put_tag(line)?;
    line.end_object()
}

/// Writes why there are no metadata.
pub fn put_fault(line: &mut LineTokens, marks: Marks, fault: MetaFault) -> Result<(), Refused>
    ensures ok { OnOk result (line.new ≡ line.old ++ marked_tokens marks.entry (fault_data fault)) }
{
    match fault {
        MetaFault::NotStarted(fault) => put_end(line, marks, start_word(fault)),
        MetaFault::Read => put_end(line, marks, "read"),
        MetaFault::Failed(code) => put_failed(line, marks, code),
        MetaFault::TooLong => put_end(line, marks, "too-long"),
        MetaFault::Limit => put_end(line, marks, "limit"),
        MetaFault::Memory => put_end(line, marks, "memory"),
    }
}
