//! Notices: lines that report recorded results.
ghost use Rattle.std.specs.Prelude.{◌≡◌, ◌++◌, None, Some, codes, OnOk};
ghost use Rattle.exec_replies.specs.Notices.{lives_tokens, short_first, short_rest, signal_tokens, timed_first, timed_how, timed_key};
ghost use Rattle.exec_replies.specs.Replies.{lives_of, notice_tokens, short_data, timed_data};
ghost use Rattle.exec_replies.specs.Service.{lent};
ghost use Rattle.exec_replies.specs.Tags.{marked, marked_tokens, written_reason, written_tag};
ghost use Rattle.exec_replies.specs.Tokens.{number_member, text_member, value_tokens};

use crate::kind::LineKind;
use crate::line_tokens::LineTokens;
use crate::marks::Marks;
use crate::names::id_text;
use crate::service::Service;
use crate::tagged::Tagged;
use growth::Refused;
use ocf_codes::{code_of, is_failure, name_of};
use ocf_env::op_key;
use ocf_types::{Ended, Notice, Orphan, RscId};

/// How much a notice contains.
#[derive(Clone, Copy)]
pub enum NoticeForm<'a> {
    /// Which action ended, and how.
    Short,
    /// The form of a `serve` session. It adds the `kind` of the line, when the action began and ended (`since` and `at`, in
    /// milliseconds since 1970), the `key` of its operation, the expected exit code (`expect`), whether the action has `failed`, and
    /// the `reason` that its agent gave. If a process of an interrupted run is still alive, `lives` is the process id of the first
    /// one; if a signal ended the agent, `signal` is its number.
    Timed(Service<'a>),
}

/// Where a notice is from.
#[derive(Clone, Copy)]
pub enum Origin {
    /// From the report of an opening: its action was interrupted or dropped.
    Opening,
    /// From a turn: this signal ended its run, if one did.
    Turn(Option<u8>),
}

// The first of these processes that belongs to the run, if any.
fn lives_of(left: &[Orphan], run: u64) -> Option<u32>
    ensures { result ≡ lives_of left.now run }
{
    let found = left.iter().find(|process| process.run.get() == run)?;
    Some(found.pid)
}

fn put_id(line: &mut LineTokens, id: &RscId) -> Result<(), Refused>
    ensures ok { OnOk result (line.new ≡ line.old ++ text_member (codes "id") id.now) }
{
    line.text("id", id_text(id))
}

// The members of the short form up to the id.
fn put_short_first(line: &mut LineTokens, notice: &Notice) -> Result<(), Refused>
    ensures ok { OnOk result (line.new ≡ line.old ++ short_first notice.now) }
{
    line.begin_object()?;
    line.text("action", notice.result.action.word())?;
    line.number("call", notice.result.call.get())?;
    line.number("code", u64::from(code_of(notice.result.outcome)))?;
    put_id(line, &notice.id)
}

// Its other members.
fn put_short_rest(line: &mut LineTokens, ended: &Ended) -> Result<(), Refused>
    ensures ok { OnOk result (line.new ≡ line.old ++ short_rest ended.now) }
{
    line.number("interval", u64::from(ended.interval))?;
    line.text("name", name_of(ended.outcome))?;
    line.text("outcome", ended.outcome.word())?;
    line.number("run", ended.run)?;
    line.end_object()
}

fn put_short(line: &mut LineTokens, notice: &Notice) -> Result<(), Refused>
    ensures ok { OnOk result (line.new ≡ line.old ++ value_tokens (short_data notice.now)) }
{
    put_short_first(line, notice)?;
    put_short_rest(line, &notice.result)
}

// The members of the other form up to the expected exit code.
fn put_timed_first(line: &mut LineTokens, notice: &Notice) -> Result<(), Refused>
    ensures ok { OnOk result (line.new ≡ line.old ++ timed_first notice.now) }
{
    line.begin_object()?;
    line.text("action", notice.result.action.word())?;
    line.number("at", notice.result.at.get())?;
    line.number("call", notice.result.call.get())?;
    line.number("code", u64::from(code_of(notice.result.outcome)))?;
    line.number("expect", u64::from(notice.expect.code()))
}

// The members up to the key of the operation.
fn put_timed_key(line: &mut LineTokens, notice: &Notice) -> Result<(), Refused>
    ensures ok { OnOk result (line.new ≡ line.old ++ timed_key notice.now) }
{
    let key = op_key(&notice.id, notice.result.action, notice.result.interval);
    line.flag("failed", is_failure(notice))?;
    put_id(line, &notice.id)?;
    line.number("interval", u64::from(notice.result.interval))?;
    line.text("key", key.as_str())
}

fn put_lives(line: &mut LineTokens, lives: Option<u32>) -> Result<(), Refused>
    ensures ok { OnOk result (line.new ≡ line.old ++ lives_tokens lives) }
{
    match lives {
        Some(pid) => line.number("lives", u64::from(pid)),
        None => Ok(()),
    }
}

// The name of the exit code, and how the action ended.
fn put_timed_how(line: &mut LineTokens, ended: &Ended) -> Result<(), Refused>
    ensures ok { OnOk result (line.new ≡ line.old ++ timed_how ended.now) }
{
    line.text("name", name_of(ended.outcome))?;
    line.text("outcome", ended.outcome.word())
}

fn put_run(line: &mut LineTokens, ended: &Ended) -> Result<(), Refused>
    ensures ok { OnOk result (line.new ≡ line.old ++ number_member (codes "run") ended.now.run) }
{
    line.number("run", ended.run)
}

fn put_signal(line: &mut LineTokens, signal: Option<u8>) -> Result<(), Refused>
    ensures ok { OnOk result (line.new ≡ line.old ++ signal_tokens signal) }
{
    match signal {
        Some(signal) => line.number("signal", u64::from(signal)),
        None => Ok(()),
    }
}

fn put_since(line: &mut LineTokens, ended: &Ended) -> Result<(), Refused>
    ensures ok { OnOk result (line.new ≡ line.old ++ number_member (codes "since") ended.now.since) }
{
    line.number("since", ended.since.get())
}

// What only some notices have: a process that is still alive, a reason, a signal.
#[derive(Clone, Copy)]
struct Extras<'a> {
    lives: Option<u32>,
    reason: Option<&'a str>,
    signal: Option<u8>,
}

fn put_timed(
    line: &mut LineTokens,
    marks: Marks,
    extras: Extras,
    notice: &Notice,
) -> Result<(), Refused>
    ensures ok { OnOk result (line.new ≡ line.old
        ++ marked_tokens marks.entry (timed_data extras.entry.lives (lent extras.entry.reason) extras.entry.signal notice.now)) }
{
    put_timed_first(line, notice)?;
    put_timed_key(line, notice)?;
    marks.put_kind(line)?;
    put_lives(line, extras.lives)?;
    put_timed_how(line, &notice.result)?;
    line.text_or_null("reason", extras.reason)?;
    put_run(line, &notice.result)?;
    put_signal(line, extras.signal)?;
    put_since(line, &notice.result)?;
    marks.put_tag(line)?;
    line.end_object()
}

// A notice of an opening's report.
fn put_report(
    line: &mut LineTokens,
    service: Service,
    tag: Option<&str>,
    notice: &Notice,
) -> Result<(), Refused>
    ensures ok { OnOk result (line.new ≡ line.old ++ value_tokens (marked (Some LineKind.Report) (lent tag.entry)
        (timed_data (lives_of service.entry.left.now notice.now.result.run) None None notice.now))) }
{
    let marks = Marks {
        kind: Some(LineKind::Report),
        tag,
    };
    let extras = Extras {
        lives: lives_of(service.left, notice.result.run),
        reason: None,
        signal: None,
    };
    put_timed(line, marks, extras, notice)
}

// A notice of a turn.
fn put_turn(
    line: &mut LineTokens,
    tagged: Tagged,
    notice: &Notice,
    signal: Option<u8>,
) -> Result<(), Refused>
    ensures ok { OnOk result (line.new ≡ line.old ++ value_tokens (marked (Some LineKind.Notice) (written_tag tagged.entry)
        (timed_data None (written_reason tagged.entry) signal notice.now))) }
{
    let marks = Marks {
        kind: Some(LineKind::Notice),
        tag: tagged.tag,
    };
    let extras = Extras {
        lives: None,
        reason: tagged.reason,
        signal,
    };
    put_timed(line, marks, extras, notice)
}

/// Writes a notice in its form, with its kind, its tag and its reason.
pub fn put_notice(
    line: &mut LineTokens,
    tagged: Tagged,
    notice: &Notice,
    origin: Origin,
) -> Result<(), Refused>
    ensures ok { OnOk result (line.new ≡ line.old ++ notice_tokens tagged.entry origin notice.now) }
{
    match (tagged.form, origin) {
        (NoticeForm::Short, _) => put_short(line, notice),
        (NoticeForm::Timed(service), Origin::Opening) => {
            put_report(line, service, tagged.tag, notice)
        }
        (NoticeForm::Timed(_), Origin::Turn(signal)) => put_turn(line, tagged, notice, signal),
    }
}
