//! Writes the lines of replies and notices into a buffer.
ghost use Rattle.std.specs.Prelude.{◌≡◌, ◌≢◌, ◌++◌, None, OnOk};
ghost use Rattle.exec_replies.specs.Replies.{following, notice_line, reply_line, reply_tokens, status_line};
ghost use Rattle.exec_replies.specs.Service.{lent};
ghost use Rattle.exec_replies.specs.Tags.{written_reason, written_tag};
ghost use Rattle.exec_replies.specs.declared.notice.NoticeForm.TheVariants.{Short, Timed};
ghost use Rattle.exec_replies.specs.declared.reply.LineReply.TheVariants as answer;
ghost use Rattle.exec_replies.specs.declared.statuses.Statuses.{Statuses as AllStatuses};

use crate::kind::LineKind;
use crate::line_buffer::LineBuffer;
use crate::line_tokens::LineTokens;
use crate::marks::{Marks, marks_of};
use crate::notice::{NoticeForm, Origin, put_notice};
use crate::reply::{
    LineReply, kind_of, put_request, put_run_reply, put_serve_reply, put_served_request,
};
use crate::service::Service;
use crate::statuses::{Statuses, status_line};
use crate::tagged::Tagged;
use growth::{Refused, append, push};
use ocf_model::Reply;
use ocf_types::Notice;

// Adds what follows the line of a reply of a `run` session: metadata, and a newline.
fn push_after(bytes: &mut Vec<u8>, reply: &LineReply) -> Result<(), Refused>
    ensures value { OnOk result (bytes.new.items ≡ bytes.old.items ++ following Short reply.now) }
{
    if let LineReply::Meta(Ok(metadata)) = reply {
        append(bytes, metadata.as_slice())?;
        push(bytes, b'\n')?;
    }
    Ok(())
}

#[tactic(auto, using(crate::proofs::WriteLemmas::line_text))]
fn write_run_reply(buffer: &mut LineBuffer, reply: &LineReply) -> Result<(), Refused>
    ensures line { OnOk result (buffer.new.line.items ≡ reply_line Short None reply.now) }
{
    let plain = Marks {
        kind: None,
        tag: None,
    };
    let mut tokens = LineTokens::within(buffer)?;
    put_run_reply(&mut tokens, plain, reply)?;
    *buffer = tokens.into_line()?;
    push_after(&mut buffer.line, reply)
}

#[tactic(auto, using(crate::proofs::WriteLemmas::line_text))]
fn write_serve_reply(
    buffer: &mut LineBuffer,
    service: Service,
    tag: Option<&str>,
    reply: &LineReply,
) -> Result<(), Refused>
    requires bounded { (statuses : AllStatuses) → reply.now ≢ answer.Status statuses }
    ensures line { OnOk result (buffer.new.line.items ≡ reply_line (Timed service.entry) (lent tag.entry) reply.now) }
{
    let marks = Marks {
        kind: Some(kind_of(reply)),
        tag,
    };
    let mut tokens = LineTokens::within(buffer)?;
    put_serve_reply(&mut tokens, marks, service, reply)?;
    *buffer = tokens.into_line()?;
    Ok(())
}

fn write_status(
    buffer: &mut LineBuffer,
    tag: Option<&str>,
    statuses: &Statuses,
) -> Result<(), Refused>
    ensures line { OnOk result (buffer.new.line.items ≡ status_line (lent tag.entry) statuses.now) }
{
    let marks = Marks {
        kind: Some(LineKind::Reply),
        tag,
    };
    let alloc = *buffer.line.allocator();
    buffer.line = status_line(alloc, marks, statuses)?;
    Ok(())
}

/// Writes the line of a reply, with what follows it, into a buffer. In a `serve` session a refusal also has the key that it is about and a
/// message, metadata are a text in the line, the line has a kind, and the tag of the answered line is repeated.
///
/// The line is the compact text of its JSON value, keys ascending by their bytes, and a newline: RFC 8259. After an error the buffer holds
/// no line.
pub fn write_reply(
    buffer: &mut LineBuffer,
    tagged: Tagged,
    reply: &LineReply,
) -> Result<(), Refused>
    ensures line { OnOk result (buffer.new.line.items ≡ reply_line tagged.entry.form (written_tag tagged.entry) reply.now) }
{
    match (tagged.form, reply) {
        (NoticeForm::Short, _) => write_run_reply(buffer, reply),
        (NoticeForm::Timed(_), LineReply::Status(statuses)) => {
            write_status(buffer, tagged.tag, statuses)
        }
        (NoticeForm::Timed(service), _) => write_serve_reply(buffer, service, tagged.tag, reply),
    }
}

// Writes the reply to a request, in its form and with its tag.
fn put_answer(line: &mut LineTokens, tagged: Tagged, reply: &Reply) -> Result<(), Refused>
    ensures ok { OnOk result (line.new ≡ line.old ++ reply_tokens tagged.entry (answer.Request reply.now)) }
{
    let marks = marks_of(tagged, LineKind::Reply);
    match tagged.form {
        NoticeForm::Short => put_request(line, marks, reply),
        NoticeForm::Timed(_) => put_served_request(line, marks, reply),
    }
}

/// Writes the line of a reply to a request into a buffer.
#[tactic(auto, using(crate::proofs::WriteLemmas::line_text))]
pub fn write_answer(buffer: &mut LineBuffer, tagged: Tagged, reply: &Reply) -> Result<(), Refused>
    ensures line { OnOk result
        (buffer.new.line.items ≡ reply_line tagged.entry.form (written_tag tagged.entry) (answer.Request reply.now)) }
{
    let mut tokens = LineTokens::within(buffer)?;
    put_answer(&mut tokens, tagged, reply)?;
    *buffer = tokens.into_line()?;
    Ok(())
}

/// Writes the line of a notice into a buffer. In a `serve` session the line has a kind, the tag of its call, and the reason of its agent.
#[tactic(auto, using(crate::proofs::WriteLemmas::line_text))]
pub fn write_notice(
    buffer: &mut LineBuffer,
    tagged: Tagged,
    notice: &Notice,
    origin: Origin,
) -> Result<(), Refused>
    ensures line { OnOk result (buffer.new.line.items
        ≡ notice_line tagged.entry.form (written_reason tagged.entry) (written_tag tagged.entry) origin notice.now) }
{
    let mut tokens = LineTokens::within(buffer)?;
    put_notice(&mut tokens, tagged, notice, origin)?;
    *buffer = tokens.into_line()?;
    Ok(())
}
