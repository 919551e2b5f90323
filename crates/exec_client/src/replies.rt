//! Replies to lines, each with the tag of the line that it answers.
ghost use Rattle.std.specs.Prelude.{◌≡◌, IfErr, IsTrue, None, OnErr, OnOk, map};
ghost use Rattle.std.specs.Io.KnownBytes.{Appends};
ghost use Rattle.exec_replies.specs.Service.{lent};
ghost use Rattle.exec_replies.specs.Tags.{written_tag};
ghost use Rattle.exec_lines.specs.Prefixes.{AppendsPrefix};
ghost use Rattle.exec_lines.specs.declared.io_fault.IoFault.TheVariants.{InputOrOutput, Memory};
ghost use Rattle.exec_client.specs.SentItem.{Answered, answered, line_of, lines_of};
ghost use Rattle.exec_client.specs.Tags.{after_line_reply, after_reply, first_tag, next_line};
ghost use Rattle.exec_client.specs.MessageTags.{after_replies};

use crate::tags::Tags;
use exec_lines::{IoFault, Output};
use exec_replies::{JsonLines, LineReply, NoticeForm, Tagged};
use growth::Grows;
use ocf_model::Reply;
use resource_status::RunReason;
use std::alloc::Global;

/// In which form and with which reasons lines are made.
#[derive(Clone, Copy)]
pub(crate) struct Making<'a> {
    pub(crate) form: NoticeForm<'a>,
    pub(crate) reasons: &'a [RunReason],
}

// How a reply with this tag is written: no reason belongs to it.
fn tagged_reply<'a>(form: NoticeForm<'a>, tag: Option<&'a str>) -> Tagged<'a>
    ensures form { result.form ≡ form.entry }
    ensures tag { written_tag result ≡ lent tag.entry }
{
    Tagged {
        form,
        tag,
        reason: None,
    }
}

/// Writes the reply to the oldest line that waits, without a flush. On error a prefix of the line was written.
pub(crate) fn answer_line<W: Output>(
    making: &Making,
    lines: &mut JsonLines<W>,
    tags: &mut Tags,
    reply: &LineReply,
) -> Result<(), IoFault>
    ensures sent { OnOk result
        (Appends (W.contents lines.old.writer) (W.contents lines.new.writer)
        (line_of making.now.form making.now.reasons.now (first_tag tags.old.lines) (Answered reply.now))) }
    ensures prefix { OnErr result
        (AppendsPrefix (W.contents lines.old.writer) (W.contents lines.new.writer)
        (line_of making.now.form making.now.reasons.now (first_tag tags.old.lines) (Answered reply.now))) }
    ensures kept { OnOk result (tags.new ≡ after_line_reply reply.now (next_line tags.old)) }
    ensures output { IfErr result (λ f. f ≡ InputOrOutput → IsTrue (W.broke lines.new.writer)) }
    ensures memory { IfErr result (λ f. f ≡ Memory → IsTrue ⟦<Global as Grows>⟧.refuses) }
{
    tags.next();
    let tagged = tagged_reply(making.form, tags.given());
    lines.put_reply(tagged, reply)?;
    tags.keep_by_line(reply);
    Ok(())
}

// Writes the reply to the oldest line that waits, which is a request.
fn answer_request<W: Output>(
    making: &Making,
    lines: &mut JsonLines<W>,
    tags: &mut Tags,
    reply: &Reply,
) -> Result<(), IoFault>
    ensures sent { OnOk result
        (Appends (W.contents lines.old.writer) (W.contents lines.new.writer)
        (line_of making.now.form making.now.reasons.now (first_tag tags.old.lines) (answered reply.now))) }
    ensures prefix { OnErr result
        (AppendsPrefix (W.contents lines.old.writer) (W.contents lines.new.writer)
        (line_of making.now.form making.now.reasons.now (first_tag tags.old.lines) (answered reply.now))) }
    ensures kept { OnOk result (tags.new ≡ after_reply reply.now (next_line tags.old)) }
    ensures output { IfErr result (λ f. f ≡ InputOrOutput → IsTrue (W.broke lines.new.writer)) }
    ensures memory { IfErr result (λ f. f ≡ Memory → IsTrue ⟦<Global as Grows>⟧.refuses) }
{
    tags.next();
    let tagged = tagged_reply(making.form, tags.given());
    lines.put_answer(tagged, reply)?;
    tags.keep_by(reply);
    Ok(())
}

/// Writes the replies to the oldest lines that wait, which are requests, without a flush. On error a prefix of the lines was written.
pub(crate) fn answer_requests<W: Output>(
    making: &Making,
    lines: &mut JsonLines<W>,
    tags: &mut Tags,
    replies: &[Reply],
) -> Result<(), IoFault>
    ensures sent { OnOk result
        (Appends (W.contents lines.old.writer) (W.contents lines.new.writer)
        (lines_of making.now.form making.now.reasons.now tags.old.lines (map answered replies.now))) }
    ensures prefix { OnErr result
        (AppendsPrefix (W.contents lines.old.writer) (W.contents lines.new.writer)
        (lines_of making.now.form making.now.reasons.now tags.old.lines (map answered replies.now))) }
    ensures kept { OnOk result (tags.new ≡ after_replies replies.now tags.old) }
    ensures output { IfErr result (λ f. f ≡ InputOrOutput → IsTrue (W.broke lines.new.writer)) }
    ensures memory { IfErr result (λ f. f ≡ Memory → IsTrue ⟦<Global as Grows>⟧.refuses) }
{
    for reply in replies {
        answer_request(making, lines, tags, reply)?;
    }
    Ok(())
}

/// Writes the line of news, which answers no line, without a flush. On error a prefix of the line was written.
pub(crate) fn put_news<W: Output>(
    making: &Making,
    lines: &mut JsonLines<W>,
    news: &LineReply,
) -> Result<(), IoFault>
    ensures sent { OnOk result
        (Appends (W.contents lines.old.writer) (W.contents lines.new.writer)
        (line_of making.now.form making.now.reasons.now None (Answered news.now))) }
    ensures prefix { OnErr result
        (AppendsPrefix (W.contents lines.old.writer) (W.contents lines.new.writer)
        (line_of making.now.form making.now.reasons.now None (Answered news.now))) }
    ensures output { IfErr result (λ f. f ≡ InputOrOutput → IsTrue (W.broke lines.new.writer)) }
    ensures memory { IfErr result (λ f. f ≡ Memory → IsTrue ⟦<Global as Grows>⟧.refuses) }
{
    let tagged = tagged_reply(making.form, None);
    lines.put_reply(tagged, news)
}
