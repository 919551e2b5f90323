//! A client that writes messages as lines.
ghost use Rattle.std.specs.Prelude.{◌≡◌, [], IfErr, IsTrue, OnErr, OnOk};
ghost use Rattle.std.specs.Io.KnownBytes.{Appends};
ghost use Rattle.exec_lines.specs.Prefixes.{AppendsPrefix};
ghost use Rattle.exec_lines.specs.declared.io_fault.IoFault.TheVariants.{InputOrOutput, Memory};
ghost use Rattle.exec_client.specs.ClientView.{ClientView};
ghost use Rattle.exec_client.specs.MessageView.{message_view};
ghost use Rattle.exec_client.specs.SentItem.{lines_of, sent_in};
ghost use Rattle.exec_client.specs.MessageTags.{after_sent, sent_tags};
ghost use Rattle.exec_client.specs.Tags.{no_tags};

use crate::client::Client;
use crate::client_event::ClientEvent;
use crate::message::Message;
use crate::notices::put_turn;
use crate::reasons::{Asking, Reasons};
use crate::replies::{Making, answer_line, answer_requests, put_news};
use crate::sent_log::SentLog;
use crate::tags::Tags;
use child_model::Children;
use exec_commands::Tag;
use exec_lines::{IoFault, Output};
use exec_replies::{JsonLines, NoticeForm};
use executor::On;
use growth::{Grows, Refused};
use past::{Past, Seen};
use resource_status::RunReason;
use std::alloc::Global;
use store_model::Store;

/// A client of an executor of this type, which writes messages as lines. It owns the writer, and what knows the reasons of failures.
#[derive(Drop)]
pub struct JsonClient<E, W, R> {
    alloc: Global,
    pub(crate) lines: JsonLines<W>,
    reasons: R,
    pub(crate) opened: Seen<E>,
    pub(crate) sent_log: SentLog,
    pub(crate) tags: Tags,
    pub(crate) asked: Past<ClientEvent>,
}

// Writes the lines of a message, without a flush. On error a prefix of the lines was written.
fn put_message<W: Output>(
    making: &Making,
    lines: &mut JsonLines<W>,
    tags: &mut Tags,
    what: &Message,
) -> Result<(), IoFault>
    ensures sent { OnOk result
        (Appends (W.contents lines.old.writer) (W.contents lines.new.writer)
        (lines_of making.now.form making.now.reasons.now (sent_tags tags.old (message_view what.now)) (sent_in (message_view what.now)))) }
    ensures prefix { OnErr result
        (AppendsPrefix (W.contents lines.old.writer) (W.contents lines.new.writer)
        (lines_of making.now.form making.now.reasons.now (sent_tags tags.old (message_view what.now)) (sent_in (message_view what.now)))) }
    ensures kept { OnOk result (tags.new ≡ after_sent (message_view what.now) tags.old) }
    ensures output { IfErr result (λ f. f ≡ InputOrOutput → IsTrue (W.broke lines.new.writer)) }
    ensures memory { IfErr result (λ f. f ≡ Memory → IsTrue ⟦<Global as Grows>⟧.refuses) }
{
    match what {
        Message::Reply(reply) => answer_line(making, lines, tags, reply),
        Message::Replies(replies) => answer_requests(making, lines, tags, replies),
        Message::Notices(turn) => put_turn(making, lines, tags, turn),
        Message::News(reply) => put_news(making, lines, reply),
        Message::Report(notices) => lines.put_report(making.form, notices),
    }
}

// Writes the lines of a message and flushes them together. On error a prefix of the lines was written.
fn write_message<W: Output>(
    making: &Making,
    lines: &mut JsonLines<W>,
    tags: &mut Tags,
    what: &Message,
) -> Result<(), IoFault>
    ensures sent { OnOk result
        (Appends (W.contents lines.old.writer) (W.contents lines.new.writer)
        (lines_of making.now.form making.now.reasons.now (sent_tags tags.old (message_view what.now)) (sent_in (message_view what.now)))) }
    ensures prefix { OnErr result
        (AppendsPrefix (W.contents lines.old.writer) (W.contents lines.new.writer)
        (lines_of making.now.form making.now.reasons.now (sent_tags tags.old (message_view what.now)) (sent_in (message_view what.now)))) }
    ensures kept { OnOk result (tags.new ≡ after_sent (message_view what.now) tags.old) }
    ensures flushed { OnOk result (IsTrue (W.flushed lines.new.writer)) }
    ensures output { IfErr result (λ f. f ≡ InputOrOutput → IsTrue (W.broke lines.new.writer)) }
    ensures memory { IfErr result (λ f. f ≡ Memory → IsTrue ⟦<Global as Grows>⟧.refuses) }
{
    put_message(making, lines, tags, what)?;
    lines.writer.flush_out()?;
    Ok(())
}

impl<E, W: Output, R: Reasons> JsonClient<E, W, R> {
    /// A client of an executor that was just opened. It was sent nothing yet.
    pub fn new(alloc: Global, writer: W, reasons: R, executor: &E) -> JsonClient<E, W, R>
        ensures opened { result.opened.value ≡ executor.now }
        ensures reported { result.sent_log.items ≡ [] }
        ensures writer { result.lines.writer ≡ writer }
        ensures tags { result.tags ≡ no_tags }
        ensures asked { result.asked.items ≡ [] }
    {
        JsonClient {
            alloc,
            lines: JsonLines::new(alloc, writer),
            reasons,
            opened: Seen::of(executor),
            sent_log: SentLog::new(),
            tags: Tags::new(alloc),
            asked: Past::new(),
        }
    }

    /// The writer.
    pub fn writer(&self) -> &W
        ensures { result.now ≡ self.now.lines.writer }
    {
        &self.lines.writer
    }
}

impl<S: Store + Drop, C: Children + Drop, W: Output, R: Reasons> Client<S, C>
    for JsonClient<On<S, C>, W, R> {
    ghost client_view = { λ t. record {
      opened = t.opened.value;
      reported = t.sent_log.items;
      written = W.contents t.lines.writer;
      tags = t.tags;
      flushed = W.flushed t.lines.writer;
      broke = W.broke t.lines.writer;
      asked = t.asked.items;
    } };

    fn send(
        &mut self,
        executor: &On<S, C>,
        form: NoticeForm,
        what: &Message,
    ) -> Result<(), IoFault> {
        self.sent_log.note(what);
        let reasons = Asking::new(self.alloc, &self.reasons, executor.state()).of_message(what);
        let making = Making {
            form,
            reasons: reasons.as_slice(),
        };
        let sent = write_message(&making, &mut self.lines, &mut self.tags, what);
        self.asked.note(&ClientEvent::Sent(sent.is_ok()));
        sent
    }

    fn note_tag(&mut self, tag: Option<Tag>) -> Result<(), Refused> {
        self.tags.note(tag)
    }

    fn failure_reasons(&self, executor: &On<S, C>) -> Vec<RunReason> {
        Asking::new(self.alloc, &self.reasons, executor.state()).of_resources()
    }

    fn has_reader(&mut self) -> bool {
        let has_reader = self.lines.writer.has_reader();
        self.asked.note(&ClientEvent::HasReader(has_reader));
        has_reader
    }
}
