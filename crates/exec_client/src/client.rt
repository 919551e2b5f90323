//! A client, to which messages about an executor are sent.
ghost use Rattle.std.specs.Prelude.{◌≡◌, if◌then◌else◌, is_ok, IfErr, IsTrue, None, OnErr, OnOk};
ghost use Rattle.exec_client.specs.ClientView.{ClientView, Receives, ReceivesPart, noting, noting_tag};
ghost use Rattle.exec_client.specs.MaySend.{MaySend};
ghost use Rattle.exec_client.specs.MessageView.{message_view};
ghost use Rattle.exec_client.specs.declared.client_event.ClientEvent.TheVariants.{HasReader};
ghost use Rattle.exec_lines.specs.declared.io_fault.IoFault.TheVariants.{InputOrOutput, Memory};

use crate::message::Message;
use child_model::Children;
use exec_commands::Tag;
use exec_lines::IoFault;
use exec_replies::NoticeForm;
use executor::On;
use growth::{Grows, Refused};
use resource_status::RunReason;
use std::alloc::Global;
use store_model::Store;

/// A client of an executor: whatever the executor did since it was opened is sent by this trait alone.
pub trait Client<S: Store + Drop, C: Children + Drop> {
    /// The executor as it was opened, the messages that were sent since, the bytes that are written of them, the tags of the lines that wait,
    /// and what the client was asked.
    ghost client_view: { Self → ClientView S };

    /// Sends a message, once what it reports is recorded, and flushes it; notices have this form. On error a prefix of its lines was sent, and
    /// maybe a prefix of the next line.
    fn send(&mut self, executor: &On<S, C>, form: NoticeForm, what: &Message) -> Result<(), IoFault>
        requires may_send { MaySend S.view (client_view self.old) executor.now (message_view what.now) }
        ensures receives { OnOk result
            (Receives form.entry (client_view self.old) (client_view self.new) (message_view what.now)) }
        ensures breaks { OnErr result
            (ReceivesPart form.entry (client_view self.old) (client_view self.new) (message_view what.now)) }
        ensures output { IfErr result (λ f. f ≡ InputOrOutput → IsTrue (client_view self.new).broke) }
        ensures memory { IfErr result (λ f. f ≡ Memory → IsTrue ⟦<Global as Grows>⟧.refuses) };

    /// Notes a line that was read, with its tag if it has one. Its reply repeats the tag, and so does each notice of the call that the line
    /// is given. Replies answer the lines in the order in which these were noted; a reply beyond the noted lines answers none. If memory is
    /// refused, the line counts as one without a tag.
    fn note_tag(&mut self, tag: Option<Tag>) -> Result<(), Refused>
        ensures noted { client_view self.new ≡ noting_tag (client_view self.old) (if is_ok result then tag else None) };

    /// The reasons that agents gave for the last failures of resources, as far as they are known.
    fn failure_reasons(&self, executor: &On<S, C>) -> Vec<RunReason>;

    /// Whether anyone may still read what is sent.
    fn has_reader(&mut self) -> bool
        ensures noted { client_view self.new ≡ noting (client_view self.old) (HasReader result) };
}
