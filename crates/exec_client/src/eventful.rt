//! A client that passes messages to another client, and then writes a line for each result.
ghost use Rattle.std.specs.Prelude.{◌≡◌, ℕ, List, OnOk};
ghost use Rattle.std.specs.Io.KnownBytes.{Appends};
ghost use Rattle.exec_client.specs.MessageView.{message_view};
ghost use Rattle.exec_client.specs.Events.{IsEventLine, WritesEvents, notices_in};

use crate::client::Client;
use crate::event_lines::event_line;
use crate::message::Message;
use child_model::Children;
use exec_commands::Tag;
use exec_lines::{IoFault, write_flushed};
use exec_replies::NoticeForm;
use executor::On;
use growth::Refused;
use ocf_types::Notice;
use resource_status::RunReason;
use std::alloc::Global;
use std::io::Write;
use store_model::Store;

/// Which lines are written for a person.
#[derive(Clone, Copy)]
pub enum Events {
    /// No lines.
    None,
    /// A line for each result.
    Plain,
    /// A line for each result, prefixed with its priority as the system's journal reads it. sd-daemon(3).
    Marked,
}

/// A client that passes each message to another client. If events are asked for, it then writes a line for each result, for a
/// person. A fault in writing these lines has no effect on the session.
#[derive(Drop)]
pub struct Eventful<T, W> {
    alloc: Global,
    client: T,
    errors: W,
    events: Events,
}

impl<T, W: Write> Eventful<T, W> {
    /// A client over another one, with the writer of these lines.
    pub fn new(alloc: Global, client: T, errors: W, events: Events) -> Eventful<T, W>
        ensures client { result.client ≡ client }
    {
        Eventful {
            alloc,
            client,
            errors,
            events,
        }
    }
}

// How lines are made.
#[derive(Clone, Copy)]
struct Making {
    alloc: Global,
    // Whether each line has its mark.
    marks: bool,
}

// Writes the line of a result, and flushes the writer.
fn write_event<W: Write>(making: &Making, errors: &mut W, notice: &Notice) -> Result<(), IoFault>
    ensures written { OnOk result
        ((line : List ℕ) × IsEventLine making.now.marks notice.now line
        × Appends (W.contents errors.old) (W.contents errors.new) line) }
{
    let line = event_line(making.alloc, making.marks, notice)?;
    write_flushed(errors, line.as_slice())?;
    Ok(())
}

// Writes a line for each result.
fn write_events<W: Write>(
    making: &Making,
    errors: &mut W,
    notices: &[Notice],
) -> Result<(), IoFault>
    ensures written { OnOk result
        (WritesEvents making.now.marks notices.now (W.contents errors.old) (W.contents errors.new)) }
{
    for notice in notices {
        write_event(making, errors, notice)?;
    }
    Ok(())
}

// The results in a message.
fn notices_in<'a>(what: &Message<'a>) -> &'a [Notice]
    ensures { result.now ≡ notices_in (message_view what.now) }
{
    match what {
        Message::Reply(_) | Message::Replies(_) | Message::News(_) => &[],
        Message::Notices(turn) => turn.notices,
        Message::Report(notices) => notices,
    }
}

impl<S: Store + Drop, C: Children + Drop, T: Client<S, C>, W: Write> Client<S, C>
    for Eventful<T, W> {
    ghost client_view = { λ e. T.client_view e.client };

    fn send(
        &mut self,
        executor: &On<S, C>,
        form: NoticeForm,
        what: &Message,
    ) -> Result<(), IoFault> {
        let sent = self.client.send(executor, form, what);
        let marks = match self.events {
            Events::None => return sent,
            Events::Plain => false,
            Events::Marked => true,
        };
        let making = Making {
            alloc: self.alloc,
            marks,
        };
        if sent.is_ok() {
            let _ = write_events(&making, &mut self.errors, notices_in(what));
        }
        sent
    }

    fn note_tag(&mut self, tag: Option<Tag>) -> Result<(), Refused> {
        self.client.note_tag(tag)
    }

    fn failure_reasons(&self, executor: &On<S, C>) -> Vec<RunReason> {
        self.client.failure_reasons(executor)
    }

    fn has_reader(&mut self) -> bool {
        self.client.has_reader()
    }
}
