//! Messages that a session sends.
ghost use Rattle.std.specs.Prelude.{◌≡◌, [], IfOk, OnOk, true};
ghost use Rattle.exec_client.specs.MessageView.{Reply as ReplyTo, message_view};
ghost use Rattle.session_machine.specs.After.{reading};
ghost use Rattle.session_machine.specs.May.{IsDue};
ghost use Rattle.session_machine.specs.Session.{counts_of, ended_by, lines_in};
ghost use Rattle.exec_session.specs.Standing.{Flows, Sends, Steps};
ghost use Rattle.exec_session.specs.declared.flow.Flow.TheVariants.{GoesOn};
ghost use Rattle.exec_session.specs.Steps.{HasBegun, IsOpening, IsReportOf};

use crate::flow::Flow;
use crate::session::Session;
use exec_client::Message;
use exec_replies::{Counts, LineReply};
use executor::Report;
use ocf_model::{StateView, TurnEnd};
use session_machine::{Edge, Failed, Mode};

impl<E: Edge + Drop> Session<E> {
    /// Sends the message that is next.
    pub fn send(&mut self, what: &Message) -> Result<(), Failed>
        requires due { IsDue self.old.trace.state self.old.trace.state.at (message_view what.now) }
        ensures steps { Steps self.old self.new result }
        ensures sent { OnOk result (Sends self.old.trace self.new.trace (message_view what.now)) }
    {
        self.edge.send(&self.executor, what)
    }

    /// Sends the reply to the only line that is not answered.
    pub fn reply(&mut self, reply: &LineReply) -> Result<(), Failed>
        requires due { IsDue self.old.trace.state self.old.trace.state.at (ReplyTo reply.now) }
        ensures steps { Steps self.old self.new result }
        ensures sent { OnOk result (Sends self.old.trace self.new.trace (ReplyTo reply.now)) }
    {
        self.send(&Message::Reply(reply))
    }

    /// Sends the line that says how a turn ended.
    pub fn send_end(&mut self, end: TurnEnd) -> Result<(), Failed>
        requires due { IsDue self.old.trace.state self.old.trace.state.at (ended_by end) }
        ensures steps { Steps self.old self.new result }
        ensures sent { OnOk result (Sends self.old.trace self.new.trace (ended_by end)) }
    {
        self.send(&Message::News(&LineReply::Trouble(end)))
    }

    /// How the session goes on, given whether the input has ended. In `serve` a disk fault that closed the executor ends it, with the line of that
    /// fault.
    pub fn flow(&mut self, has_ended: bool) -> Result<Flow, Failed>
        requires at { self.old.trace.state.at ≡ reading self.old.trace.state }
        requires ended { self.old.trace.state.ended ≡ has_ended }
        requires none { has_ended ≡ true → lines_in self.old.trace.state ≡ [] }
        ensures steps { Steps self.old self.new result }
        ensures flows { IfOk result (λ flow. Flows flow self.new.trace.state) }
        ensures same { IfOk result (λ flow. flow ≡ GoesOn → self.new.trace ≡ self.old.trace) }
    {
        if self.edge.rules().mode == Mode::Serve && !self.executor.is_open() {
            self.send_end(TurnEnd::Disk)?;
            return Ok(Flow::Over);
        }
        Ok(if has_ended { Flow::Over } else { Flow::GoesOn })
    }

    // The number of resources that are registered, and of lines of the report, and the next call.
    fn counts(&self, report: &Report) -> Counts
        requires opening_report { IsReportOf self.now.trace.state.executor report.now }
        ensures { result ≡ counts_of self.now.trace.state.executor }
    {
        Counts {
            resources: self.executor.state().len(),
            interrupted: report.interrupted.len(),
            dropped: report.dropped.len(),
            next_call: self.executor.state().next_call().get(),
        }
    }

    /// Sends the report of the opening: the interrupted actions, and then the dropped ones; and in `serve` that the session is ready.
    pub fn send_report(&mut self, report: &Report) -> Result<(), Failed>
        requires begun { IsOpening self.old.trace }
        requires opening_report { IsReportOf self.old.trace.state.executor report.now }
        ensures steps { Steps self.old self.new result }
        ensures begun { OnOk result (HasBegun self.old.trace self.new.trace) }
    {
        self.send(&Message::Report(report.interrupted.as_slice()))?;
        self.send(&Message::Report(report.dropped.as_slice()))?;
        match self.edge.rules().mode {
            Mode::Run => Ok(()),
            Mode::Serve => {
                let ready = LineReply::Ready(self.counts(report));
                self.send(&Message::News(&ready))
            }
        }
    }
}
