//! Replies to lines, one by one or as a group commit.
ghost use Rattle.std.specs.Prelude.{◌≡◌, ◌≢◌, ◌↔◌, [], ◌∷◌, false, length, replicate, true, IfOk, Ok, OnOk};
ghost use Rattle.ocf_model.specs.declared.reply.ReplyOf.TheVariants.{Refused};
ghost use Rattle.session_machine.specs.May.{IsNextReply};
ghost use Rattle.session_machine.specs.Replies.{IsStatusReply, refused, IsClosedReply};
ghost use Rattle.session_machine.specs.Session.{Lines, Reading, lines_in};
ghost use Rattle.exec_session.specs.Gathered.{replied, waiting};
ghost use Rattle.exec_session.specs.Held.{MayAnswerAtOnce, held_lines, IsNoMeta, IsHeldMeta};
ghost use Rattle.exec_session.specs.Standing.{Answers, BeginsWith, Continues, Emptied, Flows, HasAnswered, MayAnswerWaiting, ReadsOpen, Steps};
ghost use Rattle.executor.specs.CommandBatches.{TakesCommands};
ghost use Rattle.executor.specs.Commands.{Serves};
ghost use Rattle.exec_session.specs.Waits.{PollsSource};
ghost use Rattle.exec_session.specs.declared.flow.Flow.TheVariants.{GoesOn};
ghost use Rattle.ocf_model.specs.declared.refusal.Refusal.TheVariants as refusal;
ghost use Rattle.exec_commands.specs.declared.line.Line.TheVariants as line;
ghost use Rattle.exec_replies.specs.declared.reply.LineReply.TheVariants as answer;

use crate::flow::Flow;
use crate::gathered::Gathered;
use crate::held::Held;
use crate::room::make_room;
use crate::session::Session;
use child_model::Children;
use exec_client::Message;
use exec_commands::Line;
use exec_replies::{DrainEnd, LineReply};
use executor::On;
use ocf_model::{Refusal, Reply, TidyEnd, TurnEnd};
use ocf_types::{AgentType, Provider, Request};
use resource_status::{RunReason, statuses_of};
use session_machine::{Edge, Failed, Mode};
use std::alloc::Global;
use store_model::Store;

fn refused(refusal: Refusal) -> LineReply
    ensures { result ≡ refused refusal }
{
    LineReply::Request(Reply::Refused(refusal))
}

// The reply to a line once a disk fault has closed the executor, unless it asks for metadata.
fn closed_reply(line: &Result<Line, Refusal>) -> LineReply
    requires other { IsNoMeta line.now }
    ensures { IsClosedReply line.now result }
{
    match line {
        Ok(Line::Drain(_) | Line::Watch(_)) => LineReply::Drain(DrainEnd::Turn(TurnEnd::Closed)),
        Ok(Line::Tidy) => LineReply::Tidy(TidyEnd::Closed),
        Ok(_) | Err(_) => refused(Refusal::Closed),
    }
}

// The status of each resource, with these reasons for failures, or that there is no memory for it.
fn status_reply<S: Store + Drop, C: Children + Drop>(
    alloc: Global,
    executor: &On<S, C>,
    reasons: &[RunReason],
) -> LineReply
    ensures status { IsStatusReply executor.now result }
{
    executor.lemma_known();
    match statuses_of(alloc, executor.state(), reasons) {
        Ok(statuses) => LineReply::Status(statuses),
        Err(_) => refused(Refusal::Memory),
    }
}

// Does what a request asks, at this time in milliseconds since 1970. A due tidy was made before; if that closed the
// executor, the request is refused with `Disk`, and nothing is done.
fn request_reply<S: Store + Drop, C: Children + Drop>(
    executor: &mut On<S, C>,
    request: Request,
    now: u64,
) -> Reply
    ensures serves { executor.old.is_open ≡ true
        → Serves S.view now request executor.old executor.new result }
    ensures fails { executor.old.is_open ≡ false
        → (result ≡ Refused refusal.Disk) × (executor.new ≡ executor.old) }
    ensures closes { executor.new.is_open ≡ false ↔ (result ≡ Refused refusal.Disk) }
{
    if !executor.is_open() {
        return Reply::Refused(Refusal::Disk);
    }
    executor.command(now, request)
}

// Does what the commands ask, as one group commit, at this time in milliseconds since 1970. A due tidy was made
// before; if that closed the executor, each command is refused with `Disk`, and nothing is done.
fn serve_gathered<S: Store + Drop, C: Children + Drop>(
    executor: &mut On<S, C>,
    gathered: &mut Gathered,
    now: u64,
)
    ensures takes { executor.old.is_open ≡ true → TakesCommands S.view now
        (waiting gathered.old) executor.old executor.new (replied gathered.new) }
    ensures fails { executor.old.is_open ≡ false
        → (replied gathered.new ≡ replicate (length (waiting gathered.old)) (Refused refusal.Disk))
        × (executor.new ≡ executor.old) }
    ensures none { waiting gathered.new ≡ [] }
{
    if executor.is_open() {
        gathered.take_all(executor, now);
    } else {
        gathered.refuse_all();
    }
}

impl<E: Edge + Drop> Session<E> {
    // Reads the clock, tidies if that is due, does what a request asks, and sends the reply.
    fn answer_request(&mut self, request: Request) -> Result<(), Failed>
        requires reads { ReadsOpen self.old.trace.state }
        requires is { lines_in self.old.trace.state ≡ Ok (line.Request request) ∷ [] }
        ensures steps { Steps self.old self.new result }
        ensures answered { OnOk result (HasAnswered self.old.trace self.new.trace []) }
    {
        let now = self.edge.now();
        make_room(&self.edge, &mut self.pace, &mut self.executor, now);
        let reply = request_reply(&mut self.executor, request, now);
        self.edge.note_reply(&self.executor, &reply);
        self.reply(&LineReply::Request(reply))
    }

    // Tidies the journal, and sends how that ended.
    fn answer_tidy(&mut self) -> Result<(), Failed>
        requires reads { ReadsOpen self.old.trace.state }
        requires is { lines_in self.old.trace.state ≡ Ok line.Tidy ∷ [] }
        ensures steps { Steps self.old self.new result }
        ensures answered { OnOk result (HasAnswered self.old.trace self.new.trace []) }
    {
        let end = self.executor.tidy();
        self.edge.note_tidy(&self.executor, end);
        self.reply(&LineReply::Tidy(end))
    }

    // Waits for an agent's metadata, as a session in `run` does, and sends them.
    fn answer_meta(
        &mut self,
        provider: &Provider,
        agent: &AgentType,
        limit: Option<u32>,
    ) -> Result<(), Failed>
        requires run { self.old.trace.state.rules.mode ≡ Mode.Run }
        requires at { self.old.trace.state.at ≡ Reading }
        requires is { lines_in self.old.trace.state
            ≡ Ok (line.Meta provider.now agent.now limit) ∷ [] }
        ensures steps { Steps self.old self.new result }
        ensures answered { OnOk result (HasAnswered self.old.trace self.new.trace []) }
    {
        let given = self.edge.metadata(provider, agent, limit);
        self.reply(&LineReply::Meta(given))
    }

    // Sends the status of each resource.
    fn answer_status(&mut self) -> Result<(), Failed>
        requires reads { ReadsOpen self.old.trace.state }
        requires is { lines_in self.old.trace.state ≡ Ok line.Status ∷ [] }
        ensures steps { Steps self.old self.new result }
        ensures answered { OnOk result (HasAnswered self.old.trace self.new.trace []) }
    {
        let reasons = self.edge.failure_reasons(&self.executor);
        let status = status_reply(self.alloc, &self.executor, reasons.as_slice());
        self.reply(&status)
    }

    // Sends a reply that needs no call of the executor.
    fn answer_plainly(&mut self, reply: &LineReply) -> Result<(), Failed>
        requires at { self.old.trace.state.at ≡ Reading }
        requires is { IsNextReply self.old.trace.state reply.now }
        requires stays { reply.now ≢ answer.Left }
        ensures steps { Steps self.old self.new result }
        ensures answered { OnOk result (HasAnswered self.old.trace self.new.trace []) }
    {
        self.reply(reply)
    }

    // Answers a line of an open executor.
    fn answer_open(&mut self, line: Result<Line, Refusal>) -> Result<(), Failed>
        requires reads { ReadsOpen self.old.trace.state }
        requires is { lines_in self.old.trace.state ≡ line ∷ [] }
        requires at_once { MayAnswerAtOnce self.old.trace.state.rules.mode line }
        ensures steps { Steps self.old self.new result }
        ensures answered { OnOk result (HasAnswered self.old.trace self.new.trace []) }
    {
        match line {
            Ok(Line::Request(request)) => self.answer_request(request),
            Ok(Line::Drain(limit)) => self.answer_drain(true, limit),
            Ok(Line::Watch(limit)) => self.answer_drain(false, limit),
            Ok(Line::Tidy) => self.answer_tidy(),
            Ok(Line::Leave) => self.answer_plainly(&refused(Refusal::UnknownOp)),
            Ok(Line::Version) => self.answer_plainly(&LineReply::Version),
            Ok(Line::Status) => self.answer_status(),
            Ok(
                Line::Meta {
                    provider,
                    agent,
                    limit,
                },
            ) => self.answer_meta(&provider, &agent, limit),
            Ok(Line::Refused(refusal)) => self.answer_plainly(&LineReply::Refused(refusal)),
            Err(refusal) => self.answer_plainly(&refused(refusal)),
        }
    }

    // Answers a line once a disk fault has closed the executor, in `run`.
    fn answer_closed(&mut self, line: Result<Line, Refusal>) -> Result<(), Failed>
        requires run { self.old.trace.state.rules.mode ≡ Mode.Run }
        requires closed { self.old.trace.state.executor.is_open ≡ false }
        requires at { self.old.trace.state.at ≡ Reading }
        requires is { lines_in self.old.trace.state ≡ line ∷ [] }
        ensures steps { Steps self.old self.new result }
        ensures answered { OnOk result (HasAnswered self.old.trace self.new.trace []) }
    {
        match line {
            Ok(
                Line::Meta {
                    provider,
                    agent,
                    limit,
                },
            ) => self.answer_meta(&provider, &agent, limit),
            Ok(line) => self.answer_plainly(&closed_reply(&Ok(line))),
            Err(refusal) => self.answer_plainly(&closed_reply(&Err(refusal))),
        }
    }

    /// Answers the only line that is not answered: sends the notices of a drain, and then the reply.
    pub fn answer(&mut self, line: Result<Line, Refusal>) -> Result<(), Failed>
        requires at { self.old.trace.state.at ≡ Reading }
        requires is { lines_in self.old.trace.state ≡ line ∷ [] }
        requires at_once { MayAnswerAtOnce self.old.trace.state.rules.mode line }
        requires serves { self.old.trace.state.rules.mode ≡ Mode.Serve
            → self.old.trace.state.executor.is_open ≡ true }
        ensures steps { Steps self.old self.new result }
        ensures answered { OnOk result (HasAnswered self.old.trace self.new.trace []) }
    {
        if self.executor.is_open() {
            self.answer_open(line)
        } else {
            self.answer_closed(line)
        }
    }

    // Answers the commands that wait, as one group commit: all are recorded before a reply is sent, and the replies are sent together.
    fn answer_gathered(&mut self) -> Result<(), Failed>
        requires reads { ReadsOpen self.old.trace.state }
        requires some { waiting self.old.pending.gathered ≢ [] }
        requires are { (rest : Lines)
            × BeginsWith (lines_in self.old.trace.state) (waiting self.old.pending.gathered) rest }
        ensures continues { Continues self.old.trace self.new.trace result }
        ensures emptied { Emptied self.old self.new }
        ensures answered { (rest : Lines)
            → BeginsWith (lines_in self.old.trace.state) (waiting self.old.pending.gathered) rest
            → OnOk result (HasAnswered self.old.trace self.new.trace rest) }
    {
        let now = self.edge.now();
        make_room(&self.edge, &mut self.pace, &mut self.executor, now);
        serve_gathered(&mut self.executor, &mut self.pending.gathered, now);
        let replies = self.pending.gathered.replies();
        self.edge.note_replies(&self.executor, replies);
        self.edge.send(&self.executor, &Message::Replies(replies))
    }

    /// Answers the commands that wait, if any, and gives how the session goes on, given whether the input has ended after them.
    pub fn answer_waiting(&mut self, has_ended: bool) -> Result<Flow, Failed>
        requires may { MayAnswerWaiting self.old has_ended }
        ensures continues { Continues self.old.trace self.new.trace result }
        ensures emptied { OnOk result (Emptied self.old self.new) }
        ensures flows { IfOk result (λ flow. Flows flow self.new.trace.state) }
        ensures answers { (rest : Lines)
            → BeginsWith (lines_in self.old.trace.state) (waiting self.old.pending.gathered) rest
            → IfOk result (λ flow. flow ≡ GoesOn → Answers self.old.trace self.new.trace rest) }
    {
        if !self.pending.gathered.is_empty() {
            self.answer_gathered()?;
        }
        self.flow(has_ended)
    }

    /// Answers a line that is held for an agent's metadata, if the metadata, or why there are none, are known by now. Whether
    /// the line was answered. For a held `leave` it does nothing and gives `false`.
    pub fn answer_held(&mut self) -> Result<bool, Failed>
        requires serves { self.old.trace.state.rules.mode ≡ Mode.Serve }
        requires reads { ReadsOpen self.old.trace.state }
        requires held { IsHeldMeta self.old.pending.held }
        requires is { lines_in self.old.trace.state ≡ held_lines self.old.pending.held }
        ensures steps { Steps self.old self.new result }
        ensures polled { IfOk result
            (λ answered. PollsSource answered self.old.trace self.new.trace) }
    {
        let Some(
            Held::Metadata {
                provider,
                agent,
                limit,
            },
        ) = &self.pending.held
        else {
            return Ok(false);
        };
        let Some(given) = self.edge.poll_metadata(provider, agent, *limit) else {
            return Ok(false);
        };
        self.reply(&LineReply::Meta(given))?;
        Ok(true)
    }
}
