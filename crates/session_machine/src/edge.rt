//! The edge of a session: all that it asks of its surroundings.
ghost use Rattle.std.specs.Prelude.{◌≡◌, [], ◌∷◌, Err, IsTrue, None, OnErr, OnOk, Some, is_ok, take};
ghost use Rattle.ocf_types.specs.Numbers.{IsMoment};
ghost use Rattle.ocf_model.specs.declared.refusal.Refusal.TheVariants.{Memory};
ghost use Rattle.exec_lines.specs.Buffer.{line_bytes};
ghost use Rattle.exec_lines.specs.Lines.{line_room};
ghost use Rattle.exec_client.specs.ClientView.{ClientView};
ghost use Rattle.exec_client.specs.MessageView.{message_view};
ghost use Rattle.session_machine.specs.Behaviours.{IsBehaviour, ReceivesAs, Trace, then};
ghost use Rattle.session_machine.specs.Edges.{IsReadOf};
ghost use Rattle.session_machine.specs.Events.{Faulted, Finishes, GaveMetadata, HasReader, Noted, Peeked, Polled, Rested, Sent, Served, Shown, Tidied, Together, Turned};
ghost use Rattle.session_machine.specs.May.{IsDue, MayAskReader, MayAskSource, MayFault, MayFinish, MayNote, MayPoll, MayRead, MayRest, MayServe, MayServeTogether, MayShow, MayTidy, MayTurn};
ghost use Rattle.session_machine.specs.Session.{Reading};
ghost use Rattle.session_machine.specs.declared.rules.Mode.TheVariants as mode;

use crate::failed::Failed;
use crate::rules::Rules;
use child_model::Children;
use exec_client::Message;
use exec_commands::{Line, Tag};
use exec_lines::{LineBuffer, Next};
use executor::On;
use growth::{Grows, Refused};
use ocf_model::{Refusal, Reply, TidyEnd, TurnEnd};
use ocf_types::{AgentType, MetaFault, Provider};
use resource_status::RunReason;
use std::alloc::Global;
use store_model::Store;

/// All that a session asks of its surroundings: its input, its client, its clock and the source of metadata.
///
/// The edge knows what has happened in the session (`trace`). Each call requires that a session which is there may do this, and
/// adds the event with its answer. What its executor did, a session notes here too (`note_reply` and so on), which asks nobody. So what
/// a session does by such calls is a behaviour of the machine (`lemma_behaves`), whatever the answers are.
pub trait Edge {
    /// The store of the session's executor.
    type Store: Store + Drop;

    /// The agent processes of the session's executor.
    type Children: Children + Drop;

    ghost trace: { Self → Trace Self.Store };

    /// The rules of the session.
    fn rules(&self) -> Rules<'_>
        ensures { result ≡ (trace self.now).state.rules };

    /// Polls the input for at most this many milliseconds. Whether a read would not block.
    fn poll(&mut self, millis: u32) -> bool
        requires may { MayPoll (trace self.old).state millis }
        ensures polled { trace self.new ≡ then (trace self.old) (Polled millis result) };

    /// Whether what was read already holds a whole line.
    fn has_line(&mut self) -> bool
        requires may { (trace self.old).state.at ≡ Reading }
        ensures peeked { trace self.new ≡ then (trace self.old) (Peeked result) };

    /// Reads once, and continues the line in the buffer. Gives the next line, or the end of the input, once it is complete, and `None`
    /// until then.
    fn read(&mut self, buffer: &mut LineBuffer) -> Result<Option<Next>, Failed>
        requires may { MayRead (trace self.old).state }
        requires kept { line_bytes buffer.old ≡ take line_room (trace self.old).state.part }
        ensures reads { IsReadOf (trace self.old) (trace self.new) (line_bytes buffer.new) result };

    /// Notes that the line that was read is this, or why it is refused, and has this tag. Where no memory is there for the tag, the line
    /// is refused for that.
    fn note_line(&mut self, line: &Result<Line, Refusal>, tag: Option<Tag>) -> Result<(), Refused>
        requires may { MayNote (trace self.old).state line.now tag }
        ensures noted { OnOk result (trace self.new ≡ then (trace self.old) (Noted line.now tag)) }
        ensures refused { OnErr result (trace self.new
            ≡ then (trace self.old) (Noted (Err Memory) None)) };

    /// Waits for the metadata of an agent that may take this many milliseconds, or as long as it needs; or for why it has none.
    fn metadata(
        &mut self,
        provider: &Provider,
        agent: &AgentType,
        limit: Option<u32>,
    ) -> Result<Vec<u8>, MetaFault>
        requires run { (trace self.old).state.rules.mode ≡ mode.Run }
        requires may { MayAskSource (trace self.old).state provider.now agent.now limit }
        ensures gave { trace self.new
            ≡ then (trace self.old) (GaveMetadata provider.now agent.now limit (Some result)) };

    /// The same without a wait: the first call asks the agent, and each call polls it. `None`: it has not answered yet.
    fn poll_metadata(
        &mut self,
        provider: &Provider,
        agent: &AgentType,
        limit: Option<u32>,
    ) -> Option<Result<Vec<u8>, MetaFault>>
        requires may { MayAskSource (trace self.old).state provider.now agent.now limit }
        ensures gave { trace self.new
            ≡ then (trace self.old) (GaveMetadata provider.now agent.now limit result) };

    /// A clock reading, in milliseconds since 1970.
    fn now(&mut self) -> u64
        requires may { MayShow (trace self.old).state.at }
        ensures moment { IsMoment result }
        ensures shown { trace self.new ≡ then (trace self.old) (Shown result) };

    /// Pauses for this many microseconds.
    fn rest(&mut self, micros: u64)
        requires may { MayRest (trace self.old).state (trace self.old).state.at micros }
        ensures rested { trace self.new ≡ then (trace self.old) (Rested micros) };

    /// A reading of the monotonic clock in microseconds, to measure with; 0 where it cannot be read. It is no event.
    fn micros(&self) -> u64;

    /// Sends the client a message. On error a prefix of its lines was sent, and maybe part of the next.
    fn send(
        &mut self,
        executor: &On<Self::Store, Self::Children>,
        what: &Message,
    ) -> Result<(), Failed>
        requires of { executor.now ≡ (trace self.old).state.executor }
        requires due { IsDue (trace self.old).state (trace self.old).state.at
            (message_view what.now) }
        ensures sent { (client : ClientView Self.Store)
            × ReceivesAs (is_ok result) (trace self.old).state.rules.form
            (trace self.old).state.client client (message_view what.now)
            × (trace self.new ≡ then (trace self.old) (Sent (message_view what.now)
            (is_ok result) client)) };

    /// Whether anybody may still read the output.
    fn has_reader(&mut self) -> bool
        requires may { MayAskReader (trace self.old).state.at }
        ensures asked { trace self.new ≡ then (trace self.old) (HasReader result) };

    /// The reasons that agents gave for the last failures of resources, as far as the client knows them. This asks nobody.
    fn failure_reasons(&self, executor: &On<Self::Store, Self::Children>) -> Vec<RunReason>;

    /// Whether the client's last failure was lack of memory.
    fn lacks_memory(&self) -> bool
        ensures memory { IsTrue result → IsTrue ⟦<Global as Grows>⟧.refuses };

    /// Notes that the executor served the request that is the next line, with this reply. This asks nobody, as for all that follow.
    fn note_reply(&mut self, executor: &On<Self::Store, Self::Children>, reply: &Reply)
        requires may { MayServe Self.Store.view (trace self.old).state reply.now executor.now }
        ensures noted { trace self.new ≡ then (trace self.old) (Served reply.now executor.now) };

    /// The same of the commands that wait, as a group commit.
    fn note_replies(&mut self, executor: &On<Self::Store, Self::Children>, replies: &[Reply])
        requires may { MayServeTogether Self.Store.view
            (trace self.old).state replies.now executor.now }
        ensures noted { trace self.new
            ≡ then (trace self.old) (Together replies.now executor.now) };

    /// Notes that it tidied, as the next line asks.
    fn note_tidy(&mut self, executor: &On<Self::Store, Self::Children>, end: TidyEnd)
        requires may { MayTidy Self.Store.view (trace self.old).state end executor.now }
        ensures noted { trace self.new ≡ then (trace self.old) (Tidied end executor.now) };

    /// Notes that it made a turn.
    fn note_turn(&mut self, executor: &On<Self::Store, Self::Children>, end: TurnEnd)
        requires may { MayTurn Self.Store.view (trace self.old).state end executor.now }
        ensures noted { trace self.new ≡ then (trace self.old) (Turned end executor.now) };

    /// Notes that a disk fault closed it in the tidy before a turn.
    fn note_fault(&mut self, executor: &On<Self::Store, Self::Children>)
        requires may { MayFault Self.Store.view (trace self.old).state executor.now }
        ensures noted { trace self.new ≡ then (trace self.old) (Faulted executor.now) };

    /// Notes that it made a turn that begins nothing.
    fn note_finish(&mut self, executor: &On<Self::Store, Self::Children>, end: TurnEnd)
        requires may { MayFinish Self.Store.view (trace self.old).state end executor.now }
        ensures noted { trace self.new ≡ then (trace self.old) (Finishes end executor.now) };

    /// What has happened is a behaviour of the machine.
    fn lemma_behaves(&self)
        ensures behaves { IsBehaviour Self.Store.view (trace self.now) };
}
