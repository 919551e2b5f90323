//! The edge of a session over an input, a client, a clock and a source of metadata.
ghost use Rattle.std.specs.Prelude.{◌≡◌, ℕ, List, take};
ghost use Rattle.exec_lines.specs.Buffer.{line_bytes};
ghost use Rattle.exec_lines.specs.Lines.{line_room};
ghost use Rattle.session_machine.specs.Behaviours.{opening};
ghost use Rattle.session_machine.specs.Edges.{next_after};
ghost use Rattle.session_machine.specs.EdgeView.{IsFaithful};
ghost use Rattle.session_machine.specs.First.{IsNew};

use crate::edge::Edge;
use crate::failed::Failed;
use crate::metadata::Metadata;
use crate::note::SessionNote;
use crate::rules::Rules;
use child_model::Children;
use exec_client::{Client, Message};
use exec_commands::{Line, Tag};
use exec_lines::{Input, IoFault, LineBuffer, Next, Piece, Ticker};
use executor::On;
use growth::{Grows, Refused};
use ocf_model::{Refusal, Reply, TidyEnd, TurnEnd};
use ocf_types::{AgentType, MetaFault, Provider};
use past::Seen;
use resource_status::RunReason;
use std::alloc::Global;
use std::marker::{Model, PhantomData};
use store_model::Store;

/// What a session asks: its input, its client, its clock and its source of metadata.
pub struct EdgeParts<'a, I, T, K, M> {
    pub input: I,
    pub client: T,
    pub ticker: K,
    pub source: &'a M,
}

/// The edge of a session: its input, its client, its clock and its source of metadata.
///
/// Each call asks one of them once, and notes the question with the answer. So what has happened in the session is what they were asked
/// and answered (`lemma_faithful`): their own logs say the same.
#[derive(Drop)]
pub struct SystemEdge<
    'a,
    I: Input,
    S: Store + Drop,
    C: Children + Drop,
    T: Client<S, C>,
    K: Ticker,
    M: Metadata,
> {
    alloc: Global,
    rules: Rules<'a>,
    input: I,
    client: T,
    ticker: K,
    source: &'a M,
    // The last failure of the input or the client.
    fault: IoFault,
    note: SessionNote<S>,
    of: PhantomData<(S, C)>,
}

impl<
    'a,
    I: Input,
    S: Store + Drop,
    C: Children + Drop,
    T: Client<S, C>,
    K: Ticker,
    M: Metadata,
> Model for SystemEdge<'a, I, S, C, T, K, M> {
    ghost use Rattle.std.specs.Prelude.{◌≡◌, IsTrue};
    ghost use Rattle.std.specs.Coded.{codes};
    ghost use Rattle.serde_json.specs.contracts.value.Value as json_value;
    ghost use Rattle.exec_lines.specs.declared.io_fault.IoFault.TheVariants.{Memory};
    ghost use Rattle.session_machine.specs.EdgeView.{EdgeView, IsKept};

    ghost Value = { EdgeView S };

    ghost coded = { Prim.hlevel (codes, json_value.the_row.coded) };

    ghost view = { λ e. record {
      trace = e.note.trace;
      input = I.view e.input;
      ticks = K.asked
          e.ticker;
    } };

    ghost invariant = { λ e. IsKept S.view M.gives e.rules (M.of e.source.now)
        (T.client_view e.client)
        (record { trace = e.note.trace; input = I.view e.input; ticks = K.asked e.ticker })
        × (e.fault ≡ Memory → IsTrue ⟦<Global as Grows>⟧.refuses) };
}

// The next line of the input, once its last piece was read.
fn next_in(buffer: &LineBuffer, piece: Piece) -> Option<Next>
    ensures { (line : List ℕ) → line_bytes buffer.now ≡ take line_room line
        → result ≡ next_after piece line }
{
    match piece {
        Piece::Part => None,
        Piece::Last | Piece::Nothing => Some(Next::of(buffer, piece)),
    }
}

impl<
    'a,
    I: Input,
    S: Store + Drop,
    C: Children + Drop,
    T: Client<S, C>,
    K: Ticker + Drop,
    M: Metadata,
> SystemEdge<'a, I, S, C, T, K, M> {
    /// The edge of a session that begins with an executor that is just opened, and a client that was sent nothing.
    pub fn new(
        alloc: Global,
        rules: Rules<'a>,
        parts: EdgeParts<'a, I, T, K, M>,
        executor: &On<S, C>,
    ) -> SystemEdge<'a, I, S, C, T, K, M>
        requires new { IsNew (T.client_view parts.client) executor.now }
        ensures { result ≡ record {
          trace = opening rules.entry
              (record { input = I.view parts.entry.input; ticks = K.asked parts.entry.ticker; source = M.of parts.entry.source.now })
              executor.now (T.client_view parts.entry.client);
          input = I.view parts.entry.input;
          ticks = K.asked parts.entry.ticker;
        } }
    {
        let note = SessionNote::at(&(rules, &parts, executor));
        let EdgeParts {
            input,
            client,
            ticker,
            source,
        } = parts;
        SystemEdge {
            alloc,
            rules,
            input,
            client,
            ticker,
            source,
            fault: IoFault::InputOrOutput,
            note,
            of: PhantomData,
        }
    }

    /// What has happened in the session is what input, clock and source were asked and answered, as a lemma. It does nothing.
    pub fn lemma_faithful(&self)
        ensures faithful { IsFaithful S.view M.gives self.now }
    {
        let _note = &self.note;
    }

    /// The input, the client and the clock.
    pub fn into_parts(self) -> (I, T, K)
        ensures input { I.view result.0 ≡ self.entry.input }
        ensures client { T.client_view result.1 ≡ self.entry.trace.state.client }
        ensures ticks { K.asked result.2 ≡ self.entry.ticks }
    {
        let SystemEdge {
            input,
            client,
            ticker,
            ..
        } = self;
        (input, client, ticker)
    }
}

impl<I: Input, S: Store + Drop, C: Children + Drop, T: Client<S, C>, K: Ticker, M: Metadata> Edge
    for SystemEdge<'_, I, S, C, T, K, M> {
    type Store = S;

    type Children = C;

    ghost trace = { λ e. e.trace };

    fn rules(&self) -> Rules<'_> {
        self.rules
    }

    fn poll(&mut self, millis: u32) -> bool {
        let ready = self.input.is_ready(millis);
        self.note.follow(&(millis, ready));
        ready
    }

    fn has_line(&mut self) -> bool {
        let has_line = self.input.has_line();
        self.note.follow(&has_line);
        has_line
    }

    fn read(&mut self, buffer: &mut LineBuffer) -> Result<Option<Next>, Failed> {
        let read = self.input.take_piece(buffer);
        self.note.follow(&(&self.input, &read));
        match read {
            Ok(piece) => Ok(next_in(buffer, piece)),
            Err(error) => {
                self.fault = IoFault::from(error);
                Err(Failed)
            }
        }
    }

    fn note_line(&mut self, line: &Result<Line, Refusal>, tag: Option<Tag>) -> Result<(), Refused> {
        let seen = Seen::of(&tag);
        let noted = self.client.note_tag(tag);
        self.note.follow(&(line, &seen, &noted));
        noted
    }

    fn metadata(
        &mut self,
        provider: &Provider,
        agent: &AgentType,
        limit: Option<u32>,
    ) -> Result<Vec<u8>, MetaFault> {
        let given = self.source.metadata(self.alloc, provider, agent, limit);
        self.note.follow(&(provider, agent, limit, &given));
        given
    }

    fn poll_metadata(
        &mut self,
        provider: &Provider,
        agent: &AgentType,
        limit: Option<u32>,
    ) -> Option<Result<Vec<u8>, MetaFault>> {
        let given = self
            .source
            .poll_metadata(self.alloc, provider, agent, limit);
        self.note.follow(&(provider, agent, limit, &given));
        given
    }

    fn now(&mut self) -> u64 {
        let moment = self.ticker.now();
        self.note.follow(&moment);
        moment
    }

    fn rest(&mut self, micros: u64) {
        self.ticker.rest(micros);
        self.note.follow(&micros);
    }

    fn micros(&self) -> u64 {
        self.ticker.micros()
    }

    fn send(&mut self, executor: &On<S, C>, what: &Message) -> Result<(), Failed> {
        let sent = self.client.send(executor, self.rules.form, what);
        self.note.follow(&(what, &sent, &self.client));
        match sent {
            Ok(()) => Ok(()),
            Err(fault) => {
                self.fault = fault;
                Err(Failed)
            }
        }
    }

    fn has_reader(&mut self) -> bool {
        let still_reads = self.client.has_reader();
        self.note.follow(&still_reads);
        still_reads
    }

    fn failure_reasons(&self, executor: &On<S, C>) -> Vec<RunReason> {
        self.client.failure_reasons(executor)
    }

    fn lacks_memory(&self) -> bool {
        matches!(self.fault, IoFault::Memory)
    }

    fn note_reply(&mut self, executor: &On<S, C>, reply: &Reply) {
        self.note.follow(&(executor, reply));
    }

    fn note_replies(&mut self, executor: &On<S, C>, replies: &[Reply]) {
        self.note.follow(&(executor, replies));
    }

    fn note_tidy(&mut self, executor: &On<S, C>, end: TidyEnd) {
        self.note.follow(&(executor, end));
    }

    fn note_turn(&mut self, executor: &On<S, C>, end: TurnEnd) {
        self.note.follow(&(executor, end));
    }

    fn note_fault(&mut self, executor: &On<S, C>) {
        self.note.follow(executor);
    }

    fn note_finish(&mut self, executor: &On<S, C>, end: TurnEnd) {
        self.note.follow(&(executor, end));
    }

    fn lemma_behaves(&self) {
        let _note = &self.note;
    }
}
