//! A session over its input: it answers lines one by one, and in `serve` makes turns by itself.
ghost use Rattle.std.specs.Prelude.{◌≡◌, [], IfErr, OnOk};
ghost use Rattle.exec_faults.specs.Faults.{HasCause};
ghost use Rattle.exec_session.specs.Ends.{ClosesByCalls, Ended, IsEnd};
ghost use Rattle.exec_session.specs.Rounds.{Goes, IsFresh, IsRound, RoundsOn};
ghost use Rattle.exec_session.specs.Standing.{Continues, IsOver, Lasts};
ghost use Rattle.exec_session.specs.Steps.{IsOpening, IsReportOf, IsOpeningOf};

use crate::flow::Flow;
use crate::pace::Pace;
use crate::pause::Pause;
use crate::pending::{LineRoom, Pending};
use exec_faults::Fault;
use executor::{On, Report};
use growth::Grows;
use ocf_model::TurnEnd;
use ocf_types::NUM_MAX;
use session_machine::{Edge, Failed, Mode};
use std::alloc::Global;
use std::marker::Model;

/// How a session ended, and what it gives back.
#[derive(Drop)]
pub struct Run<E: Edge + Drop> {
    pub ended: Result<(), Fault>,
    /// The edge, which knows all that has happened.
    pub edge: E,
    pub store: E::Store,
    /// The end of each agent was seen, or was asked for; its process may live on.
    pub children: E::Children,
}

/// A session: its executor and its edge, the input in hand, the pause after its last turn, and how its last own turn ended.
#[derive(Drop)]
pub struct Session<E: Edge + Drop> {
    pub(crate) alloc: Global,
    pub(crate) edge: E,
    pub(crate) executor: On<E::Store, E::Children>,
    pub(crate) pace: Pace,
    pub(crate) pending: Pending,
    pub(crate) pause: Pause,
    pub(crate) own_end: TurnEnd,
}

impl<E: Edge + Drop> Model for Session<E> {
    ghost use Rattle.std.specs.Prelude.{◌≡◌};
    ghost use Rattle.std.specs.Coded.{codes};
    ghost use Rattle.serde_json.specs.contracts.value.Value as json_value;
    ghost use Rattle.exec_session.specs.Standing.{Standing};

    ghost Value = { Standing E.Store };

    ghost coded = { Prim.hlevel (codes, json_value.the_row.coded) };

    ghost view = { λ s. record {
      trace = E.trace s.edge;
      pending = s.pending;
      pause = s.pause;
      own_end = s.own_end;
    } };

    ghost invariant = { λ s. s.executor ≡ (E.trace s.edge).state.executor };
}

impl<E: Edge + Drop> Session<E> {
    // A session that has read nothing and made no turn. Not inlined, so that the values moved here take no stack in the session.
    #[inline(never)]
    fn new(
        alloc: Global,
        edge: E,
        executor: On<E::Store, E::Children>,
        room: LineRoom,
    ) -> Session<E>
        requires of { executor ≡ (E.trace edge).state.executor }
        ensures trace { result.trace ≡ E.trace edge }
        ensures fresh { IsFresh result }
    {
        Session {
            alloc,
            edge,
            executor,
            pace: Pace::new(),
            pending: room.into_pending(),
            pause: Pause::new(0),
            own_end: TurnEnd::Done,
        }
    }

    // Answers the lines that are there, at most 64, and makes a turn; if nothing happened in it, waits for the next line.
    fn serve_round(&mut self) -> Result<Flow, Failed>
        requires serves { self.old.trace.state.rules.mode ≡ Mode.Serve }
        requires round { IsRound self.old }
        ensures rounds { Goes RoundsOn self.old self.new result }
    {
        if self.answer_round()? == Flow::Over {
            return Ok(Flow::Over);
        }
        if self.is_leaving() {
            self.leave()?;
            return Ok(Flow::Over);
        }
        if self.own_turn()? == Flow::Over {
            return Ok(Flow::Over);
        }
        self.wait()?;
        Ok(Flow::GoesOn)
    }

    // One round. In `run` it is one read, and the answer to the line that is complete then.
    fn round(&mut self) -> Result<Flow, Failed>
        requires round { IsRound self.old }
        ensures rounds { Goes RoundsOn self.old self.new result }
    {
        match self.edge.rules().mode {
            Mode::Run => self.take_read(),
            Mode::Serve => self.serve_round(),
        }
    }

    // Answers the lines of the input up to its end, round by round. In `serve` a fault of the device that closes the executor ends the session,
    // with the line of that fault; and once a line asks for it the session makes an orderly end.
    fn answer_all(&mut self) -> Result<(), Failed>
        requires round { IsRound self.old }
        ensures continues { Continues self.old.trace self.new.trace result }
        ensures over { OnOk result (IsOver self.new.trace.state.at) }
    {
        for _rounds in 0..NUM_MAX {
            if self.round()? == Flow::Over {
                return Ok(());
            }
        }
        Err(Failed)
    }

    // Sends the report, and in `serve` that the session is ready; then answers all lines.
    fn report_and_answer(&mut self, report: &Report) -> Result<(), Failed>
        requires begun { IsOpening self.old.trace }
        requires opening_report { IsReportOf self.old.trace.state.executor report.now }
        requires fresh { IsFresh self.old }
        ensures continues { Continues self.old.trace self.new.trace result }
        ensures over { OnOk result (IsOver self.new.trace.state.at) }
    {
        self.send_report(report)?;
        self.answer_all()
    }

    // Sends the report, and then answers all lines. Gives how the program ends after that.
    fn run(&mut self, report: &Report) -> Result<(), Fault>
        requires begun { IsOpening self.old.trace }
        requires opening_report { IsReportOf self.old.trace.state.executor report.now }
        requires fresh { IsFresh self.old }
        ensures lasts { Lasts self.old.trace self.new.trace }
        ensures ends { IsEnd self.new.trace result }
        ensures memory { IfErr result (HasCause ⟦<Global as Grows>⟧.refuses) }
    {
        match self.report_and_answer(report) {
            Ok(()) if self.executor.is_open() => Ok(()),
            Ok(()) => Err(Fault::Disk),
            Err(_) if self.edge.lacks_memory() => Err(Fault::ReplyMemory),
            Err(_) => Err(Fault::InputOrOutput),
        }
    }
}

/// Sends a client the report of the opening, and then answers each line of the input, up to its end. In `serve` it first sends that it is
/// ready, and makes turns by itself, too, and sends how they ended. Commands whose lines were read whole, one after the other, are one
/// group commit: they are recorded together, and their replies are flushed together. Any other reply is flushed before the next line is
/// answered, and a turn's notices before the next turn. After a disk fault a session in `run` goes on to the end of its input,
/// and in `serve` it ends at once, with the line `{"end":"disk"}`; both then end with `Fault::Disk`. If input or output fails,
/// it ends with `Fault::InputOrOutput`, and with `Fault::ReplyMemory` if there is no memory for a reply or a notice. However it
/// ends, all agents are then given up and their end is asked for, and the executor is closed. The buffers for lines are passed in, so that no
/// memory is refused between the opening and its report.
#[inline(never)]
pub fn run_lines<E: Edge + Drop>(
    alloc: Global,
    edge: E,
    opened: (On<E::Store, E::Children>, Report),
    room: LineRoom,
) -> Run<E>
    requires begun { IsOpeningOf (E.trace edge) opened.0 }
    requires opening_report { IsReportOf opened.0 opened.1 }
    ensures ends { Ended E.Store.view E.Children.view (E.trace edge) (E.trace result.edge)
        result.ended result.store result.children }
    ensures reported { ClosesByCalls E.Store.view opened.0 (E.trace result.edge).state.client
        result.store (E.Children.view result.children) }
    ensures none_left { ((E.Children.view result.children).live ≡ [])
        × ((E.Children.view result.children).given_up ≡ []) }
    ensures memory { IfErr result.ended (HasCause ⟦<Global as Grows>⟧.refuses) }
{
    let (executor, report) = opened;
    let mut session = Session::new(alloc, edge, executor, room);
    let ended = session.run(&report);
    session.edge.lemma_behaves();
    let Session {
        edge,
        mut executor,
        ..
    } = session;
    executor.abandon();
    let (store, children) = executor.into_store();
    Run {
        ended,
        edge,
        store,
        children,
    }
}
