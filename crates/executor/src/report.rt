//! The report of an opening: the actions that the executor before this opening left running or queued.
ghost use Rattle.std.specs.Prelude.{◌≡◌, ◌++◌, ◌<◌, IfOk, OnOk, length};
ghost use Rattle.ocf_model.specs.Indexes.{entry_at};
ghost use Rattle.executor.specs.Interruptions.{dropped, dropped_in, interrupted, interrupted_in};

use exec_state::State;
use growth::{Grows, Refused, push};
use ocf_model::StateView;
use ocf_types::{Moment, Notice, Outcome};
use op_history::{drop_notice, run_notice};
use past::Past;
use std::alloc::{Allocator, Global};

/// The actions that the executor before this opening left: those that ran, and those that were queued, each list in the order
/// of registrations and then of calls.
#[derive(Drop)]
pub struct Report<A: Allocator = Global> {
    pub interrupted: Vec<Notice, A>,
    pub dropped: Vec<Notice, A>,
}

/// The report of an opening, for contracts alone: it takes no memory.
#[derive(Drop)]
pub(crate) struct Reported {
    pub interrupted: Past<Notice>,
    pub dropped: Past<Notice>,
}

// These notices, for contracts alone.
fn noted(notices: &[Notice]) -> Past<Notice>
    ensures value { result.items ≡ notices.now }
{
    let mut past = Past::new();
    for notice in notices {
        past.note(notice);
    }
    past
}

// A notice of the running action of the resource at an index, if there is one.
fn push_interrupted<A: Grows>(
    notices: &mut Vec<Notice, A>,
    state: &State<A>,
    index: usize,
    at: Moment,
) -> Result<(), Refused<A>>
    requires index { index < length state.now.state.resources }
    ensures pushed { OnOk result (notices.new.items
        ≡ notices.old.items ++ interrupted_in at (entry_at state.now.state index)) }
{
    if let Some(running) = state.running_at(index) {
        let id = state.id_at(index).copied();
        push(notices, run_notice(id, running, Outcome::Interrupted, at))?;
    }
    Ok(())
}

// Notices of the queued actions of the resource at an index.
#[tactic(auto, using(crate::proofs::Openings::Reporting::drop_more))]
fn push_dropped<A: Grows>(
    notices: &mut Vec<Notice, A>,
    state: &State<A>,
    index: usize,
    at: Moment,
) -> Result<(), Refused<A>>
    requires index { index < length state.now.state.resources }
    ensures pushed { OnOk result (notices.new.items
        ≡ notices.old.items ++ dropped_in at (entry_at state.now.state index)) }
{
    for i in 0..state.queue_len(index) {
        let id = state.id_at(index).copied();
        let notice = drop_notice(id, state.queued_at(index, i), at);
        push(notices, notice)?;
    }
    Ok(())
}

impl<A: Grows> Report<A> {
    /// The report of an opening at this moment that found this state. The only error is lack of memory.
    #[tactic(auto, using(crate::proofs::Openings::Reporting::reported_more))]
    pub(crate) fn of(alloc: A, state: &State<A>, at: Moment) -> Result<Report<A>, Refused<A>>
        ensures interrupted { IfOk result
            (λ r. r.interrupted.items ≡ interrupted state.now.state at) }
        ensures dropped { IfOk result (λ r. r.dropped.items ≡ dropped state.now.state at) }
    {
        let mut interrupted = Vec::new(alloc);
        let mut dropped = Vec::new(alloc);
        for index in 0..state.len() {
            push_interrupted(&mut interrupted, state, index, at)?;
            push_dropped(&mut dropped, state, index, at)?;
        }
        Ok(Report {
            interrupted,
            dropped,
        })
    }

    /// Both lists, for contracts alone.
    pub(crate) fn remembered(&self) -> Reported
        ensures interrupted { result.interrupted.items ≡ self.now.interrupted.items }
        ensures dropped { result.dropped.items ≡ self.now.dropped.items }
    {
        Reported {
            interrupted: noted(self.interrupted.as_slice()),
            dropped: noted(self.dropped.as_slice()),
        }
    }
}
