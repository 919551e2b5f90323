//! The operations of one resource.
ghost use Rattle.std.specs.Prelude.{◌≡◌, ◌↔◌, ◌<◌, ◌≤◌, length, slice_get, IfOk, IsErr, OnOk, OnErr};
ghost use Rattle.ocf_model.specs.Resource.{kept, no_history, is_busy, accepted, begun, ended, booted, forgotten};
ghost use Rattle.ocf_model.specs.Resource.{failed_after, history_in, queued_of, withdrawn};
ghost use Rattle.ocf_types.specs.declared.layout.Layout.TheVariants.{First};

use crate::entries::{cancelled_of, failed_of, run_of_monitor, run_of_op};
use crate::queued::{Queued, queue_of};
use crate::results::Results;
use arrayvec::ArrayVec;
use growth::{Grows, Refused};
use ocf_model::HistoryParts;
use ocf_types::{
    CallId, Ended, Layout, Moment, Op, Outcome, QUEUE_LIMIT, Recur, RunEnd, RunId, Running,
};
use std::alloc::{Allocator, Global};
use std::marker::Model;
use thiserror::Error;

/// No action of that call is queued.
#[derive(Clone, Copy, Debug, PartialEq, Eq, Error)]
#[error("no action with this call id is queued")]
pub struct NotQueued;

/// [`QUEUE_LIMIT`] actions are queued already.
#[derive(Clone, Copy, Debug, PartialEq, Eq, Error)]
#[error("the queue of this resource is full")]
pub struct QueueFull;

/// The operations of one resource: at most [`QUEUE_LIMIT`] queued actions, the running one, the last
/// [`ENDED_KEPT`](ocf_types::ENDED_KEPT) results, and the last failure, which may be older than these. All memory is allocated
/// when it is created.
#[derive(Drop)]
pub struct Ops<A: Allocator = Global> {
    queue: ArrayVec<Queued, { QUEUE_LIMIT }>,
    running: Option<Running>,
    ended: Results<A>,
    failed: Option<Ended>,
}

impl<A: Allocator> Model for Ops<A> {
    ghost use Rattle.ocf_model.specs.Resource.{History};

    ghost Value = { History };

    ghost view = { λ o. record { queue = o.queue.items; running = o.running; ended = o.ended; failed = o.failed } };
}

impl<A: Grows> Ops<A> {
    /// The operations of a newly registered resource: none. The only error is a refused allocation.
    pub fn new(alloc: A) -> Result<Ops<A>, Refused<A>>
        ensures none { IfOk result (λ o. o ≡ no_history) }
    {
        Ok(Ops {
            queue: ArrayVec::new(),
            running: None,
            ended: Results::new(alloc)?,
            failed: None,
        })
    }

    /// The operations of these parts. The only error is a refused allocation.
    #[tactic(auto, using(crate::proofs::Last::kept_whole))]
    pub fn from_parts(alloc: A, parts: &HistoryParts<A>) -> Result<Ops<A>, Refused<A>>
        requires queue { length parts.now.queue ≤ QUEUE_LIMIT }
        requires ended { length parts.now.ended ≤ kept }
        ensures parts { IfOk result (λ o. o ≡ parts.now) }
    {
        let mut ended = Results::new(alloc)?;
        ended.push_all(parts.ended());
        Ok(Ops {
            queue: queue_of(parts.queue()),
            running: parts.running(),
            ended,
            failed: parts.failed(),
        })
    }
}

impl<A: Allocator> Ops<A> {
    /// The number of queued actions, at most [`QUEUE_LIMIT`].
    pub fn queue_len(&self) -> usize
        ensures value { result ≡ length self.now.queue }
        ensures limit { result ≤ QUEUE_LIMIT }
    {
        self.queue.len()
    }

    /// A queued action; the first is at 0.
    pub fn queued_at(&self, at: usize) -> Op
        requires { at < length self.now.queue }
        ensures { slice_get self.now.queue at ≡ Some result }
    {
        self.queue.as_slice()[at].op()
    }

    /// The queued action of that call.
    pub fn queued_of(&self, call: CallId) -> Option<Op>
        ensures { result ≡ queued_of call self.now.queue }
    {
        self.queue
            .as_slice()
            .iter()
            .map(|queued| queued.op())
            .find(|op| op.call == call)
    }

    /// The running action.
    pub fn running(&self) -> Option<Running>
        ensures { result ≡ self.now.running }
    {
        self.running
    }

    /// The number of results, at most [`ENDED_KEPT`](ocf_types::ENDED_KEPT).
    pub fn ended_len(&self) -> usize
        ensures value { result ≡ length self.now.ended }
        ensures limit { result ≤ kept }
    {
        self.ended.len()
    }

    /// A result; the oldest is at 0.
    pub fn ended_at(&self, at: usize) -> Ended
        requires { at < length self.now.ended }
        ensures { slice_get self.now.ended at ≡ Some result }
    {
        self.ended.at(at)
    }

    /// The last result that failed, even if it is no longer among the kept ones.
    pub fn failed(&self) -> Option<Ended>
        ensures { result ≡ self.now.failed }
    {
        self.failed
    }

    /// Whether an action is queued or running.
    pub fn is_busy(&self) -> bool
        ensures { result ≡ is_busy self.now }
    {
        self.queue.len() > 0 || self.running.is_some()
    }

    /// Appends an action to the queue. It is refused exactly when [`QUEUE_LIMIT`] actions are queued; then nothing changes.
    pub fn accept(&mut self, op: Op) -> Result<(), QueueFull>
        ensures refused { IsErr result ↔ (length self.old.queue ≡ QUEUE_LIMIT) }
        ensures unchanged { OnErr result (self.new ≡ self.old) }
        ensures accepted { OnOk result (self.new ≡ accepted op self.old) }
    {
        if self.queue.len() >= QUEUE_LIMIT {
            return Err(QueueFull);
        }
        self.queue.push(Queued::new(op));
        Ok(())
    }

    /// The action that runs after a begin under that run number: the first queued one or, if the queue is empty, the recurring
    /// monitor.
    pub fn next(&self, monitor: Option<Recur>, run: RunId, at: Moment) -> Option<Running>
        ensures { result ≡ (begun monitor run at self.now).running }
    {
        if self.queue.is_empty() {
            return monitor.map(|m| run_of_monitor(m, run, at));
        }
        Some(run_of_op(self.queued_at(0), run, at))
    }

    /// Begins the first queued action under that run number or, if the queue is empty, a run of the recurring monitor.
    pub fn begin(&mut self, monitor: Option<Recur>, run: RunId, at: Moment)
        ensures { self.new ≡ begun monitor run at self.old }
    {
        self.running = self.next(monitor, run, at);
        if !self.queue.is_empty() {
            self.queue.remove(0);
        }
    }

    /// Ends the running action at that moment: appends its result, which becomes the last failure if it is one. If no action runs,
    /// nothing changes.
    pub fn end(&mut self, run_end: RunEnd, at: Moment)
        ensures { self.new ≡ ended (Outcome.Run run_end) at self.old }
    {
        let outcome = Outcome::Run(run_end);
        self.failed = self.failed_after(outcome, at);
        self.ended.push_run(self.running, outcome, at);
        self.running = None;
    }

    /// The last failure after the running action has ended with this outcome at that moment.
    fn failed_after(&self, outcome: Outcome, at: Moment) -> Option<Ended>
        ensures { result ≡ failed_after outcome at self.now }
    {
        let Some(running) = self.running else {
            return self.failed;
        };
        failed_of(running, outcome, at).or(self.failed)
    }

    /// Removes the queued action of that call, keeping the order of the others, and appends it to the results as cancelled. If
    /// there is none, nothing changes.
    pub fn withdraw(&mut self, call: CallId, at: Moment) -> Result<(), NotQueued>
        ensures refused { IsErr result ↔ (queued_of call self.old.queue ≡ None) }
        ensures unchanged { OnErr result (self.new ≡ self.old) }
        ensures withdrawn { OnOk result (self.new ≡ withdrawn call at self.old) }
    {
        let op = self.queued_of(call).ok_or(NotQueued)?;
        self.queue.retain(|queued| queued.op().call != call);
        self.ended.push(cancelled_of(op, at));
        Ok(())
    }

    /// Drops the queued actions, in order, and then interrupts the running one, so that its result is kept. None is a failure.
    pub fn drop_all(&mut self, at: Moment)
        ensures { self.new ≡ booted at self.old }
    {
        self.ended.push_dropped(self.queue.as_slice(), at);
        self.queue.clear();
        self.ended.push_run(self.running, Outcome::Interrupted, at);
        self.running = None;
    }

    /// Removes all results and the last failure.
    pub fn forget(&mut self)
        ensures { self.new ≡ forgotten self.old }
    {
        self.ended.clear();
        self.failed = None;
    }

    /// Removes what the journal's first layout does not keep: the last failure, and all results except the last 16.
    pub fn in_first(&mut self)
        ensures { self.new ≡ history_in First self.old }
    {
        self.ended.cut(Layout::First);
        self.failed = None;
    }
}
