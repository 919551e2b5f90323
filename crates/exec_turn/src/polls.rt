//! The first batch of a turn: polls and results.
ghost use Rattle.std.specs.Prelude.{◌≡◌, ◌<◌, ◌≤◌, ◌+◌, ◌*◌, ◌++◌, List, Contains, length, vec_len, Result};
ghost use Rattle.std.specs.List.{AllByRecursion};
ghost use Rattle.std.specs.Vec.{vec_capacity};
ghost use Rattle.ocf_types.specs.Kinds.{Event};
ghost use Rattle.ocf_model.specs.Indexes.{entry_at};
ghost use Rattle.ocf_types.specs.declared.notice.Notice.{Notice};
ghost use Rattle.child_model.specs.declared.answer.KillFault.{KillFault};
ghost use Rattle.child_model.specs.declared.answer.Poll.{Poll};
ghost use Rattle.exec_turn.specs.Buffers.{GrowsInRoom};
ghost use Rattle.exec_ledger.specs.Actives.{active, active_in, runs_of};
ghost use Rattle.exec_turn.specs.AgentsLive.{AgentsLive};
ghost use Rattle.exec_turn.specs.Polls.{IsPoll, Polls, ending, is_late, polled_on};

use child_model::{Children, Poll};
use exec_state::State;
use growth::Grows;
use ocf_model::StateView;
use ocf_types::{Change, Event, EventOf, Moment, Notice, Outcome, RunEnd, Running, Step};
use op_history::run_notice;

// Whether the timeout of an action has passed.
fn is_late(running: &Running, at: Moment) -> bool
    ensures value { result ≡ is_late at running.now }
{
    running.since.get() + u64::from(running.timeout.get()) <= at.get()
}

// Polls one action, and kills it where it runs past its timeout: how it ended, if it did.
fn poll_one<C: Children>(children: &mut C, running: &Running, at: Moment) -> Option<RunEnd>
    requires room { 2 ≤ (C.view children.old).room }
    requires lives { Contains (C.view children.old).live running.now.run }
    ensures polled { (answer : Poll) × (kill : Result Unit KillFault) × IsPoll answer
        × (C.view children.new ≡ polled_on at running.now answer kill (C.view children.old))
        × (result ≡ ending at running.now answer) }
{
    match children.poll(running.run) {
        Poll::Exited(code) => Some(RunEnd::Done(code)),
        Poll::Signaled(_) => Some(RunEnd::Signaled),
        Poll::Fault => Some(RunEnd::Lost),
        Poll::Running => {
            if !is_late(running, at) {
                return None;
            }
            let _ = children.kill(running.run);
            Some(RunEnd::TimedOut)
        }
    }
}

// Polls the running action of the resource at an index: its result, if it has ended, is appended to the batch, and its notice
// to the notices.
fn poll_at<C: Children, A: Grows>(
    state: &State<A>,
    index: usize,
    children: &mut C,
    at: Moment,
    batch: &mut Vec<Event<A>, A>,
    notices: &mut Vec<Notice, A>,
)
    requires index { index < length state.now.state.resources }
    requires lives { AllByRecursion (λ run. Contains (C.view children.old).live run)
        (runs_of (active_in (entry_at state.now.state index))) }
    requires room { 2 * length (active_in (entry_at state.now.state index))
        ≤ (C.view children.old).room }
    requires batch_room { vec_len batch.old < vec_capacity batch.old }
    requires notice_room { vec_len notices.old < vec_capacity notices.old }
    ensures polled { (more : List Event) × (reported : List Notice)
        × Polls at (active_in (entry_at state.now.state index)) (C.view children.old)
        (C.view children.new) more reported
        × (batch.new.items ≡ batch.old.items ++ more)
        × (notices.new.items ≡ notices.old.items ++ reported) }
    ensures batch { GrowsInRoom 1 batch.old batch.new }
    ensures notices { GrowsInRoom 1 notices.old notices.new }
{
    let Some(running) = state.running_at(index) else {
        return;
    };
    let Some(end) = poll_one(children, &running, at) else {
        return;
    };
    let id = state.id_at(index).copied();
    let run = running.run;
    let change = Change::Step(id, Step::Result { run, end });
    batch.push_reserved(EventOf { at, change });
    let id = state.id_at(index).copied();
    let notice = run_notice(id, running, Outcome::Run(end), at);
    notices.push_reserved(notice);
}

/// Polls every running action, in order of registration, and leaves the batch of their results in `batch` and their notices in
/// `notices`. What it kills, or has no answer about, is given up and not ended yet: that is for `end_killed`, for all together.
pub(crate) fn poll_all<C: Children, A: Grows>(
    state: &State<A>,
    children: &mut C,
    at: Moment,
    batch: &mut Vec<Event<A>, A>,
    notices: &mut Vec<Notice, A>,
)
    requires agents_live { AgentsLive state.now.state (C.view children.old).live }
    requires room { 2 * length (active state.now.state) ≤ (C.view children.old).room }
    requires batch_room { length state.now.state.resources ≤ vec_capacity batch.old }
    requires notice_room { length state.now.state.resources ≤ vec_capacity notices.old }
    ensures polled { Polls at (active state.now.state) (C.view children.old)
        (C.view children.new) batch.new.items notices.new.items }
    ensures few { vec_len notices.new ≤ length state.now.state.resources }
    ensures batch_room { vec_capacity batch.new ≡ vec_capacity batch.old }
    ensures notice_room { vec_capacity notices.new ≡ vec_capacity notices.old }
{
    batch.clear();
    notices.clear();
    for index in 0..state.len() {
        poll_at(state, index, children, at, batch, notices);
    }
}
