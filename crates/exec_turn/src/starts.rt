//! The third batch of a turn: starts of agent processes, and results of those that were refused.
ghost use Rattle.std.specs.Prelude.{◌≡◌, ◌<◌, ◌≤◌, ◌+◌, ◌++◌, [], List, Result, length, map, vec_len};
ghost use Rattle.std.specs.List.{AllByRecursion};
ghost use Rattle.std.specs.Vec.{vec_capacity};
ghost use Rattle.ocf_types.specs.declared.outcome.StartFault.{StartFault};
ghost use Rattle.ocf_types.specs.declared.notice.Notice.{Notice};
ghost use Rattle.child_model.specs.Children.{after_start, live_limit};
ghost use Rattle.child_model.specs.MayStart.{IsLaunch};
ghost use Rattle.store_model.specs.Calls.{IsSettled};
ghost use Rattle.exec_turn.specs.Buffers.{GrowsInRoom};
ghost use Rattle.exec_turn.specs.Actives.{notice_of, result_of};
ghost use Rattle.exec_turn.specs.Launches.{AllLaunch, HasOwnLaunch, actions_of_starts, action_of_start};
ghost use Rattle.exec_turn.specs.Starts.{Rising, Starts, refused_end};

use crate::picks::Start;
use child_model::Children;
use exec_state::State;
use growth::Grows;
use ocf_types::{Change, Event, EventOf, Moment, Notice, Outcome, RunEnd, Step};
use op_history::run_notice;
use store_model::Store;

// Spawns the agent of one start: if that is refused, its result is appended to the batch, and its notice to the notices.
fn start_one<T: Store + Drop, C: Children, A: Grows>(
    state: &State<A>,
    store: &T,
    children: &mut C,
    start: &Start<A>,
    at: Moment,
    batch: &mut Vec<Event<A>, A>,
    notices: &mut Vec<Notice, A>,
)
    requires settled { IsSettled (T.view store.now) state.now.state }
    requires launches { IsLaunch (C.view children.old).site state.now.state start.now.launch }
    requires of_one { HasOwnLaunch start.now }
    requires rising { (C.view children.old).last_run < start.now.running.run }
    requires ended { (C.view children.old).given_up ≡ [] }
    requires few { length (C.view children.old).live < live_limit }
    requires room { 0 < (C.view children.old).room }
    requires batch_room { vec_len batch.old < vec_capacity batch.old }
    requires notice_room { vec_len notices.old < vec_capacity notices.old }
    ensures started { (answer : Result Unit StartFault)
        × (C.view children.new
        ≡ after_start (C.view children.old) start.now.running.run
        (T.view store.now).clock answer)
        × (batch.new.items ≡ batch.old.items ++ map (result_of at (action_of_start start.now))
        (refused_end answer))
        × (notices.new.items ≡ notices.old.items ++ map (notice_of at (action_of_start start.now))
        (refused_end answer)) }
    ensures batch { GrowsInRoom 1 batch.old batch.new }
    ensures notices { GrowsInRoom 1 notices.old notices.new }
{
    let Err(fault) = children.start(store, &start.launch) else {
        return;
    };
    let (run, end) = (start.running.run, RunEnd::NotStarted(fault));
    let change = Change::Step(start.launch.id.copied(), Step::Result { run, end });
    batch.push_reserved(EventOf { at, change });
    let id = start.launch.id.copied();
    let notice = run_notice(id, start.running, Outcome::Run(end), at);
    notices.push_reserved(notice);
}

/// Spawns the agent of each start, in order. The store must hold a state in which all these actions run, and all that
/// were given up must have been ended. `batch` becomes the results of the refused ones, and their notices are appended to `notices`.
pub(crate) fn start_all<T: Store + Drop, C: Children, A: Grows>(
    state: &State<A>,
    store: &T,
    children: &mut C,
    starts: &[Start<A>],
    at: Moment,
    batch: &mut Vec<Event<A>, A>,
    notices: &mut Vec<Notice, A>,
)
    requires settled { IsSettled (T.view store.now) state.now.state }
    requires launches { AllLaunch (C.view children.old).site state.now.state starts.now }
    requires of_one { AllByRecursion HasOwnLaunch starts.now }
    requires rising { Rising (C.view children.old).last_run (actions_of_starts starts.now) }
    requires ended { (C.view children.old).given_up ≡ [] }
    requires few { length (C.view children.old).live + length starts.now ≤ live_limit }
    requires room { length starts.now ≤ (C.view children.old).room }
    requires batch_room { length starts.now ≤ vec_capacity batch.old }
    requires notice_room { vec_len notices.old + length starts.now ≤ vec_capacity notices.old }
    ensures started { (reported : List Notice)
        × Starts at (T.view store.now).clock (actions_of_starts starts.now)
        (C.view children.old)
        (C.view children.new) batch.new.items reported
        × (notices.new.items ≡ notices.old.items ++ reported) }
    ensures batch_room { vec_capacity batch.new ≡ vec_capacity batch.old }
    ensures notice_room { vec_capacity notices.new ≡ vec_capacity notices.old }
{
    batch.clear();
    for start in starts {
        start_one(state, store, children, start, at, batch, notices);
    }
}
