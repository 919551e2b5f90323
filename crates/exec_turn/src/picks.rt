//! The second batch of a turn: the actions that it begins.
ghost use Rattle.std.specs.Prelude.{◌≡◌, ◌<◌, ◌≤◌, IfOk, IsTrue, length, vec_len};
ghost use Rattle.std.specs.List.{AllByRecursion};
ghost use Rattle.std.specs.Vec.{vec_capacity};
ghost use Rattle.exec_state.specs.StateValue.{dues};
ghost use Rattle.ocf_types.specs.Limits.{longest_begin};
ghost use Rattle.ocf_model.specs.Indexes.{id_at};
ghost use Rattle.ocf_types.specs.Encoding.{encoded_event};
ghost use Rattle.exec_turn.specs.Launches.{IsStart, actions_of_starts, action_of_start};
ghost use Rattle.exec_turn.specs.Picks.{Picked, begin_of, begins};

use child_model::Children;
use exec_state::State;
use growth::{Grows, Refused};
use ocf_env::{Instance, Invocation, LaunchOf, Site, launch};
use ocf_model::laws::lemma_lengths;
use ocf_model::{StateView, TurnEnd};
use ocf_types::{Change, Event, EventOf, Moment, RunId, Running, Step};
use std::alloc::{Allocator, Global};
use store_model::Store;

/// An action to be spawned once its begin is recorded, and its launch. `I` is the type of the invocation.
#[derive(Drop)]
pub(crate) struct StartOf<I> {
    pub(crate) launch: LaunchOf<I>,
    pub(crate) running: Running,
}

/// A start whose strings are allocated by `A`.
pub(crate) type Start<A = Global> = StartOf<Invocation<A>>;

// The begin of an action of the resource at an index.
fn begin_at<A: Grows>(state: &State<A>, index: usize, running: &Running, at: Moment) -> Event<A>
    requires index { index < length state.now.state.resources }
    ensures begin { result
        ≡ begin_of at (record { id = id_at state.now.state index; running = running.now }) }
    ensures short { length (encoded_event result) ≤ longest_begin }
{
    lemma_lengths();
    let id = state.id_at(index).copied();
    let step = Step::Begin {
        call: running.call,
        run: running.run,
    };
    EventOf {
        at,
        change: Change::Step(id, step),
    }
}

// The start of an action of the resource at an index. The only error is a refused allocation.
fn start_of<A: Grows, S: Allocator>(
    alloc: A,
    site: &Site<S>,
    state: &State<A>,
    index: usize,
    running: Running,
) -> Result<Start<A>, Refused<A>>
    requires index { index < length state.now.state.resources }
    ensures start { IfOk result (IsStart site.now state.now.state) }
    ensures what { IfOk result
        (λ start. action_of_start start
        ≡ record { id = id_at state.now.state index; running = running }) }
{
    state.lemma_known();
    let instance = Instance {
        id: state.id_at(index),
        provider: state.provider_at(index),
        agent: state.agent_at(index),
        params: state.params_at(index),
    };
    let action = &running;
    let launch = launch(alloc, site, &instance, *action)?;
    Ok(StartOf { launch, running })
}

/// Picks the action that each resource begins at `at`, in order of registration, none for a resource that the children hold; puts
/// its begin into `batch` and its start into `starts`. Ends before the first action for which run numbers, the store's space or memory
/// have run out, and returns which; else `Done`. Where [`State::rests`] says that nothing begins, no resource is looked at.
pub(crate) fn pick_all<T: Store + Drop, C: Children, A: Grows, S: Allocator>(
    alloc: A,
    site: &Site<S>,
    children: &C,
    state: &State<A>,
    store: &T,
    at: Moment,
    batch: &mut Vec<Event<A>, A>,
    starts: &mut Vec<Start<A>, A>,
) -> TurnEnd
    requires batch_room { length state.now.state.resources ≤ vec_capacity batch.old }
    requires start_room { length state.now.state.resources ≤ vec_capacity starts.old }
    ensures picked { Picked (C.view children.now).held result state.now.state (dues state.now)
        (T.view store.now).tail at (actions_of_starts starts.new.items) }
    ensures batch { batch.new.items ≡ begins at (actions_of_starts starts.new.items) }
    ensures are_starts { AllByRecursion (IsStart site.now state.now.state) starts.new.items }
    ensures few { vec_len starts.new ≤ length state.now.state.resources }
    ensures batch_room { vec_capacity batch.new ≡ vec_capacity batch.old }
    ensures start_room { vec_capacity starts.new ≡ vec_capacity starts.old }
    ensures memory { result ≡ TurnEnd.Memory → IsTrue A.refuses }
{
    batch.clear();
    starts.clear();
    state.lemma_known();
    if state.rests(at) {
        return TurnEnd::Done;
    }
    let mut run = state.next_run();
    let mut len = 0;
    for index in 0..state.len() {
        if children.holds(state.id_at(index)) {
            continue;
        }
        let Some(running) = state.pick(index, run, at) else {
            continue;
        };
        let Some(next) = RunId::new(run.get() + 1) else {
            return TurnEnd::RunsSpent;
        };
        let begin = begin_at(state, index, &running, at);
        len += begin.encoded_len();
        if !store.fits(len) {
            return TurnEnd::Full;
        }
        let Ok(start) = start_of(alloc, site, state, index, running) else {
            return TurnEnd::Memory;
        };
        batch.push_reserved(begin);
        starts.push_reserved(start);
        run = next;
    }
    TurnEnd::Done
}
