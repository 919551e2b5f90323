//! The running actions that a change ends.
ghost use Rattle.std.specs.Prelude.{◌≡◌, ◌≤◌, length};
ghost use Rattle.resource_status.specs.Runs.{end_of, EndsWithin, IsAlone};

use exec_state::State;
use ocf_model::StateView;
use ocf_types::{Change, Outcome, Params, RscId, Step};

/// The outcome by which a change ends the running action of a resource; `None` if it does not end it.
pub fn end_of(change: &Change<Params>, id: &RscId) -> Option<Outcome>
    ensures { result ≡ end_of change.now id.now }
{
    match change {
        Change::Step(of, Step::Result { run: _, end }) => {
            if of == id {
                Some(Outcome::Run(*end))
            } else {
                None
            }
        }
        Change::Boot => Some(Outcome::Interrupted),
        _ => None,
    }
}

// The index of a resource and the one after it. All indexes if there is no such resource.
fn index_alone(state: &State, id: &RscId) -> (usize, usize)
    ensures range { (result.0 ≤ result.1) × (result.1 ≤ length state.now.state.resources) }
    ensures others { IsAlone state.now.state id.now result.0 result.1 }
{
    state.lemma_known();
    match state.index_of(id) {
        Some(index) => (index, index + 1),
        None => (0, state.len()),
    }
}

/// The indexes of the resources whose running actions a change may end, from the first one on and below the second: of a result that of
/// its resource, of a boot all, else none. It takes at most one look-up by hash.
pub fn ending(state: &State, change: &Change<Params>) -> (usize, usize)
    ensures range { (result.0 ≤ result.1) × (result.1 ≤ length state.now.state.resources) }
    ensures others { EndsWithin state.now.state change.now result.0 result.1 }
{
    match change {
        Change::Step(id, Step::Result { .. }) => index_alone(state, id),
        Change::Boot => (0, state.len()),
        _ => (0, 0),
    }
}
