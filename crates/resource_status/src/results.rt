//! The last result of a recurring monitor.
ghost use Rattle.std.specs.Prelude.{◌≡◌, ◌<◌, length};
ghost use Rattle.ocf_model.specs.Indexes.{at_index};
ghost use Rattle.resource_status.specs.Results.{is_run, last_of};

use exec_state::State;
use ocf_model::StateView;
use ocf_types::{CallId, Ended};

// Whether a result is of the recurring monitor of this call.
fn is_run(call: CallId, ended: &Ended) -> bool
    ensures { result ≡ is_run call ended.now }
{
    ended.call == call && ended.interval != 0
}

/// The last result of a recurring monitor.
pub fn last_run(state: &State, index: usize, call: CallId) -> Option<Ended>
    requires { index < length state.now.state.resources }
    ensures { result ≡ last_of (is_run call) (at_index state.now.state index).history.ended }
{
    let mut last = None;
    for at in 0..state.ended_len(index) {
        let ended = state.ended_at(index, at);
        if is_run(call, &ended) {
            last = Some(ended);
        }
    }
    last
}
