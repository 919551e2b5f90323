//! What is shown of each resource.
ghost use Rattle.std.specs.Prelude.{◌≡◌, ◌<◌, length, IfOk};
ghost use Rattle.ocf_model.specs.Indexes.{entry_at};
ghost use Rattle.status_table.specs.Rows.{is_shown, row_of, rows_of};

use crate::options::StatusOptions;
use exec_state::State;
use growth::{Refused, push};
use ocf_model::StateView;
use ocf_types::{Ended, RscId, Running};
use resource_status::{Condition, RecordedById, Since, condition_by, recorded_of, since_by};
use std::alloc::Global;

/// What is shown of a resource.
#[derive(Drop)]
pub struct Row {
    /// Its id.
    pub id: RscId,
    /// Whether it is shown.
    pub is_shown: bool,
    /// Its condition, by the records and its last failure.
    pub condition: Condition,
    /// Since when it is in that condition.
    pub since: Option<Since>,
    /// The action that runs.
    pub running: Option<Running>,
    /// The number of actions that are queued.
    pub queued: usize,
    /// Its last failure.
    pub failed: Option<Ended>,
}

// Whether a resource of this condition is shown.
fn is_shown(options: &StatusOptions, id: &RscId, condition: Condition) -> bool
    ensures { result ≡ is_shown options.now id.now condition }
{
    options.asks_for(id) && (!options.only_bad || condition.is_bad())
}

// What is shown of the resource at an index.
fn row_of(options: &StatusOptions, recorded: &RecordedById, state: &State, index: usize) -> Row
    requires { index < length state.now.state.resources }
    ensures { result ≡ row_of options.now recorded.now.entries (entry_at state.now.state index) }
{
    let id = state.id_at(index);
    let held = recorded_of(recorded, id);
    let condition = condition_by(&held, state.failed_at(index));
    Row {
        id: id.copied(),
        is_shown: is_shown(options, id, condition),
        condition,
        since: since_by(&held, state.failed_at(index)),
        running: state.running_at(index),
        queued: state.queue_len(index),
        failed: state.failed_at(index),
    }
}

/// What is shown of each resource, in order of registration.
#[tactic(auto, using(crate::proofs::RowLemmas::row_more))]
pub fn rows_of(
    alloc: Global,
    options: &StatusOptions,
    recorded: &RecordedById,
    state: &State,
) -> Result<Vec<Row>, Refused>
    ensures rows { IfOk result
        (λ rows. rows.items ≡ rows_of options.now recorded.now.entries state.now.state) }
{
    let mut rows = Vec::new(alloc);
    for index in 0..state.len() {
        push(&mut rows, row_of(options, recorded, state, index))?;
    }
    Ok(rows)
}
