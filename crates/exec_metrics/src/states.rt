//! Adds the state of a resource, as a sample for each state.
ghost use Rattle.std.specs.Prelude.{◌≡◌, ◌++◌};
ghost use Rattle.exec_metrics.specs.Samples.{is_same, state_sample, state_samples};

use crate::family::Family;
use crate::label::add_next_label;
use crate::sample::{begin, bit, finish};
use line_text::LineText;
use ocf_types::RscId;
use resource_status::Condition;

fn is_same(is: Condition, condition: Condition) -> bool
    ensures { result ≡ is_same is condition }
{
    is.word().as_bytes() == condition.word().as_bytes()
}

// Adds the sample for a state: whether it is the state of the resource.
fn add_state(text: &mut LineText, id: &RscId, is: Condition, condition: Condition)
    ensures { text.new ≡ text.old ++ state_sample id.now is condition }
{
    begin(text, Family::State, id);
    add_next_label(text, "state", condition.word().as_bytes());
    finish(text, bit(is_same(is, condition)));
}

/// Adds the samples for all states.
pub fn add_states(text: &mut LineText, id: &RscId, is: Condition)
    ensures { text.new ≡ text.old ++ state_samples id.now is }
{
    add_state(text, id, is, Condition::NeverRun);
    add_state(text, id, is, Condition::Started);
    add_state(text, id, is, Condition::Promoted);
    add_state(text, id, is, Condition::Stopped);
    add_state(text, id, is, Condition::Failed);
    add_state(text, id, is, Condition::Unknown);
}
