//! The codes and ages of results.
ghost use Rattle.std.specs.Prelude.{◌≡◌, ◌<◌, ◌++◌, length};
ghost use Rattle.ocf_model.specs.Indexes.{at_index};
ghost use Rattle.exec_metrics.specs.Samples.{age, age_sample, code_labels, code_sample, last_result};

use crate::family::Family;
use crate::label::add_next_label;
use crate::sample::{add_plain, begin, finish};
use exec_state::State;
use line_text::LineText;
use ocf_codes::code_of;
use ocf_model::StateView;
use ocf_types::{Ended, Moment, RscId};

/// The age of a result, if there is one, in whole seconds; 0 for one that is ahead of the clock.
pub fn age(now: Moment, found: Option<Ended>) -> Option<u64>
    ensures { result ≡ age now found }
{
    match found {
        Some(ended) => Some(now.get().saturating_sub(ended.at.get()) / 1_000),
        None => None,
    }
}

/// The last result in a resource's history.
pub fn last_result(state: &State, index: usize) -> Option<Ended>
    requires { index < length state.now.state.resources }
    ensures { result ≡ last_result (at_index state.now.state index).history.ended }
{
    let results = state.ended_len(index);
    if results == 0 {
        None
    } else {
        Some(state.ended_at(index, results - 1))
    }
}

// Adds the labels of a code: the action and the outcome.
fn add_code_labels(text: &mut LineText, ended: &Ended)
    ensures { text.new ≡ text.old ++ code_labels ended.now }
{
    add_next_label(text, "action", ended.action.word().as_bytes());
    add_next_label(text, "outcome", ended.outcome.word().as_bytes());
}

/// Adds the code of a result, if there is one.
pub fn add_code(text: &mut LineText, family: Family, id: &RscId, found: Option<Ended>)
    ensures { text.new ≡ text.old ++ code_sample family id.now found }
{
    if let Some(ended) = found {
        begin(text, family, id);
        add_code_labels(text, &ended);
        finish(text, u64::from(code_of(ended.outcome)));
    }
}

/// Adds the age of a result, if there is one.
pub fn add_age(text: &mut LineText, family: Family, id: &RscId, age: Option<u64>)
    ensures { text.new ≡ text.old ++ age_sample family id.now age }
{
    if let Some(seconds) = age {
        add_plain(text, family, id, seconds);
    }
}
