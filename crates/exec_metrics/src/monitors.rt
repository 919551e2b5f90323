//! The codes and ages of recurring monitors' last results.
ghost use Rattle.std.specs.Prelude.{◌≡◌, ◌<◌, ◌++◌, length};
ghost use Rattle.std.specs.List.{flat_map};
ghost use Rattle.ocf_model.specs.Indexes.{at_index, id_at};
ghost use Rattle.exec_metrics.specs.Samples.{age_of_monitor, code_of_monitor, interval_label, monitor_age, monitor_code, outcome_value};

use crate::family::Family;
use crate::label::add_next_label;
use crate::results::age;
use crate::sample::{begin, finish};
use exec_state::State;
use line_text::LineText;
use ocf_codes::code_of;
use ocf_model::StateView;
use ocf_types::{Ended, Moment, Recur, RscId};
use resource_status::last_run;

// Adds the label for the interval of a recurring monitor.
fn add_interval(text: &mut LineText, recur: &Recur)
    ensures { text.new ≡ text.old ++ interval_label recur.now }
{
    text.text(",interval_ms=\"");
    text.number(u64::from(recur.interval.get()));
    text.text("\"");
}

// Adds the outcome of a result, and its code.
fn add_outcome(text: &mut LineText, ended: &Ended)
    ensures { text.new ≡ text.old ++ outcome_value ended.now }
{
    add_next_label(text, "outcome", ended.outcome.word().as_bytes());
    finish(text, u64::from(code_of(ended.outcome)));
}

// Adds the code of a monitor's last result, if there is one.
fn add_code(text: &mut LineText, id: &RscId, recur: &Recur, last: Option<Ended>)
    ensures { text.new ≡ text.old ++ monitor_code id.now recur.now last }
{
    if let Some(ended) = last {
        begin(text, Family::MonitorCode, id);
        add_interval(text, recur);
        add_outcome(text, &ended);
    }
}

// Adds the age of a monitor's last result, if there is one.
fn add_age(text: &mut LineText, id: &RscId, recur: &Recur, age: Option<u64>)
    ensures { text.new ≡ text.old ++ monitor_age id.now recur.now age }
{
    if let Some(seconds) = age {
        begin(text, Family::MonitorAge, id);
        add_interval(text, recur);
        finish(text, seconds);
    }
}

/// Adds the codes of a resource's recurring monitors.
pub fn add_codes(text: &mut LineText, state: &State, index: usize)
    requires { index < length state.now.state.resources }
    ensures { text.new ≡ text.old ++ flat_map
        (code_of_monitor (id_at state.now.state index)
        (at_index state.now.state index).history.ended)
        (at_index state.now.state index).recurring }
{
    for at in 0..state.recurring_len(index) {
        let recur = state.recurring_at(index, at);
        let last = last_run(state, index, recur.call);
        add_code(text, state.id_at(index), &recur, last);
    }
}

/// Adds the ages of a resource's recurring monitors.
pub fn add_ages(text: &mut LineText, now: Moment, state: &State, index: usize)
    requires { index < length state.now.state.resources }
    ensures { text.new ≡ text.old ++ flat_map
        (age_of_monitor now (id_at state.now.state index)
        (at_index state.now.state index).history.ended)
        (at_index state.now.state index).recurring }
{
    for at in 0..state.recurring_len(index) {
        let recur = state.recurring_at(index, at);
        let seconds = age(now, last_run(state, index, recur.call));
        add_age(text, state.id_at(index), &recur, seconds);
    }
}
