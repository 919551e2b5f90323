//! The families of a journal, one after the other.
ghost use Rattle.std.specs.Prelude.{◌≡◌, ◌<◌, ◌++◌, ◌∷◌, [], length, IfOk};
ghost use Rattle.std.specs.List.{flat_map};
ghost use Rattle.ocf_model.specs.Indexes.{entry_at};
ghost use Rattle.exec_metrics.specs.Metrics.{family_of, journal_families, lines_in, measure_of, of_actions, of_journal, of_results, samples, GoesOn};

use crate::family::{Family, add_header};
use crate::monitors::{add_ages, add_codes};
use crate::results::{add_age, add_code, age, last_result};
use crate::sample::{add_bare, add_plain, bit};
use crate::states::add_states;
use exec_state::State;
use growth::Refused;
use journal_log::Measured;
use line_text::LineText;
use ocf_model::StateView;
use ocf_types::Moment;
use resource_status::{condition_by, count_of, recorded_of};
use std::alloc::Global;

/// The moment at which metrics are taken, and the measure of the journal.
#[derive(Drop)]
pub struct Taken {
    /// The moment from which ages are counted.
    pub moment: Moment,
    /// The measure of the journal.
    pub measured: Measured,
}

// The index of a resource, and the family of its samples.
#[derive(Clone, Copy)]
struct Row {
    index: usize,
    family: Family,
}

// Adds the samples of a resource in a family.
fn add_samples(text: &mut LineText, taken: &Taken, state: &State, row: Row)
    requires { row.index < length state.now.state.resources }
    ensures { text.new ≡ text.old
        ++ samples (measure_of taken.now) row.family (entry_at state.now.state row.index) }
{
    let Row { index, family } = row;
    let id = state.id_at(index);
    let now = taken.moment;
    match family {
        Family::State => {
            let recorded = recorded_of(&taken.measured.recorded, id);
            add_states(text, id, condition_by(&recorded, state.failed_at(index)));
        }
        Family::Queued => add_plain(text, family, id, state.queue_len(index) as u64),
        Family::Running => add_plain(text, family, id, bit(state.running_at(index).is_some())),
        Family::ResourceRuns => {
            add_plain(text, family, id, count_of(&taken.measured.counts, id).runs);
        }
        Family::ResourceFailures => {
            add_plain(
                text,
                family,
                id,
                count_of(&taken.measured.counts, id).failures,
            );
        }
        Family::LastCode => add_code(text, family, id, last_result(state, index)),
        Family::LastAge => add_age(text, family, id, age(now, last_result(state, index))),
        Family::FailureCode => add_code(text, family, id, state.failed_at(index)),
        Family::FailureAge => add_age(text, family, id, age(now, state.failed_at(index))),
        Family::MonitorCode => add_codes(text, state, index),
        Family::MonitorAge => add_ages(text, now, state, index),
        Family::Epoch | Family::Bytes | Family::Calls | Family::Runs | Family::Resources => {}
        Family::Up | Family::Opened | Family::RecordAge | Family::Held => {}
    }
}

// Adds the samples of each resource in a family, in order of registration.
fn add_resources(text: &mut LineText, taken: &Taken, state: &State, family: Family)
    ensures { text.new ≡ text.old
        ++ flat_map (samples (measure_of taken.now) family) state.now.state.resources }
{
    for index in 0..state.len() {
        add_samples(text, taken, state, Row { index, family });
    }
}

// Adds the samples of a family.
fn add_lines(text: &mut LineText, taken: &Taken, state: &State, family: Family)
    ensures { text.new ≡ text.old ++ lines_in (measure_of taken.now) state.now.state family }
{
    let size = taken.measured.size;
    match family {
        Family::Epoch => add_bare(text, family, size.epoch),
        Family::Bytes => add_bare(text, family, size.bytes),
        Family::Calls => add_bare(text, family, state.next_call().get().saturating_sub(1)),
        Family::Runs => add_bare(text, family, state.next_run().get().saturating_sub(1)),
        Family::Resources => add_bare(text, family, state.len() as u64),
        _ => add_resources(text, taken, state, family),
    }
}

// Adds a family.
fn add_family(text: &mut LineText, taken: &Taken, state: &State, family: Family)
    ensures { GoesOn (family_of (measure_of taken.now) state.now.state family ∷ []) text.old text.new }
{
    add_header(text, family);
    add_lines(text, taken, state, family);
}

// Adds the families of the journal.
fn add_journal(text: &mut LineText, taken: &Taken, state: &State)
    ensures { GoesOn (of_journal (measure_of taken.now) state.now.state) text.old text.new }
{
    add_family(text, taken, state, Family::Epoch);
    add_family(text, taken, state, Family::Bytes);
    add_family(text, taken, state, Family::Calls);
    add_family(text, taken, state, Family::Runs);
    add_family(text, taken, state, Family::Resources);
}

// Adds the families of what the resources do and did.
fn add_actions(text: &mut LineText, taken: &Taken, state: &State)
    ensures { GoesOn (of_actions (measure_of taken.now) state.now.state) text.old text.new }
{
    add_family(text, taken, state, Family::State);
    add_family(text, taken, state, Family::Queued);
    add_family(text, taken, state, Family::Running);
    add_family(text, taken, state, Family::ResourceRuns);
    add_family(text, taken, state, Family::ResourceFailures);
}

// Adds the families of the last results.
fn add_results(text: &mut LineText, taken: &Taken, state: &State)
    ensures { GoesOn (of_results (measure_of taken.now) state.now.state) text.old text.new }
{
    add_family(text, taken, state, Family::LastCode);
    add_family(text, taken, state, Family::LastAge);
    add_family(text, taken, state, Family::FailureCode);
    add_family(text, taken, state, Family::FailureAge);
    add_family(text, taken, state, Family::MonitorCode);
    add_family(text, taken, state, Family::MonitorAge);
}

// Adds all families.
fn add_families(text: &mut LineText, taken: &Taken, state: &State)
    ensures { GoesOn (journal_families (measure_of taken.now) state.now.state) text.old text.new }
{
    add_journal(text, taken, state);
    add_actions(text, taken, state);
    add_results(text, taken, state);
}

/// The metrics of a journal.
pub fn metrics_text(alloc: Global, taken: &Taken, state: &State) -> Result<Vec<u8>, Refused>
    ensures text { IfOk result
        (λ text. GoesOn (journal_families (measure_of taken.now) state.now.state) [] text.items) }
{
    let mut text = LineText::new(alloc);
    add_families(&mut text, taken, state);
    text.finish()
}
