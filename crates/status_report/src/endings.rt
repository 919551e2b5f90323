//! How a status ends: well, or because a resource is not registered or needs attention, or because no executor has the journal.
ghost use Rattle.std.specs.Prelude.{◌≡◌, ◌<◌, false, length, true, IfNone, IfSome, Some};
ghost use Rattle.ocf_model.specs.Indexes.{id_at};
ghost use Rattle.status_report.specs.Endings.{AllRegistered, IsMissed, IsRegistered, end_of};
ghost use Rattle.status_table.specs.Rows.{is_any_bad};

use exec_faults::Fault;
use exec_state::State;
use ocf_model::StateView;
use status_table::{Row, StatusOptions};

// The index of the resource with this id.
fn index_of(state: &State, id: &str) -> Option<usize>
    ensures within { IfSome result (λ index. index < length state.now.state.resources) }
    ensures index { IfSome result (λ index. id_at state.now.state index ≡ id.now) }
    ensures none { IfNone result (¬ IsRegistered state.now.state id.now) }
{
    for index in 0..state.len() {
        if state.id_at(index).as_bytes() == id.as_bytes() {
            return Some(index);
        }
    }
    None
}

// Whether a resource with this id is registered.
fn is_registered(state: &State, id: &str) -> bool
    ensures yes { result ≡ true → IsRegistered state.now.state id.now }
    ensures no { result ≡ false → ¬ IsRegistered state.now.state id.now }
{
    index_of(state, id).is_some()
}

/// Whether each resource that is named is registered.
pub(crate) fn are_registered(state: &State, ids: &[&str]) -> bool
    ensures yes { result ≡ true → AllRegistered state.now.state ids.now }
    ensures no { result ≡ false → IsMissed state.now.state ids.now }
{
    for id in ids {
        if !is_registered(state, id) {
            return false;
        }
    }
    true
}

// Whether a resource that is shown needs attention.
fn is_any_bad(rows: &[Row]) -> bool
    ensures { result ≡ is_any_bad rows.now }
{
    for row in rows {
        if row.is_shown && row.condition.is_bad() {
            return true;
        }
    }
    false
}

/// How a status ends whose text is written: by a fault if that is asked for, and no executor has the journal or a resource that is shown
/// needs attention.
pub(crate) fn end_of(options: &StatusOptions, rows: &[Row]) -> Result<(), Fault>
    ensures { result ≡ end_of options.now rows.now }
{
    if !options.alarms {
        Ok(())
    } else if options.is_left() {
        Err(Fault::NoExecutor)
    } else if is_any_bad(rows) {
        Err(Fault::NotWell)
    } else {
        Ok(())
    }
}
