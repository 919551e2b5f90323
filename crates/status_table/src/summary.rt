//! The lines above and below the rows: that no executor has the journal, and how many resources are in each condition.
use crate::options::StatusOptions;
use crate::phrases::{add_time, age_of, is_ahead};
use crate::rows::Row;
use exec_state::State;
use line_text::LineText;
use ocf_model::StateView;
use ocf_types::Moment;
use resource_status::Condition;
use std::alloc::Global;

// The conditions, in the order in which they are counted.
const CONDITIONS: [Condition; 6] = [
    Condition::Started,
    Condition::Promoted,
    Condition::Failed,
    Condition::Unknown,
    Condition::Stopped,
    Condition::NeverRun,
];

// Appends how old the last record of a journal is.
fn add_last_record(alloc: Global, line: &mut LineText, options: &StatusOptions, last: Moment) {
    if last.get() == 0 {
        return line.text("it has no record");
    }
    line.text("its last record is ");
    if options.times {
        line.text("of ");
        add_time(alloc, line, last);
    } else if is_ahead(options, last) {
        line.text("in the future by the clock");
    } else {
        line.span(age_of(options, last));
        line.text(" old");
    }
}

/// Appends that no executor has the journal, if that is known.
pub(crate) fn add_left(alloc: Global, line: &mut LineText, options: &StatusOptions, state: &State) {
    if options.is_left() {
        line.text("no executor has this journal; ");
        add_last_record(alloc, line, options, state.clock());
        line.byte(b'\n');
    }
}

// The number of resources in a condition.
fn count_in(rows: &[Row], condition: Condition) -> u64 {
    let mut count = 0u64;
    for row in rows {
        if row.condition == condition {
            count = count.saturating_add(1);
        }
    }
    count
}

/// Appends how many resources there are, and how many of them in each condition.
pub(crate) fn add_summary(line: &mut LineText, rows: &[Row]) {
    line.number(rows.len() as u64);
    line.text(if rows.len() == 1 {
        " resource"
    } else {
        " resources"
    });
    let mut sign = ": ";
    for condition in CONDITIONS {
        let count = count_in(rows, condition);
        if count > 0 {
            line.text(sign);
            line.number(count);
            line.byte(b' ');
            line.text(condition.word());
            sign = ", ";
        }
    }
    line.byte(b'\n');
}
