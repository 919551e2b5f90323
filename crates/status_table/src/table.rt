//! The status of resources as a table for a person: a row of each, and lines below it where something is wrong.
ghost use Rattle.std.specs.Prelude.{◌<◌, length};

use crate::details::{add_details, has_details, is_degraded};
use crate::options::StatusOptions;
use crate::phrases::{add_condition, add_painted, add_running, tone_of_condition};
use crate::rows::Row;
use crate::summary::{add_left, add_summary};
use crate::widths::{add_column, add_fitted, pad, width_of};
use exec_state::State;
use growth::{Refused, append, push, vec_of};
use line_text::LineText;
use ocf_model::StateView;
use std::alloc::Global;

// The columns between two cells of a row.
const GAP: usize = 2;

// The fewest columns to which an id or an agent is cut.
const LEAST: usize = 12;

// The cells of a row.
#[derive(Drop)]
struct Cells {
    agent: Vec<u8>,
    condition: Vec<u8>,
    now: Vec<u8>,
}

// The widths of the cells of all rows.
#[derive(Clone, Copy)]
struct Widths {
    id: usize,
    agent: usize,
    condition: usize,
    now: usize,
}

impl Widths {
    // Widths for the headings.
    fn of_head() -> Widths {
        Widths {
            id: "RESOURCE".len(),
            agent: "AGENT".len(),
            condition: "STATE".len(),
            now: "NOW".len(),
        }
    }

    // Widths for one more row.
    fn with(self, row: &Row, cells: &Cells) -> Widths {
        Widths {
            id: self.id.max(width_of(row.id.as_bytes())),
            agent: self.agent.max(width_of(cells.agent.as_slice())),
            condition: self.condition.max(width_of(cells.condition.as_slice())),
            now: self.now.max(width_of(cells.now.as_slice())),
        }
    }

    // The columns by which a row is longer than a terminal of this width.
    fn excess(self, width: usize) -> usize {
        let cells = self
            .id
            .saturating_add(self.agent)
            .saturating_add(self.condition)
            .saturating_add(self.now);
        cells.saturating_add(3 * GAP).saturating_sub(width)
    }

    // Widths with which no row is longer than a terminal of this width: ids are cut first, then agents, and then what runs now.
    fn within(self, width: usize) -> Widths {
        let id = cut(self.id, self.excess(width));
        let narrow = Widths { id, ..self };
        let agent = cut(narrow.agent, narrow.excess(width));
        let narrow = Widths { agent, ..narrow };
        let now = narrow.now.saturating_sub(narrow.excess(width));
        Widths { now, ..narrow }
    }
}

// A width with some columns less, but for the least ones.
fn cut(width: usize, columns: usize) -> usize {
    width.saturating_sub(columns).max(width.min(LEAST))
}

// The agent of a resource, as `heartbeat:nginx`.
fn agent_of(alloc: Global, state: &State, index: usize) -> Result<Vec<u8>, Refused>
    requires { index < length state.now.state.resources }
{
    let mut text = vec_of(alloc, state.provider_at(index).as_bytes())?;
    append(&mut text, b":")?;
    append(&mut text, state.agent_at(index).as_bytes())?;
    Ok(text)
}

// The condition of a resource, without colour.
fn condition_of(
    alloc: Global,
    options: &StatusOptions,
    state: &State,
    index: usize,
    row: &Row,
) -> Result<Vec<u8>, Refused>
    requires { index < length state.now.state.resources }
{
    let mut line = LineText::new(alloc);
    add_condition(alloc, &mut line, options, row);
    if is_degraded(state, index, row) {
        line.text(", degraded");
    }
    line.finish()
}

// What a resource does now: what runs, whether it is held, and how many actions are queued.
fn now_of(alloc: Global, options: &StatusOptions, row: &Row) -> Result<Vec<u8>, Refused> {
    let mut line = LineText::new(alloc);
    let mut sign = "";
    match &row.running {
        Some(running) => {
            add_running(&mut line, options, running);
            sign = ", ";
        }
        None => {
            if options.wait_of(&row.id).is_some() {
                line.text("held");
                sign = ", ";
            }
        }
    }
    if row.queued > 0 {
        line.text(sign);
        line.number(row.queued as u64);
        line.text(" queued");
    }
    line.finish()
}

// The cells of a row.
fn cells_of(
    alloc: Global,
    options: &StatusOptions,
    state: &State,
    index: usize,
    row: &Row,
) -> Result<Cells, Refused>
    requires { index < length state.now.state.resources }
{
    Ok(Cells {
        agent: agent_of(alloc, state, index)?,
        condition: condition_of(alloc, options, state, index, row)?,
        now: now_of(alloc, options, row)?,
    })
}

// The cells of each row.
fn all_cells(
    alloc: Global,
    options: &StatusOptions,
    state: &State,
    rows: &[Row],
) -> Result<Vec<Cells>, Refused> {
    let mut cells = Vec::new(alloc);
    for index in 0..state.len() {
        if let Some(row) = rows.get(index) {
            push(&mut cells, cells_of(alloc, options, state, index, row)?)?;
        }
    }
    Ok(cells)
}

// Widths wide enough for the rows that are shown, within the terminal.
fn widths_of(options: &StatusOptions, rows: &[Row], cells: &[Cells]) -> Widths {
    let mut widths = Widths::of_head();
    for (row, cells) in rows.iter().zip(cells) {
        if row.is_shown {
            widths = widths.with(row, cells);
        }
    }
    match options.width {
        Some(width) => widths.within(width),
        None => widths,
    }
}

// Appends a cell and the gap after it.
fn add_cell(line: &mut LineText, text: &[u8], columns: usize) {
    add_column(line, text, columns);
    line.text("  ");
}

// Appends the line above the rows.
fn add_head(line: &mut LineText, widths: Widths) {
    add_cell(line, b"RESOURCE", widths.id);
    add_cell(line, b"AGENT", widths.agent);
    add_cell(line, b"STATE", widths.condition);
    line.text("NOW\n");
}

// Appends the condition of a resource in its colour, and what it does now.
fn add_state(
    line: &mut LineText,
    options: &StatusOptions,
    row: &Row,
    cells: &Cells,
    widths: Widths,
) {
    let condition = cells.condition.as_slice();
    add_painted(
        line,
        options.colours,
        tone_of_condition(row.condition),
        condition,
    );
    if !cells.now.as_slice().is_empty() {
        pad(
            line,
            width_of(condition),
            widths.condition.saturating_add(GAP),
        );
        add_fitted(line, cells.now.as_slice(), widths.now);
    }
}

// Appends a row, and the lines below it.
fn add_row(
    alloc: Global,
    line: &mut LineText,
    options: &StatusOptions,
    state: &State,
    place: (usize, Widths),
    shown: (&Row, &Cells),
)
    requires { place.0 < length state.now.state.resources }
{
    let (index, widths) = place;
    let (row, cells) = shown;
    add_cell(line, row.id.as_bytes(), widths.id);
    add_cell(line, cells.agent.as_slice(), widths.agent);
    add_state(line, options, row, cells, widths);
    if has_details(options, state, index, row) {
        add_details(alloc, line, options, state, index, row);
    }
    line.byte(b'\n');
}

// Appends the rows that are shown.
fn add_rows(
    alloc: Global,
    line: &mut LineText,
    options: &StatusOptions,
    state: &State,
    rows: &[Row],
    cells: &[Cells],
) {
    let widths = widths_of(options, rows, cells);
    add_head(line, widths);
    for index in 0..state.len() {
        if let (Some(row), Some(cells)) = (rows.get(index), cells.get(index)) {
            if row.is_shown {
                add_row(alloc, line, options, state, (index, widths), (row, cells));
            }
        }
    }
}

/// The status of resources as a table: a line of headings, a row of each that is shown, and how many there are in each condition.
pub fn table_of(
    alloc: Global,
    options: &StatusOptions,
    state: &State,
    rows: &[Row],
) -> Result<Vec<u8>, Refused> {
    let cells = all_cells(alloc, options, state, rows)?;
    let mut line = LineText::new(alloc);
    add_left(alloc, &mut line, options, state);
    if rows.iter().any(|row| row.is_shown) {
        add_rows(alloc, &mut line, options, state, rows, cells.as_slice());
    }
    if options.ids.is_empty() {
        add_summary(&mut line, rows);
    }
    line.finish()
}
