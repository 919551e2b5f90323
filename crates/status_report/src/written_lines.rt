//! The status of a journal as lines of JSON, for a program.
ghost use Rattle.std.specs.Prelude.{◌≡◌, IfErr, IsTrue, OnOk};
ghost use Rattle.std.specs.Io.KnownBytes.{Appends};
ghost use Rattle.std.specs.List.{flat_map};
ghost use Rattle.exec_faults.specs.Faults.{HasCause};
ghost use Rattle.exec_lines.specs.declared.io_fault.IoFault.TheVariants.{Memory};
ghost use Rattle.status_report.specs.Endings.{IsWritten};
ghost use Rattle.status_report.specs.StatusLines.{IsLinesOf, prefix_lines, row_lines};

use crate::shown::{write_resource, write_state};
use crate::state_lines::status_lines;
use exec_faults::Fault;
use exec_lines::{IoFault, write_flushed};
use exec_state::State;
use growth::Grows;
use status_table::{Row, StatusOptions};
use std::alloc::Global;
use std::io::Write;

// Writes the replies to `info` and `history` of a resource, if it is shown.
fn write_row<W: Write>(
    alloc: Global,
    writer: &mut W,
    state: &State,
    row: &Row,
) -> Result<(), IoFault>
    ensures written { OnOk result (Appends (W.contents writer.old) (W.contents writer.new)
        (row_lines state.now.state row.now)) }
    ensures memory { IfErr result (λ f. f ≡ Memory → IsTrue ⟦<Global as Grows>⟧.refuses) }
{
    if row.is_shown {
        write_resource(alloc, writer, state, &row.id)
    } else {
        Ok(())
    }
}

// Writes these replies of each resource that is shown.
fn write_shown<W: Write>(
    alloc: Global,
    writer: &mut W,
    state: &State,
    rows: &[Row],
) -> Result<(), IoFault>
    ensures written { OnOk result (Appends (W.contents writer.old) (W.contents writer.new)
        (flat_map (row_lines state.now.state) rows.now)) }
    ensures memory { IfErr result (λ f. f ≡ Memory → IsTrue ⟦<Global as Grows>⟧.refuses) }
{
    for row in rows {
        write_row(alloc, writer, state, row)?;
    }
    Ok(())
}

// Writes what `show` prints, of all resources or of those that are shown.
fn write_prefix<W: Write>(
    alloc: Global,
    writer: &mut W,
    options: &StatusOptions,
    state: &State,
    rows: &[Row],
) -> Result<(), IoFault>
    ensures written { OnOk result (Appends (W.contents writer.old) (W.contents writer.new)
        (prefix_lines options.now state.now.state rows.now)) }
    ensures memory { IfErr result (λ f. f ≡ Memory → IsTrue ⟦<Global as Grows>⟧.refuses) }
{
    if options.ids.is_empty() && !options.only_bad {
        write_state(alloc, writer, state)
    } else {
        write_shown(alloc, writer, state, rows)
    }
}

/// Writes what `show` prints, of all resources or of those that are shown, and then a line with the status of each.
pub(crate) fn write_lines<W: Write>(
    alloc: Global,
    writer: &mut W,
    options: &StatusOptions,
    state: &State,
    rows: &[Row],
) -> Result<(), Fault>
    ensures written { IsWritten (IsLinesOf options.now state.now.state rows.now)
        (W.contents writer.old) (W.contents writer.new) result }
    ensures memory { IfErr result (HasCause ⟦<Global as Grows>⟧.refuses) }
{
    let Ok(lines) = status_lines(alloc, options, rows) else {
        return Err(Fault::ReplyMemory);
    };
    if let Err(fault) = write_prefix(alloc, writer, options, state, rows) {
        return Err(Fault::from(fault));
    }
    match write_flushed(writer, lines.as_slice()) {
        Ok(()) => Ok(()),
        Err(_) => Err(Fault::InputOrOutput),
    }
}
