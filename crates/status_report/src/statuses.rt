//! The status of a journal.
ghost use Rattle.std.specs.Prelude.{⊤, IsErrOf, IfErr};
ghost use Rattle.ocf_model.specs.State.{State as PlainState};
ghost use Rattle.disk_model.specs.Disk.{Increased};
ghost use Rattle.exec_journal.specs.Found.{FoundAs};
ghost use Rattle.exec_journal.specs.Opening.{Opens};
ghost use Rattle.exec_faults.specs.Faults.{HasCause, IsRunEnd};
ghost use Rattle.journal_log.specs.RecordedOn.{HasRecorded};
ghost use Rattle.status_report.specs.Endings.{EndsWith, IsWritten, WritesAs};
ghost use Rattle.status_report.specs.StatusLines.{IsText};

use crate::endings::{are_registered, end_of};
use crate::written_lines::write_lines;
use disk_model::Disk;
use exec_faults::Fault;
use exec_journal::Journal;
use exec_lines::write_flushed;
use exec_state::State;
use growth::Grows;
use journal_log::{LogFault, measure};
use resource_status::RecordedById;
use status_table::{Row, StatusOptions, rows_of, table_of};
use std::alloc::Global;
use std::io::Write;

// Writes the status of resources as a table for a person.
fn write_table<W: Write>(
    alloc: Global,
    writer: &mut W,
    options: &StatusOptions,
    state: &State,
    rows: &[Row],
) -> Result<(), Fault>
    ensures written { IsWritten (λ text. ⊤) (W.contents writer.old) (W.contents writer.new) result }
    ensures memory { IfErr result (HasCause ⟦<Global as Grows>⟧.refuses) }
{
    let Ok(text) = table_of(alloc, options, state, rows) else {
        return Err(Fault::ReplyMemory);
    };
    match write_flushed(writer, text.as_slice()) {
        Ok(()) => Ok(()),
        Err(_) => Err(Fault::InputOrOutput),
    }
}

// Writes what is shown of each resource, as the options ask.
fn write_rows<W: Write>(
    alloc: Global,
    writer: &mut W,
    options: &StatusOptions,
    state: &State,
    rows: &[Row],
) -> Result<(), Fault>
    ensures written { IsWritten (IsText options.now state.now.state rows.now)
        (W.contents writer.old) (W.contents writer.new) result }
    ensures memory { IfErr result (HasCause ⟦<Global as Grows>⟧.refuses) }
{
    if options.json {
        write_lines(alloc, writer, options, state, rows)
    } else {
        write_table(alloc, writer, options, state, rows)
    }
}

// Writes the status of a state, with what the records hold of its resources.
fn write_status<W: Write>(
    alloc: Global,
    writer: &mut W,
    options: &StatusOptions,
    state: &State,
    recorded: &RecordedById,
) -> Result<(), Fault>
    ensures written { EndsWith options.now state.now.state recorded.now.entries
        (W.contents writer.old) (W.contents writer.new) result }
    ensures memory { IfErr result (HasCause ⟦<Global as Grows>⟧.refuses) }
{
    if !are_registered(state, options.ids) {
        return Err(Fault::NoResource);
    }
    let Ok(rows) = rows_of(alloc, options, recorded, state) else {
        return Err(Fault::ReplyMemory);
    };
    match write_rows(alloc, writer, options, state, rows.as_slice()) {
        Ok(()) => end_of(options, rows.as_slice()),
        Err(fault) => Err(fault),
    }
}

// Opens a journal whose records hold this of its resources, and writes its status.
#[tactic(auto, using(exec_faults::proofs::FaultLemmas::opening_cause))]
fn write_opened<D: Disk + Drop, W: Write>(
    alloc: Global,
    disk: D,
    writer: &mut W,
    options: &StatusOptions,
    recorded: &RecordedById,
) -> (D, Result<(), Fault>)
    requires recorded { (D.view disk).honest → (s : PlainState) → FoundAs s (D.view disk).reads
        → HasRecorded (D.view disk).reads recorded.now.entries }
    ensures written { (D.view result.0).honest
        → WritesAs (D.view disk).reads options.now (W.contents writer.old)
        (W.contents writer.new) result.1 }
    ensures opens { Opens (D.view disk) (D.view result.0) }
    ensures ends { IsRunEnd result.1 }
    ensures cause { IsErrOf result.1 Fault.Disk
        → Increased (D.view disk).failures (D.view result.0).failures }
    ensures memory { IfErr result.1 (HasCause ⟦<Global as Grows>⟧.refuses) }
{
    match Journal::open(alloc, disk) {
        Ok((journal, state)) => {
            let ended = write_status(alloc, writer, options, &state, recorded);
            (journal.into_disk(), ended)
        }
        Err((fault, disk)) => (disk, Err(Fault::from(fault))),
    }
}

/// Reads the records of both parts of a journal, opens it without a boot, writes the status of its resources, and returns its disk. All of
/// it is written, or the fault is one of the reading, of output, of memory, or that a resource that is named is not registered. It ends by
/// a fault exactly when that is asked for and no executor has the journal, or a resource that is shown needs attention.
pub fn status<D: Disk + Drop, W: Write>(
    alloc: Global,
    disk: D,
    writer: &mut W,
    options: &StatusOptions,
) -> (D, Result<(), Fault>)
    ensures written { (D.view result.0).honest
        → WritesAs (D.view disk).reads options.now (W.contents writer.old)
        (W.contents writer.new) result.1 }
    ensures opens { Opens (D.view disk) (D.view result.0) }
    ensures ends { IsRunEnd result.1 }
    ensures cause { IsErrOf result.1 Fault.Disk
        → Increased (D.view disk).failures (D.view result.0).failures }
    ensures memory { IfErr result.1 (HasCause ⟦<Global as Grows>⟧.refuses) }
{
    let mut disk = disk;
    match measure(alloc, &mut disk) {
        Ok(measured) => write_opened(alloc, disk, writer, options, &measured.recorded),
        Err(LogFault::Disk) => (disk, Err(Fault::Disk)),
        Err(LogFault::Memory) => (disk, Err(Fault::Memory)),
        Err(LogFault::Output) => unreachable!(),
    }
}
