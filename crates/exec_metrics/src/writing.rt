//! Measures and opens a journal, and writes its metrics.
ghost use Rattle.std.specs.Prelude.{[], IsErrOf, IfErr};
ghost use Rattle.ocf_model.specs.State.{State as PlainState};
ghost use Rattle.disk_model.specs.Disk.{Increased};
ghost use Rattle.exec_journal.specs.Found.{FoundAs};
ghost use Rattle.exec_journal.specs.Opening.{Opens};
ghost use Rattle.exec_faults.specs.Faults.{HasCause, IsRunEnd};
ghost use Rattle.exec_metrics.specs.Metrics.{journal_families, measure_of, GoesOn, IsWritten, WritesAs};
ghost use Rattle.journal_log.specs.RanOn.{HasCounts};
ghost use Rattle.journal_log.specs.RecordedOn.{HasRecorded};
ghost use Rattle.journal_log.specs.Sizes.{IsSize};

use crate::families::{Taken, metrics_text};
use disk_model::Disk;
use exec_faults::Fault;
use exec_journal::Journal;
use exec_lines::write_flushed;
use exec_state::State;
use growth::Grows;
use journal_log::{LogFault, measure};
use ocf_types::Moment;
use std::alloc::Global;
use std::io::Write;

// Writes the metrics of a state.
fn write_metrics<W: Write>(
    alloc: Global,
    writer: &mut W,
    taken: &Taken,
    state: &State,
) -> Result<(), Fault>
    ensures written { IsWritten
        (GoesOn (journal_families (measure_of taken.now) state.now.state) [])
        (W.contents writer.old) (W.contents writer.new) result }
    ensures memory { IfErr result (HasCause ⟦<Global as Grows>⟧.refuses) }
{
    let Ok(text) = metrics_text(alloc, taken, state) else {
        return Err(Fault::ReplyMemory);
    };
    match write_flushed(writer, text.as_slice()) {
        Ok(()) => Ok(()),
        Err(_) => Err(Fault::InputOrOutput),
    }
}

// Opens a journal of this measure and writes its metrics.
#[tactic(auto, using(exec_faults::proofs::FaultLemmas::opening_cause))]
fn write_measured<D: Disk + Drop, W: Write>(
    alloc: Global,
    disk: D,
    writer: &mut W,
    taken: &Taken,
) -> (D, Result<(), Fault>)
    requires size { (D.view disk).honest → IsSize (D.view disk).reads taken.now.measured.size }
    requires counts { (D.view disk).honest → (s : PlainState) → FoundAs s (D.view disk).reads
        → HasCounts (D.view disk).reads taken.now.measured.counts.entries }
    requires recorded { (D.view disk).honest → (s : PlainState) → FoundAs s (D.view disk).reads
        → HasRecorded (D.view disk).reads taken.now.measured.recorded.entries }
    ensures written { (D.view result.0).honest
        → WritesAs (D.view disk).reads taken.now.moment (W.contents writer.old)
        (W.contents writer.new) result.1 }
    ensures opens { Opens (D.view disk) (D.view result.0) }
    ensures ends { IsRunEnd result.1 }
    ensures cause { IsErrOf result.1 Fault.Disk
        → Increased (D.view disk).failures (D.view result.0).failures }
    ensures memory { IfErr result.1 (HasCause ⟦<Global as Grows>⟧.refuses) }
{
    match Journal::open(alloc, disk) {
        Ok((journal, state)) => {
            let ended = write_metrics(alloc, writer, taken, &state);
            (journal.into_disk(), ended)
        }
        Err((fault, disk)) => (disk, Err(Fault::from(fault))),
    }
}

/// Measures a journal, opens it without a boot and writes its metrics at this moment, in the text format of Prometheus: for each
/// family its help, its type, and the samples of each resource, in order of registration. Returns the disk, and a fault if measuring,
/// opening or writing failed.
pub fn metrics<D: Disk + Drop, W: Write>(
    alloc: Global,
    disk: D,
    writer: &mut W,
    moment: Moment,
) -> (D, Result<(), Fault>)
    ensures written { (D.view result.0).honest
        → WritesAs (D.view disk).reads moment (W.contents writer.old)
        (W.contents writer.new) result.1 }
    ensures opens { Opens (D.view disk) (D.view result.0) }
    ensures ends { IsRunEnd result.1 }
    ensures cause { IsErrOf result.1 Fault.Disk
        → Increased (D.view disk).failures (D.view result.0).failures }
    ensures memory { IfErr result.1 (HasCause ⟦<Global as Grows>⟧.refuses) }
{
    let mut disk = disk;
    match measure(alloc, &mut disk) {
        Ok(measured) => {
            let taken = Taken { moment, measured };
            write_measured(alloc, disk, writer, &taken)
        }
        Err(LogFault::Disk) => (disk, Err(Fault::Disk)),
        Err(LogFault::Memory) => (disk, Err(Fault::Memory)),
        Err(LogFault::Output) => unreachable!(),
    }
}
