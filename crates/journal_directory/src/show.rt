//! Prints a journal.
ghost use Rattle.exec_faults.specs.Faults.{IsRunEnd};
ghost use Rattle.journal_files.specs.Ends.{IsDirectoryEnd, IsNotFound};

use crate::follow::follow_files;
use crate::log::show_log;
use crate::metrics::metrics_to;
use crate::status::show_status;
use crate::watch::watch_files;
use diagnostics::{FirstError, report_shown};
use disk_model::Disk;
use exec_faults::Fault;
use exec_options::{Options, Subcommand};
use file_disk::{OpenFault, RamDisk, ReportsError, read_parts, refuse_emptied};
use host_system::System;
use journal_files::{FaultForm, disk_or_fault, not_emptied, report_failed_device};
use ocf_types::Part;
use status_report::show;
use std::io::{self, Write};

// How often the files are read before a journal is reported as damaged.
const LOOKS: usize = 4;

// Writes what the journal on this disk holds, as the subcommand asks: lines of JSON, a table, records or metrics.
fn write_shown<D: Disk + Drop, W: Write>(
    system: &System<'_>,
    options: Options,
    disk: D,
    output: &mut W,
) -> (D, Result<(), Fault>)
    ensures { IsRunEnd result.1 }
{
    let rt = system.host();
    match options.subcommand {
        Subcommand::Status => show_status(system, options, disk, output),
        Subcommand::Log => {
            let mut disk = disk;
            let ended = show_log(system, options, &mut disk, output);
            (disk, ended)
        }
        Subcommand::Metrics => metrics_to(system, options, disk, output),
        _ => show(rt.alloc(), disk, output),
    }
}

/// The end of the program. A closed pipe at its output is no error, since the reader has read enough, unless the exit code is to
/// show whether a resource has failed: that is then not known.
pub fn enough(
    options: Options,
    unwritten: &FirstError,
    ended: Result<(), Fault>,
) -> Result<(), Fault>
    ensures session { IsRunEnd ended → IsRunEnd result }
    ensures directory { IsDirectoryEnd ended → IsDirectoryEnd result }
{
    match ended {
        Err(Fault::InputOrOutput) if unwritten.is_unread() && !options.exit_code => Ok(()),
        _ => ended,
    }
}

/// Prints the journal on this disk.
pub fn show_disk<D: Disk + ReportsError + Drop>(
    system: &System<'_>,
    options: Options,
    disk: D,
) -> Result<(), Fault>
    ensures { IsRunEnd result }
{
    let rt = system.host();
    let unwritten = FirstError::none();
    let mut output = unwritten.shown(io::writer(rt));
    let (disk, ended) = write_shown(system, options, disk, &mut output);
    let ended = enough(options, &unwritten, ended);
    report_shown(system, &unwritten, ended);
    report_failed_device(system, options, &disk, ended)
}

// Whether both parts are empty. A fault of the device is not reported here: the opening meets it again.
fn is_none<D: Disk>(disk: &mut D) -> bool {
    matches!((disk.len(Part::A), disk.len(Part::B)), (Ok(0), Ok(0)))
}

/// The parts in this directory, refused if one of them was emptied.
pub fn read_whole(rt: &HostRuntime, directory: &str) -> Result<RamDisk, OpenFault> {
    refuse_emptied(rt, rt.alloc(), directory)?;
    not_emptied(read_parts(rt, rt.alloc(), directory))
}

/// The parts in this directory as they are now. A journal that was never made is refused, except by `show`. One with an emptied part
/// is refused, unless the options ask for the records before the damage.
#[tactic(auto, using(crate::proofs::EndLemmas::not_opened_found))]
pub fn parts_in(system: &System<'_>, options: Options, directory: &str) -> Result<RamDisk, Fault>
    ensures { IsNotFound result }
{
    let rt = system.host();
    let read = if options.salvage {
        read_parts(rt, rt.alloc(), directory)
    } else {
        read_whole(rt, directory)
    };
    let mut disk = disk_or_fault(system, FaultForm::of(options), directory, read)?;
    let wants_one = !matches!(options.subcommand, Subcommand::Show);
    if wants_one && is_none(&mut disk) {
        return Err(Fault::NoJournal);
    }
    Ok(disk)
}

// Prints the journal in this directory as its files are now.
#[tactic(auto, using(crate::proofs::EndLemmas::opened_ends, crate::proofs::EndLemmas::not_found_ends))]
fn show_once(system: &System<'_>, options: Options, directory: &str) -> Result<(), Fault>
    ensures { IsDirectoryEnd result }
{
    let disk = parts_in(system, options, directory)?;
    show_disk(system, options, disk)
}

/// Prints the journal in this directory, which another program may be writing. Damage is reported only if each of four reads of
/// the files finds it.
pub fn show_now(system: &System<'_>, options: Options, directory: &str) -> Result<(), Fault>
    ensures { IsDirectoryEnd result }
{
    for _ in 1..LOOKS {
        let ended = show_once(system, options, directory);
        if !matches!(ended, Err(Fault::Damaged(_))) {
            return ended;
        }
    }
    show_once(system, options, directory)
}

/// Prints the journal in this directory, or its status again and again, or the records that are added, if the options ask for that.
pub fn show_files(system: &System<'_>, options: Options, directory: &str) -> Result<(), Fault>
    ensures { IsDirectoryEnd result }
{
    match (options.subcommand, options.watch) {
        (Subcommand::Status, Some(seconds)) => watch_files(system, options, directory, seconds),
        (Subcommand::Log, _) if options.follow => follow_files(system, options, directory),
        _ => show_now(system, options, directory),
    }
}
