//! Prints what a journal holds as metrics.
ghost use Rattle.exec_faults.specs.Faults.{IsRunEnd};

use crate::look::moment_of;
use crate::waits::waits_in;
use agents_file::read_agents;
use disk_model::Disk;
use exec_faults::Fault;
use exec_journal::Journal;
use exec_metrics::{Seen, executor_metrics, metrics};
use exec_options::{JournalLocation, Options};
use host_system::System;
use journal_files::has_executor;
use ocf_model::StateView;
use ocf_types::{Moment, RscId};
use std::alloc::Global;
use std::io::Write;

// How long before this moment the last record was made, in seconds, if one was: the clock of a state without records is 0.
fn age_of(clock: Moment, moment: Moment) -> Option<u64> {
    if clock.get() == 0 {
        None
    } else {
        Some(moment.get().saturating_sub(clock.get()) / 1_000)
    }
}

// How long before this moment the last record of the journal on this disk was made, in seconds.
fn record_age<D: Disk + Drop>(alloc: Global, disk: D, moment: Moment) -> (D, Option<u64>) {
    match Journal::open(alloc, disk) {
        Ok((journal, state)) => (journal.into_disk(), age_of(state.clock(), moment)),
        Err((_, disk)) => (disk, None),
    }
}

// When the executor that has the journal in this directory opened it, in seconds since 1970.
fn opened_at(rt: &HostRuntime, directory: &str) -> Option<u64> {
    let (head, _) = read_agents(rt, rt.alloc(), directory)?;
    Some(head.moment / 1_000)
}

// Writes what is known of the executor that has the journal in this directory, which was read onto this disk.
fn executor_to<D: Disk + Drop, W: Write>(
    rt: &HostRuntime,
    directory: &str,
    read: (D, Moment),
    output: &mut W,
) -> (D, Result<(), Fault>)
    ensures { IsRunEnd result.1 }
{
    let (disk, moment) = read;
    let (disk, record_age) = record_age(rt.alloc(), disk, moment);
    let (disk, waits) = waits_in(rt, JournalLocation::Directory(directory), disk);
    let mut held: Vec<RscId> = Vec::new(rt.alloc());
    for wait in &waits {
        if held.push(wait.id().copied()).is_err() {
            return (disk, Err(Fault::ReplyMemory));
        }
    }
    let up = has_executor(rt, directory);
    let opened = if up == Some(true) {
        opened_at(rt, directory)
    } else {
        None
    };
    let seen = Seen {
        up,
        opened,
        record_age,
        held: held.as_slice(),
    };
    (disk, executor_metrics(rt.alloc(), output, &seen))
}

// Writes that nothing is known of an executor.
fn nothing_to<W: Write>(alloc: Global, output: &mut W) -> Result<(), Fault>
    ensures { IsRunEnd result }
{
    let seen = Seen {
        up: None,
        opened: None,
        record_age: None,
        held: &[],
    };
    executor_metrics(alloc, output, &seen)
}

/// Writes what the journal on this disk holds as metrics of this moment, and what is known of the executor that has it.
pub fn metrics_to<D: Disk + Drop, W: Write>(
    system: &System<'_>,
    options: Options,
    disk: D,
    output: &mut W,
) -> (D, Result<(), Fault>)
    ensures { IsRunEnd result.1 }
{
    let rt = system.host();
    let moment = moment_of(rt, options.journal);
    let (disk, ended) = metrics(rt.alloc(), disk, output, moment);
    match (ended, options.journal) {
        (Ok(()), JournalLocation::Directory(directory)) => {
            executor_to(rt, directory, (disk, moment), output)
        }
        (Ok(()), JournalLocation::Memory) => (disk, nothing_to(rt.alloc(), output)),
        (Err(_), _) => (disk, ended),
    }
}
