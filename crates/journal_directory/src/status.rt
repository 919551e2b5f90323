//! Prints the status of the resources of a journal.
ghost use Rattle.exec_faults.specs.Faults.{IsRunEnd};

use crate::look::status_options;
use crate::waits::{as_remarks, waits_in};
use disk_model::Disk;
use exec_faults::Fault;
use exec_options::{JournalLocation, Options};
use exec_replies::JournalId;
use failure_reasons::{FoundReason, reasons_in};
use host_system::System;
use journal_files::identity_of;
use status_report::{failed, status};
use status_table::{Remark, StatusOptions};
use std::alloc::{AllocError, Global};
use std::io::Write;

// The reasons in the logs for the failures of the resources that are asked for, if the options name a directory of logs. There
// are none if the journal cannot be read; the status then reports why.
fn reasons_for<D: Disk + Drop>(
    system: &System<'_>,
    options: Options,
    disk: D,
) -> (D, Vec<FoundReason>) {
    let rt = system.host();
    let alloc = rt.alloc();
    let Some(directory) = options.logs else {
        return (disk, Vec::new(alloc));
    };
    let look = StatusOptions {
        ids: options.resources.ids(),
        ..status_options(rt, &options)
    };
    let (disk, ids) = failed(alloc, disk, &look);
    let Ok(ids) = ids else {
        return (disk, Vec::new(alloc));
    };
    match reasons_in(system, directory, ids.as_slice()) {
        Ok(found) => (disk, found),
        Err(_) => (disk, Vec::new(alloc)),
    }
}

// The reasons as a status takes them.
fn as_reasons<'a>(alloc: Global, found: &'a [FoundReason]) -> Result<Vec<Remark<'a>>, AllocError> {
    let mut reasons = Vec::new(alloc);
    for reason in found {
        reasons.push(Remark {
            id: reason.id(),
            text: reason.text(),
        })?;
    }
    Ok(reasons)
}

// The identity of the journal at this place.
fn identity_at(rt: &HostRuntime, journal: JournalLocation) -> Option<JournalId> {
    match journal {
        JournalLocation::Directory(directory) => identity_of(rt, directory),
        JournalLocation::Memory => None,
    }
}

/// Writes the status of the resources of the journal on this disk, as a table or as lines of JSON. If the options name a directory
/// of logs, the last failure of a resource has the last reason in its log.
pub fn show_status<D: Disk + Drop, W: Write>(
    system: &System<'_>,
    options: Options,
    disk: D,
    output: &mut W,
) -> (D, Result<(), Fault>)
    ensures { IsRunEnd result.1 }
{
    let rt = system.host();
    let identity = identity_at(rt, options.journal);
    let digits = identity.as_ref().map(|id| id.hex());
    let (disk, found) = reasons_for(system, options, disk);
    let (disk, waits) = waits_in(rt, options.journal, disk);
    let (Ok(reasons), Ok(waits)) = (
        as_reasons(rt.alloc(), found.as_slice()),
        as_remarks(rt.alloc(), waits.as_slice()),
    ) else {
        return (disk, Err(Fault::ReplyMemory));
    };
    let look = StatusOptions {
        ids: options.resources.ids(),
        identity: digits,
        reasons: reasons.as_slice(),
        waits: waits.as_slice(),
        ..status_options(rt, &options)
    };
    status(rt.alloc(), disk, output, &look)
}
