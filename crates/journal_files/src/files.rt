//! The files of a journal: how they are opened, and how their faults are reported on standard error.
ghost use Rattle.std.specs.Prelude.{◌≡◌};
ghost use Rattle.journal_files.specs.Ends.{IsNotOpened};

use diagnostics::{explain, report, report_cause, report_in_line};
use exec_faults::Fault;
use exec_options::{JournalLocation, Options, Subcommand};
use file_disk::{
    FileDisk, FileError, Located, OpenFault, Owners, ReportsError, is_held, refuse_absent,
};
use host_system::System;
use std::io::ErrorKind;
use std::thread::sleep;
use std::time::Duration;

// Advice for root, which refuses a journal for its owner or mode.
const OWNER_ADVICE: &str =
    "Anyone who can write the journal decides what root starts. Make root its only writer, or give --any-owner.";

// Advice for the other frequent causes for which the files of a journal are not opened; each names its cause first.
const MISSING_ADVICE: &str =
    "Missing directory: make it, for its owner alone, or name another by --journal.";

const PERMISSION_ADVICE: &str =
    "No permission: only its owner can open the journal; run this as that user, or as root.";

const CLEARED_ADVICE: &str =
    "Keep both parts, and begin with a new journal; or remove the file identity, to open the older state that is left.";

const IN_USE_ADVICE: &str =
    "In use: only one executor at a time can hold a journal; show, status, log and metrics can read it meanwhile.";

// Advice for an error of the system.
fn advice_of_kind(kind: ErrorKind) -> Option<&'static str> {
    match kind {
        ErrorKind::NotFound => Some(MISSING_ADVICE),
        ErrorKind::PermissionDenied => Some(PERMISSION_ADVICE),
        _ => None,
    }
}

// Advice for a journal whose files are not opened.
fn advice_of(why: &OpenFault) -> Option<&'static str> {
    match why {
        distrust if distrust.is_distrust() => Some(OWNER_ADVICE),
        OpenFault::InUse | OpenFault::Locked(_) => Some(IN_USE_ADVICE),
        OpenFault::Cleared(_) => Some(CLEARED_ADVICE),
        OpenFault::Directory(error) | OpenFault::File(_, error) => advice_of_kind(error.kind()),
        _ => None,
    }
}

// Which owners and modes of the journal's files are accepted.
fn owners_of(options: Options) -> Owners {
    if options.any_owner {
        Owners::Any
    } else {
        Owners::TrustedBy(libc::geteuid())
    }
}

/// Opens the files of this directory; one without a journal is refused if the options ask for one that exists. An agent that was being
/// spawned when its executor was killed holds the locks until its program begins, so it waits for a lock up to a fifth of a second.
pub fn open_files(
    rt: &HostRuntime,
    options: Options,
    directory: &str,
) -> Result<FileDisk<HostRuntime>, OpenFault> {
    let owners = owners_of(options);
    if options.existing {
        refuse_absent(rt, rt.alloc(), directory)?;
    }
    for _ in 0..10 {
        match FileDisk::open(rt, rt.alloc(), directory, owners) {
            Err(OpenFault::InUse | OpenFault::Locked(_)) => sleep(rt, Duration::from_millis(20)),
            opened => return opened,
        }
    }
    FileDisk::open(rt, rt.alloc(), directory, owners)
}

/// Whether an executor has the journal of this directory; `None` where that cannot be known.
pub fn has_executor(rt: &HostRuntime, directory: &str) -> Option<bool> {
    is_held(rt, rt.alloc(), directory).ok()
}

/// How a fault of the journal's files is reported.
#[derive(Clone, Copy)]
pub enum FaultForm {
    /// By the exact text of the formats, for programs that read `run` and `show`. A person gets the cause in a line of its own.
    Exact,
    /// With its cause, in one line.
    WithCause,
}

impl FaultForm {
    /// The form for a subcommand.
    pub fn of(options: Options) -> FaultForm {
        match options.subcommand {
            Subcommand::Run | Subcommand::Show => FaultForm::Exact,
            Subcommand::Serve | Subcommand::Status | Subcommand::Log | Subcommand::Metrics => {
                FaultForm::WithCause
            }
        }
    }

    // Reports a fault in this form.
    fn report(self, system: &System<'_>, fault: Fault, cause: Located<'_>) {
        match self {
            FaultForm::Exact => report_cause(system, fault, cause),
            FaultForm::WithCause => report_in_line(system, fault, cause),
        }
    }
}

/// The disk of a journal in this directory. If it was not opened, the cause is reported here.
pub fn disk_or_fault<D: Drop>(
    system: &System<'_>,
    form: FaultForm,
    directory: &str,
    disk: Result<D, OpenFault>,
) -> Result<D, Fault>
    ensures { IsNotOpened result }
{
    match disk {
        Ok(disk) => Ok(disk),
        Err(OpenFault::Memory) => Err(Fault::Memory),
        Err(OpenFault::Absent) => Err(Fault::NotExisting),
        Err(why) => {
            form.report(system, Fault::NotOpened, why.located(directory));
            if let Some(advice) = advice_of(&why) {
                explain(system, advice);
            }
            Err(Fault::NotOpened)
        }
    }
}

/// Reports that the journal's device failed, and its error.
pub fn report_device(system: &System<'_>, options: Options, error: Option<FileError>) {
    match (options.journal, error) {
        (JournalLocation::Directory(directory), Some(met)) => {
            FaultForm::of(options).report(system, Fault::Disk, met.located(directory));
        }
        _ => report(system, Fault::Disk),
    }
}

/// Returns `ended` unchanged. A fault of the device is reported here, since the disk knows the error behind it.
pub fn report_failed_device<D: ReportsError>(
    system: &System<'_>,
    options: Options,
    disk: &D,
    ended: Result<(), Fault>,
) -> Result<(), Fault>
    ensures { result ≡ ended }
{
    if let Err(Fault::Disk) = ended {
        report_device(system, options, disk.first_error());
    }
    ended
}
