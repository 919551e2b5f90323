//! The destination of agents' output, by the options.
ghost use Rattle.std.specs.Prelude.{◌≡◌, ◌||◌, true, IfErr, is_some};

use child_keeper::{Log, LogDirectory};
use diagnostics::report_cause;
use exec_faults::Fault;
use file_disk::OWNER_ONLY;
use host_system::System;
use std::fs::{self, OpenOptions};
use std::io::{self, Eprint, ErrorKind};
use std::os::unix::fs::{FileTypeExt, OpenOptionsExt};

// The error for a named pipe.
const NO_FILE: &str = "a named pipe, whose reader may go; give a file, or - for standard error";

// Whether this is the name of a named pipe, whose opening would wait for a reader. POSIX, open.
fn is_named_pipe(rt: &HostRuntime, name: &str) -> bool {
    match fs::metadata(rt, name) {
        Ok(found) => found.file_type().is_fifo(),
        Err(_) => false,
    }
}

// Reports that this is no directory, or none that is there.
fn report_no_directory(system: &System<'_>, name: &str) {
    // (a path with a dot behind it leads nowhere but from a directory)
    let Ok(path) = format!(in system.host().alloc(); "{name}/.") else {
        return;
    };
    if let Err(error) = fs::metadata(system.host(), path.as_str()) {
        let _ = system.eprintln(format_args!(
            "ocfexec: logs {name}: {error}; the output of agents is lost until it is there"
        ));
    }
}

// The logs of this directory. Each is opened when an action of its resource begins, so a directory that cannot be used is no fault
// here, but it is reported.
fn logs_in(system: &System<'_>, name: &str) -> io::Result<Log> {
    let rt = system.host();
    report_no_directory(system, name);
    let path = String::from_str(rt.alloc(), name)?;
    Ok(Log::to_directory(rt.alloc(), LogDirectory::new(*rt, path)))
}

// The log of this name: a file, which is appended to and created if it does not exist, or standard error for `-`.
fn opened(rt: &HostRuntime, name: &str) -> io::Result<Log> {
    if name == "-" {
        return Log::to_errors(*rt);
    }
    if is_named_pipe(rt, name) {
        return Err(io::Error::new(ErrorKind::InvalidInput, NO_FILE));
    }
    let mut options = OpenOptions::new();
    options.append(true).create(true).mode(OWNER_ONLY);
    Log::to_file(rt.alloc(), &options.open(rt, name)?)
}

/// The log of agents' output: a file for each resource in the directory `logs`, if that is given, else the one log `log`, if any. If a
/// file cannot be opened, the cause is reported here.
pub fn log_of(system: &System<'_>, log: Option<&str>, logs: Option<&str>) -> Result<Log, Fault>
    ensures { IfErr result
        (λ f. (f ≡ Fault.Log)
        × ((is_some log.entry || is_some logs.entry) ≡ true)) }
{
    let rt = system.host();
    let (name, made) = match (logs, log) {
        (Some(name), _) => (name, logs_in(system, name)),
        (None, Some(name)) => (name, opened(rt, name)),
        (None, None) => return Ok(Log::none()),
    };
    match made {
        Ok(log) => Ok(log),
        Err(error) => {
            report_cause(system, Fault::Log, format_args!("{name}: {error}"));
            Err(Fault::Log)
        }
    }
}
