//! How the system's answers about an agent's process are reported.
ghost use Rattle.std.specs.Prelude.{◌≡◌, pos};
ghost use Rattle.std.specs.IoError.{error_kind};
ghost use Rattle.agent_system.specs.Ends.{IsPollOf, ReportsEnd, signal_of, start_fault};

use child_model::Poll;
use ocf_types::StartFault;
use std::io::{self, ErrorKind};
use std::os::unix::process::ExitStatusExt;
use std::process::ExitStatus;

/// Why an agent was not spawned. A missing interpreter of its `#!` line is a missing file too.
pub fn start_fault(error: &io::Error) -> StartFault
    ensures { result ≡ start_fault (error_kind error.now) }
{
    match error.kind() {
        ErrorKind::NotFound => StartFault::Missing,
        ErrorKind::PermissionDenied => StartFault::Denied,
        _ => StartFault::Other,
    }
}

// The number of the signal that ended an agent process, 0 where the system names none.
fn signal_of(status: ExitStatus) -> u8
    ensures { pos result ≡ signal_of status }
{
    (status.signal().unwrap_or(0).cast_unsigned() % 256) as u8
}

/// How an agent process ended.
pub fn end_of(status: ExitStatus) -> Poll
    ensures { ReportsEnd result status }
{
    match status.code() {
        Some(code) => Poll::Exited((code.cast_unsigned() % 256) as u8),
        None => Poll::Signaled(signal_of(status)),
    }
}

/// The result of a poll, by the system's answer.
pub fn poll_of(answer: &io::Result<Option<ExitStatus>>) -> Poll
    ensures { IsPollOf result answer.now }
{
    match answer {
        Ok(None) => Poll::Running,
        Ok(Some(status)) => end_of(*status),
        Err(_) => Poll::Fault,
    }
}
