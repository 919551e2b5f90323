//! Reports an agent that the system did not spawn.
ghost use Rattle.std.specs.Prelude.{◌≡◌};
ghost use Rattle.std.specs.IoError.{error_kind};
ghost use Rattle.agent_system.specs.Ends.{start_fault};

use crate::ends::start_fault;
use ocf_types::StartFault;
use std::fmt::Display;
use std::io::{self, Eprint};
use std::str;

/// A name as text. Names are ASCII.
pub fn name_text(name: &[u8]) -> &str {
    str::from_utf8(name).unwrap_or_default()
}

/// Why an agent was not spawned, by the system's error. The error is reported on standard error where the recorded result does
/// not say which one it was.
pub fn refused<R: Eprint, W: Display + Drop>(rt: &R, what: W, error: &io::Error) -> StartFault
    ensures { result ≡ start_fault (error_kind error.now) }
{
    let fault = start_fault(error);
    if let StartFault::Other = fault {
        let _ = rt.eprintln(format_args!("ocfexec: {what} was not started: {error}"));
    }
    fault
}
