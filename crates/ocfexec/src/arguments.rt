//! The arguments of the command line, and the journal that the environment names.
use exec_faults::Fault;
use std::env::{self, VarError};
use std::io::ErrorKind;

// The variable that names the directory of the journal for subcommands that only read it and are given none.
const JOURNAL: &str = "OCFEXEC_JOURNAL";

// TRUSTED: they are the arguments of the command line.
/// The arguments of the command line, the program's name first.
pub fn arguments_of(rt: &HostRuntime) -> Result<Vec<String>, Fault> {
    match env::args(rt) {
        Ok(arguments) => arguments.collect(rt.alloc()).map_err(|_| Fault::Memory),
        Err(error) if error.kind() == ErrorKind::InvalidData => Err(Fault::NotText),
        Err(_) => Err(Fault::Memory),
    }
}

// TRUSTED: it is what the environment says.
/// The directory that the environment names for the journal: `None` also for an empty text.
pub fn named_journal(rt: &HostRuntime) -> Result<Option<String>, Fault> {
    match env::var(rt, JOURNAL) {
        Ok(directory) if directory.is_empty() => Ok(None),
        Ok(directory) => Ok(Some(directory)),
        Err(VarError::NotPresent) => Ok(None),
        Err(VarError::NotUnicode) => Err(Fault::NotText),
        Err(VarError::OutOfMemory) => Err(Fault::Memory),
    }
}
