//! The destinations of agents' output.
use crate::copier::Copier;
use crate::directory::LogDirectory;
use crate::lines::{Begun, Ended, Stamp, begun_line, ended_line};
use crate::streams::{Streams, Uncopied};
use crate::unnamed::{temporary_directory, unnamed};
use exec_lines::moment_now;
use ocf_types::RscId;
use std::alloc::Global;
use std::cell::Cell;
use std::fs::File;
use std::io::{self, Eprint, Write};
use std::rt::Clock;
use std::str;
use std::time::Duration;

// For how many seconds a failing log is not reported again.
const SILENCE: u64 = 60;

// Standard error, to which agents' output is copied when they have ended, and where it is until then.
#[derive(Drop)]
struct Errors {
    rt: HostRuntime,
    copier: Copier,
    // The directory of the files that agents write to.
    directory: String,
}

// A destination of agents' output.
#[derive(Drop)]
enum Destination {
    // The standard error of this program.
    Errors(Errors),
    // A file for all resources.
    File(File),
    // A file for each resource.
    Directory(LogDirectory),
}

// A log other than none.
#[derive(Drop)]
struct Kept {
    alloc: Global,
    destination: Destination,
    // When a failure of the log was last reported, by the monotonic clock.
    reported: Cell<Option<Duration>>,
}

/// Where the standard output and error of agents go. The output of each is appended, between a line of its begin and one of its end,
/// or it is discarded. An agent writes to a file and never to a pipe, so no reader that goes can end it: to standard error the output is
/// copied from a file without a name, when the agent has ended.
///
/// A log that cannot be written hinders no action: it is reported on standard error, once in a minute at most.
#[derive(Drop)]
pub struct Log {
    kept: Option<Kept>,
}

/// What an agent is given: its streams, and what is to be copied at its end.
#[derive(Drop)]
pub struct Outlet {
    pub streams: Streams,
    pub uncopied: Uncopied,
}

impl Outlet {
    // Streams of which nothing is to be copied.
    fn to(streams: Streams) -> Outlet {
        Outlet {
            streams,
            uncopied: Uncopied::none(),
        }
    }
}

// Writes a line to a file, in one call if the system takes all of it.
fn write_line(mut file: &File, line: &[u8]) -> io::Result<()> {
    file.write_all(line)
}

impl Kept {
    fn at(alloc: Global, destination: Destination) -> Kept {
        Kept {
            alloc,
            destination,
            reported: Cell::new(None),
        }
    }

    // Whether a failure of the log is to be reported now; if so, this counts as its report.
    fn is_to_report(&self, rt: &impl Clock) -> bool {
        let Ok(now) = rt.monotonic() else {
            return false;
        };
        let is_recent = match self.reported.get() {
            Some(reported) => now.saturating_sub(reported).as_secs() < SILENCE,
            None => false,
        };
        if !is_recent {
            self.reported.set(Some(now));
        }
        !is_recent
    }

    // Reports on standard error that the log fails, once in a minute at most.
    fn report<R: Clock + Eprint>(&self, rt: &R, id: &RscId, error: &io::Error) {
        if !self.is_to_report(rt) {
            return;
        }
        let id = str::from_utf8(id.as_bytes()).unwrap_or_default();
        let _ = match &self.destination {
            Destination::Directory(directory) => {
                rt.eprintln(format_args!("ocfexec: log {directory}/{id}.log: {error}"))
            }
            _ => rt.eprintln(format_args!("ocfexec: log of agents: {error}")),
        };
    }

    // The stamp of a line that is written now, with the id if the log is one of all resources.
    fn stamp<'a>(&self, rt: &impl Clock, id: &'a RscId) -> Stamp<'a> {
        let id = match &self.destination {
            Destination::Directory(_) => None,
            _ => Some(id),
        };
        Stamp {
            id,
            at: moment_now(rt),
        }
    }

    // Writes a line to standard error, without waiting.
    fn say<R: Eprint>(&self, rt: &R, line: &[u8]) {
        let _ = rt.eprint(str::from_utf8(line).unwrap_or_default());
    }

    // Writes a line to a file; a failure is reported.
    fn write<R: Clock + Eprint>(&self, rt: &R, id: &RscId, file: &File, line: &[u8]) {
        if let Err(error) = write_line(file, line) {
            self.report(rt, id, &error);
        }
    }

    // Opens the log of a resource, writes a line to it, and returns the file. A failure is reported.
    fn open<R: Clock + Eprint>(
        &self,
        rt: &R,
        directory: &LogDirectory,
        id: &RscId,
        line: &[u8],
    ) -> Option<File> {
        match directory.open(id) {
            Ok(file) => {
                self.write(rt, id, &file, line);
                Some(file)
            }
            Err(error) => {
                self.report(rt, id, &error);
                None
            }
        }
    }

    // Opens a file without a name for an agent. A failure is reported.
    fn unnamed<R: Clock + Eprint>(
        &self,
        rt: &R,
        errors: &Errors,
        id: &RscId,
    ) -> io::Result<Outlet> {
        match unnamed(&errors.rt, errors.directory.as_str()) {
            Ok(file) => Ok(Outlet {
                streams: Streams::of_file(&file)?,
                uncopied: Uncopied::of_file(file),
            }),
            Err(error) => {
                self.report(rt, id, &error);
                Ok(Outlet::to(Streams::none()))
            }
        }
    }

    // Copies what an agent wrote to standard error. A failure is reported.
    fn copy<R: Clock + Eprint>(&self, rt: &R, errors: &Errors, id: &RscId, uncopied: &Uncopied) {
        let Some(file) = uncopied.file() else {
            return;
        };
        if let Err(error) = errors.copier.copy(rt, file) {
            self.report(rt, id, &error);
        }
    }

    // Writes the line of a begin, and returns what the agent is given.
    fn begin<R: Clock + Eprint>(&self, rt: &R, id: &RscId, line: &[u8]) -> io::Result<Outlet> {
        match &self.destination {
            Destination::Errors(errors) => {
                self.say(rt, line);
                self.unnamed(rt, errors, id)
            }
            Destination::File(file) => {
                self.write(rt, id, file, line);
                Ok(Outlet::to(Streams::of_file(file)?))
            }
            Destination::Directory(directory) => match self.open(rt, directory, id, line) {
                Some(file) => Ok(Outlet::to(Streams::of_file(&file)?)),
                None => Ok(Outlet::to(Streams::none())),
            },
        }
    }

    // Copies what is to be copied, and writes the line of an end.
    fn end<R: Clock + Eprint>(&self, rt: &R, id: &RscId, uncopied: &Uncopied, line: &[u8]) {
        match &self.destination {
            Destination::Errors(errors) => {
                self.copy(rt, errors, id, uncopied);
                self.say(rt, line);
            }
            Destination::File(file) => self.write(rt, id, file, line),
            Destination::Directory(directory) => drop(self.open(rt, directory, id, line)),
        }
    }
}

impl Log {
    /// The output of agents is discarded.
    pub fn none() -> Log {
        Log { kept: None }
    }

    fn at(alloc: Global, destination: Destination) -> Log {
        Log {
            kept: Some(Kept::at(alloc, destination)),
        }
    }

    /// What agents write is copied to standard error when they have ended, by another descriptor, above those of the standard streams: so
    /// output that was meant for a closed stream does not land there. Until then it is in a file without a name in the directory of
    /// temporary files. It fails if standard error is closed, if this process may open no more descriptors, or for lack of memory.
    pub fn to_errors(rt: HostRuntime) -> io::Result<Log> {
        let errors = Errors {
            rt,
            copier: Copier::new(&rt.stderr())?,
            directory: temporary_directory(&rt)?,
        };
        Ok(Log::at(rt.alloc(), Destination::Errors(errors)))
    }

    /// All agents write to this file, by a descriptor above those of the standard streams.
    pub fn to_file(alloc: Global, file: &File) -> io::Result<Log> {
        Ok(Log::at(alloc, Destination::File(file.try_clone()?)))
    }

    /// Each agent writes to the log of its resource in this directory.
    pub fn to_directory(alloc: Global, directory: LogDirectory) -> Log {
        Log::at(alloc, Destination::Directory(directory))
    }

    /// Writes the line of a run that begins, and returns what its agent is given. If the log of a resource, or a file without a name,
    /// cannot be opened, that is reported, and the agent's output is discarded. It fails only if this process may open no more
    /// descriptors, or there is no memory for the line.
    pub fn begin<R: Clock + Eprint>(
        &self,
        rt: &R,
        id: &RscId,
        begun: &Begun<'_>,
    ) -> io::Result<Outlet> {
        let Some(kept) = &self.kept else {
            return Ok(Outlet::to(Streams::none()));
        };
        let line = begun_line(kept.alloc, &kept.stamp(rt, id), begun)?;
        kept.begin(rt, id, line.as_slice())
    }

    /// Writes the line of a run that has ended, after what is to be copied of its output. Without memory for the line there is none.
    pub fn end<R: Clock + Eprint>(&self, rt: &R, id: &RscId, uncopied: &Uncopied, ended: Ended) {
        let Some(kept) = &self.kept else {
            return;
        };
        if let Ok(line) = ended_line(kept.alloc, &kept.stamp(rt, id), ended) {
            kept.end(rt, id, uncopied, line.as_slice());
        }
    }
}
