//! The system as a program uses it.
use crate::errors::ErrorLines;
use crate::killer::Killer;
use crate::line::BoundedLine;
use std::cell::Cell;
use std::fmt::Display;
use std::io::{self, Eprint};
use std::rt::Clock;
use std::time::Duration;

/// The system as a program uses it: its handle, its clocks, a shell that sends signals, and a standard error that never blocks.
#[derive(Drop)]
pub struct System<'a> {
    rt: &'a HostRuntime,
    errors: ErrorLines,
    // The shell that sends signals, where it runs and is not used right now.
    killer: Cell<Option<Killer>>,
}

impl<'a> System<'a> {
    /// The system of a program.
    pub fn new(rt: &'a HostRuntime) -> System<'a> {
        System {
            rt,
            errors: ErrorLines::new(rt.stderr()),
            killer: Cell::new(None),
        }
    }

    /// Spawns the shell that sends signals, unless it runs. Where it cannot be spawned, that is reported on standard error, and each
    /// signal spawns it again.
    pub fn start_killer(&self) {
        match self.taken_killer() {
            Ok(killer) => self.killer.set(Some(killer)),
            Err(error) => {
                let _ = self.eprintln(format_args!(
                    "ocfexec: cannot spawn the shell that ends processes: {error}"
                ));
            }
        }
    }

    // The shell, spawned if it does not run.
    fn taken_killer(&self) -> io::Result<Killer> {
        match self.killer.replace(None) {
            Some(killer) => Ok(killer),
            None => Killer::start(self.rt),
        }
    }

    // Has the shell send what a line says, and returns whether the target got the signal. A shell that is gone or stuck is ended.
    fn ask_once(&self, line: &BoundedLine) -> io::Result<bool> {
        let mut killer = self.taken_killer()?;
        let asked = killer.ask(self.rt, line);
        match &asked {
            Ok(_) => self.killer.set(Some(killer)),
            Err(_) => killer.end(self.rt),
        }
        asked
    }

    /// Has the shell send what a line says, and returns whether the target got the signal. A shell that is gone or stuck is replaced.
    pub(crate) fn ask(&self, line: &BoundedLine) -> io::Result<bool> {
        match self.ask_once(line) {
            Err(_) => self.ask_once(line),
            asked => asked,
        }
    }

    /// The handle of the program.
    pub fn host(&self) -> &'a HostRuntime {
        self.rt
    }
}

impl Eprint for System<'_> {
    fn eprint<D: Display + Drop>(&self, value: D) -> io::Result<()> {
        self.errors.eprint(value)
    }

    fn eprintln<D: Display + Drop>(&self, value: D) -> io::Result<()> {
        self.errors.eprintln(value)
    }
}

impl Clock for System<'_> {
    fn monotonic(&self) -> io::Result<Duration> {
        self.rt.monotonic()
    }

    fn since_1970(&self) -> io::Result<Duration> {
        self.rt.since_1970()
    }

    fn sleep(&self, duration: Duration) {
        self.rt.sleep(duration);
    }
}
