//! Signals to processes and to process groups.
use std::fmt::{self, Display, Formatter};

/// A signal that suspends or ends a process. POSIX, signal.h.
#[derive(Clone, Copy)]
pub enum Signal {
    /// SIGSTOP: the process is suspended, and starts nothing.
    Stop,
    /// SIGKILL: the process ends.
    Kill,
}

/// What a signal is sent to. POSIX, kill.
#[derive(Clone, Copy)]
pub enum Target {
    /// The process with this number.
    Process(u32),
    /// All members of the process group with this number.
    Group(u32),
}

impl Display for Target {
    fn fmt<W: fmt::Write>(&self, f: &mut Formatter<W>) -> fmt::Result {
        match self {
            Target::Process(pid) => write!(f, "{pid}"),
            Target::Group(group) => write!(f, "-{group}"),
        }
    }
}

impl Signal {
    /// Its name, as `kill -s` takes it. POSIX, kill.
    pub fn name(self) -> &'static str {
        match self {
            Signal::Stop => "STOP",
            Signal::Kill => "KILL",
        }
    }
}

impl Target {
    /// Whether it names a process or a group of its own: POSIX's `kill` takes 0 for the sender's group, and -1 for all processes.
    pub fn is_one(self) -> bool {
        match self {
            Target::Process(pid) => pid > 1,
            Target::Group(group) => group > 1,
        }
    }
}
