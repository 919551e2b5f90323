//! Processes and their identity.
ghost use Rattle.std.specs.Prelude.{◌↔◌, IsTrue};
ghost use Rattle.proc_files.specs.Processes.{Has, IsSame};

/// A process, by `/proc/PID/stat`. Linux, proc(5).
#[derive(Clone, Copy)]
pub struct Process {
    /// Its number.
    pub pid: u32,
    /// The number of its parent or, if that has ended, of the process that reaps orphans.
    pub parent: u32,
    /// The number of its process group. POSIX, getpgid.
    pub group: u32,
    /// When it started, in clock ticks after the system's boot (field 22).
    pub start: u64,
    /// Whether it has ended with all its threads: it waits to be reaped (state Z) or is dead (X, x), and no other thread is left. The
    /// state is that of the first thread, which may end before the others.
    pub has_ended: bool,
}

impl Process {
    /// Whether this is the other process: it has the same number and the same start. The number alone is not enough, since it is
    /// used again after a process was reaped.
    pub fn is(&self, other: &Process) -> bool
        ensures { IsTrue result ↔ IsSame self.now other.now }
    {
        self.pid == other.pid && self.start == other.start
    }
}

/// Whether a process is among these, by number and start.
pub fn has(processes: &[Process], process: &Process) -> bool
    ensures { IsTrue result ↔ Has processes.now process.now }
{
    processes.iter().any(|other| other.is(process))
}
