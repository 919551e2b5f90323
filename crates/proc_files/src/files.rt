//! The processes of the system, read from the files of `/proc`.
ghost use Rattle.std.specs.Prelude.{◌≡◌, ◌≤◌, length};

use crate::process::Process;
use crate::read::{pids, read_head};
use crate::stat::read_stat;
use std::alloc::{AllocError, Allocator};
use std::io::{self, ErrorKind};

// How many bytes of a `stat` are read: a name has at most 64 bytes, and some 50 fields have at most 20 each.
const STAT_LIMIT: usize = 4_096;

/// The processes of a system and their files. Linux, proc(5).
pub trait ProcFiles {
    /// This process.
    fn own(&self) -> io::Result<Process>;

    /// The process with this number, if there is one. It fails only where memory is refused.
    fn process_of(&self, pid: u32) -> io::Result<Option<Process>>;

    /// All processes that can be seen. It fails where none is listed.
    fn processes<A: Allocator + Copy>(&self, alloc: A) -> io::Result<Vec<Process, A>>;

    /// Reads the name of a process's command into the buffer, as much as fits, with a newline, and returns how many bytes it read: 0
    /// where the name cannot be read.
    fn name_of(&self, pid: u32, room: &mut [u8]) -> usize
        ensures room { length room.new ≡ length room.old }
        ensures within { result ≤ length room.old };
}

// The process that this `stat` file describes: `None` if the process has ended meanwhile.
fn process_in(rt: &HostRuntime, path: &str) -> Option<Process> {
    let mut text = [0u8; STAT_LIMIT];
    match read_head(rt, path, &mut text) {
        Ok(length) => read_stat(&text[..length]),
        Err(_) => None,
    }
}

impl ProcFiles for HostRuntime {
    fn own(&self) -> io::Result<Process> {
        match process_in(self, "/proc/self/stat") {
            Some(process) => Ok(process),
            None => Err(io::Error::from(ErrorKind::NotFound)),
        }
    }

    fn process_of(&self, pid: u32) -> io::Result<Option<Process>> {
        let path = format!(in self.alloc(); "/proc/{pid}/stat")?;
        Ok(process_in(self, path.as_str()))
    }

    fn processes<A: Allocator + Copy>(&self, alloc: A) -> io::Result<Vec<Process, A>> {
        let mut found = Vec::new(alloc);
        for pid in pids(self, "/proc")? {
            if let Some(process) = self.process_of(pid)? {
                found.push(process).map_err(AllocError::from)?;
            }
        }
        if found.is_empty() {
            return Err(io::Error::from(ErrorKind::NotFound));
        }
        Ok(found)
    }

    fn name_of(&self, pid: u32, room: &mut [u8]) -> usize {
        let Ok(path) = format!(in self.alloc(); "/proc/{pid}/comm") else {
            return 0;
        };
        read_head(self, path.as_str(), room).unwrap_or(0)
    }
}

impl<R: ProcFiles> ProcFiles for &R {
    fn own(&self) -> io::Result<Process> {
        (**self).own()
    }

    fn process_of(&self, pid: u32) -> io::Result<Option<Process>> {
        (**self).process_of(pid)
    }

    fn processes<A: Allocator + Copy>(&self, alloc: A) -> io::Result<Vec<Process, A>> {
        (**self).processes(alloc)
    }

    fn name_of(&self, pid: u32, room: &mut [u8]) -> usize {
        (**self).name_of(pid, room)
    }
}
