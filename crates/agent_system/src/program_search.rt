//! Whether the program of an invocation can be run.
use crate::agent_system::AgentSystem;
use crate::leading::Leading;
use ocf_env::Invocation;
use std::alloc::Allocator;
use std::io::{self, ErrorKind};

// The directories in which a program without a slash is searched: those of the agent's `PATH`. POSIX, execvp.
fn search_path<L: Allocator>(invocation: &Invocation<L>) -> &str {
    for (name, value) in invocation.environment() {
        if name.as_str() == "PATH" {
            return value.as_str();
        }
    }
    ""
}

// Why no file of this name in these directories can be run: that it may not, if there is one. Agents run in the root directory. POSIX,
// execvp.
fn check_search<R: AgentSystem, A: Allocator + Copy>(
    rt: &R,
    alloc: A,
    directories: &str,
    name: &str,
) -> io::Result<()> {
    let mut why = ErrorKind::NotFound;
    for directory in directories.split(':') {
        let path = format!(in alloc; "/{directory}/{name}")?;
        match rt.check_program(path.as_str()) {
            Ok(()) => return Ok(()),
            Err(error) if error.kind() == ErrorKind::PermissionDenied => why = error.kind(),
            Err(_) => {}
        }
    }
    Err(io::Error::from(why))
}

/// Why the program of an invocation cannot be run: the error that a spawn of it meets. It is looked at only where another program is
/// spawned that runs it, since then the spawn does not tell. POSIX, access and execvp.
pub fn check_program<R: AgentSystem, A: Allocator + Copy, B: Allocator, L: Allocator>(
    rt: &R,
    alloc: A,
    leading: &Leading<B>,
    invocation: &Invocation<L>,
) -> io::Result<()> {
    let program = invocation.program();
    match leading {
        Leading::Nothing => Ok(()),
        _ if program.split_once('/').is_none() => {
            check_search(rt, alloc, search_path(invocation), program)
        }
        _ => rt.check_program(program),
    }
}
