//! How agents are put into process groups of their own.
use crate::agent_system::AgentSystem;
use growth::{Grows, Refused, push_text, text_of};
use std::alloc::{Allocator, Global};
use std::io::Eprint;

// The name of the launcher, which is in the directory of this program.
const LAUNCHER: &str = "ocfexec-run-agent";

// Where util-linux's setsid(1) is.
const SETSID: [&str; 2] = ["/usr/bin/setsid", "/bin/setsid"];

/// How an agent is spawned, so that it leads a session and a process group of its own. POSIX, setsid.
#[derive(Drop)]
pub enum Leading<A: Allocator = Global> {
    /// By the launcher at this path, which waits for a byte on its standard input before it runs the agent.
    Launcher(String<A>),
    /// By setsid(1) at this path.
    Setsid(String<A>),
    /// Not at all: the agent stays in the executor's session and group.
    Nothing,
}

impl<A: Allocator> Leading<A> {
    /// The program that is spawned with the agent's program and arguments as its own, if there is one.
    pub fn program(&self) -> Option<&str> {
        match self {
            Leading::Launcher(path) | Leading::Setsid(path) => Some(path.as_str()),
            Leading::Nothing => None,
        }
    }
}

fn launcher_in<A: Grows>(alloc: A, directory: &str) -> Result<String<A>, Refused<A>> {
    let mut path = text_of(alloc, directory)?;
    push_text(&mut path, "/")?;
    push_text(&mut path, LAUNCHER)?;
    Ok(path)
}

// The path of the launcher beside this program: `None` where this program's path cannot be read.
fn launcher_path<R: AgentSystem, A: Grows>(
    rt: &R,
    alloc: A,
) -> Result<Option<String<A>>, Refused<A>> {
    let Ok(own) = rt.own_path(alloc) else {
        return Ok(None);
    };
    match own.as_str().rsplit_once('/') {
        Some((directory, _)) => Ok(Some(launcher_in(alloc, directory)?)),
        None => Ok(None),
    }
}

// The launcher, if it may be run.
fn launcher<R: AgentSystem, A: Grows>(rt: &R, alloc: A) -> Result<Option<Leading<A>>, Refused<A>> {
    match launcher_path(rt, alloc)? {
        Some(path) if rt.check_program(path.as_str()).is_ok() => Ok(Some(Leading::Launcher(path))),
        _ => Ok(None),
    }
}

/// By setsid(1), or, where it is not found, without a group. It fails only where memory is refused.
pub fn setsid<R: AgentSystem, A: Grows>(rt: &R, alloc: A) -> Result<Leading<A>, Refused<A>> {
    for path in SETSID.iter() {
        if rt.check_program(path).is_ok() {
            return Ok(Leading::Setsid(text_of(alloc, path)?));
        }
    }
    Ok(Leading::Nothing)
}

/// How agents are spawned here: by the launcher beside this program; or by setsid(1); or, where neither is found, without a group; without
/// one also where groups are not wanted. It fails only where memory is refused.
pub fn leading_for<R: AgentSystem, A: Grows>(
    rt: &R,
    alloc: A,
    wanted: bool,
) -> Result<Leading<A>, Refused<A>> {
    if !wanted {
        return Ok(Leading::Nothing);
    }
    match launcher(rt, alloc)? {
        Some(launcher) => Ok(launcher),
        None => setsid(rt, alloc),
    }
}

/// The same; that groups are wanted and there are none is reported on standard error.
pub fn leading_of<R: AgentSystem + Eprint, A: Grows>(
    rt: &R,
    alloc: A,
    wanted: bool,
) -> Result<Leading<A>, Refused<A>> {
    let leading = leading_for(rt, alloc, wanted)?;
    if let (Leading::Nothing, true) = (&leading, wanted) {
        let _ = rt.eprintln(
            "ocfexec: agents run in the executor's own process group, and a signal that one sends to its group ends the executor: neither ocfexec-run-agent nor /usr/bin/setsid can be run",
        );
    }
    Ok(leading)
}
