//! Reports of waits for processes of earlier actions, on standard error.
use crate::wait::{Wait, pid_of};
use agent_system::{AgentSystem, name_text};
use std::alloc::Allocator;
use std::io::Eprint;
use std::str;

// How many bytes of a command's name are read.
const NAME_LIMIT: usize = 256;

// Whether the name of a process's command can be read: a process that was reaped has none.
fn has_name<R: AgentSystem>(rt: &R, pid: u32) -> bool {
    let mut room = [0u8; 1];
    rt.name_of(pid, &mut room) > 0
}

// The number of a process that lives on: the agent's until that was reaped, then that of a process that was found last.
fn pid_left<R: AgentSystem, C: Drop, A: Allocator>(rt: &R, wait: &Wait<C, A>) -> u32 {
    if wait.child.is_some() {
        return wait.process.pid;
    }
    match wait
        .known
        .iter()
        .rev()
        .find(|process| has_name(rt, process.pid))
    {
        Some(process) => process.pid,
        None => wait.process.pid,
    }
}

/// Reports that a resource waits for a process that was killed and lives on.
pub fn report_begun<R: AgentSystem + Eprint, C: Drop, A: Allocator>(rt: &R, wait: &Wait<C, A>) {
    let (id, pid, action) = (
        name_text(wait.process.id.as_bytes()),
        pid_left(rt, wait),
        wait.what.action.word(),
    );
    let mut room = [0u8; NAME_LIMIT];
    let length = rt.name_of(pid, &mut room);
    let name = str::from_utf8(&room[..length])
        .unwrap_or_default()
        .trim_end();
    let _ = rt.eprintln(format_args!(
        "ocfexec: {id} waits for pid {pid} ({name}) of {action}, which is still alive after SIGKILL"
    ));
}

/// Reports that a resource waits for a process of an earlier executor, for at most this many milliseconds.
pub fn report_orphan<R: Eprint, C: Drop, A: Allocator>(rt: &R, wait: &Wait<C, A>, millis: u64) {
    let (id, pid, action) = (
        name_text(wait.process.id.as_bytes()),
        pid_of(wait),
        wait.what.action.word(),
    );
    let seconds = millis.div_ceil(1_000);
    let _ = rt.eprintln(format_args!(
        "ocfexec: {id} waits for pid {pid} of {action}, at most {seconds} s more"
    ));
}

/// Reports that the time of a process of an earlier executor is over.
pub fn report_overdue<R: Eprint, C: Drop, A: Allocator>(rt: &R, wait: &Wait<C, A>) {
    let (id, pid, action) = (
        name_text(wait.process.id.as_bytes()),
        pid_of(wait),
        wait.what.action.word(),
    );
    let _ = rt.eprintln(format_args!(
        "ocfexec: {id}: the time of pid {pid} of {action} is over, and it is killed"
    ));
}

/// Reports that a wait is over, if its begin was reported.
pub fn report_over<R: Eprint, C: Drop, A: Allocator>(rt: &R, wait: &Wait<C, A>) {
    if !wait.what.is_reported {
        return;
    }
    let (id, pid, action) = (
        name_text(wait.process.id.as_bytes()),
        pid_of(wait),
        wait.what.action.word(),
    );
    let _ = rt.eprintln(format_args!(
        "ocfexec: {id} waits no longer: pid {pid} of {action} has ended"
    ));
}
