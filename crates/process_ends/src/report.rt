//! Reports on standard error about processes that were to be ended.
use agent_system::AgentSystem;
use proc_files::Process;
use std::fmt::Display;
use std::io::{self, Eprint};
use std::str;

// How many bytes of a command's name are read.
const NAME_LIMIT: usize = 256;

// The name of a process's command, empty where it cannot be read.
fn name_of<'a, R: AgentSystem>(rt: &R, pid: u32, room: &'a mut [u8]) -> &'a str {
    let length = rt.name_of(pid, room);
    str::from_utf8(&room[..length])
        .unwrap_or_default()
        .trim_end()
}

/// Reports a child that was killed and lives on, by its number, its command and what it belongs to.
pub fn report_alive<R: AgentSystem + Eprint, W: Display + Drop>(rt: &R, pid: u32, whose: W) {
    let mut room = [0u8; NAME_LIMIT];
    let name = name_of(rt, pid, &mut room);
    let _ = rt.eprintln(format_args!(
        "ocfexec: pid {pid} ({name}) of {whose} is still alive after SIGKILL"
    ));
}

// Reports a process that was killed and lives on, by its number and its command.
fn report_left<R: AgentSystem + Eprint>(rt: &R, process: &Process) {
    let pid = process.pid;
    let mut room = [0u8; NAME_LIMIT];
    let name = name_of(rt, pid, &mut room);
    let _ = rt.eprintln(format_args!(
        "ocfexec: pid {pid} ({name}), started by an action, is still alive after SIGKILL"
    ));
}

/// Reports processes that were killed and live on.
pub fn report_all<R: AgentSystem + Eprint>(rt: &R, processes: &[Process]) {
    for process in processes {
        report_left(rt, process);
    }
}

/// Reports why some of the processes that are to be ended were not found or not suspended.
pub fn report_unstopped<R: Eprint>(rt: &R, error: &io::Error) {
    let _ = rt.eprintln(format_args!(
        "ocfexec: cannot find and stop all processes that a killed action started: {error}"
    ));
}
