//! The signals that were ignored when the program started.
use host_system::System;
use proc_files::{is_ignored, read_head};
use std::alloc::{AllocError, Global};
use std::io::Eprint;

// The number of SIGCHLD. Linux, signal(7).
const SIGCHLD: u8 = 17;

// The signals that an agent inherits as ignored, with their numbers on x86 and ARM. Linux, signal(7). SIGKILL and SIGSTOP cannot be
// ignored, SIGCHLD is refused, and SIGPIPE is at its default in each agent.
const INHERITED: [(u8, &str); 27] = [
    (1, "SIGHUP"),
    (2, "SIGINT"),
    (3, "SIGQUIT"),
    (4, "SIGILL"),
    (5, "SIGTRAP"),
    (6, "SIGABRT"),
    (7, "SIGBUS"),
    (8, "SIGFPE"),
    (10, "SIGUSR1"),
    (11, "SIGSEGV"),
    (12, "SIGUSR2"),
    (14, "SIGALRM"),
    (15, "SIGTERM"),
    (16, "SIGSTKFLT"),
    (18, "SIGCONT"),
    (20, "SIGTSTP"),
    (21, "SIGTTIN"),
    (22, "SIGTTOU"),
    (23, "SIGURG"),
    (24, "SIGXCPU"),
    (25, "SIGXFSZ"),
    (26, "SIGVTALRM"),
    (27, "SIGPROF"),
    (28, "SIGWINCH"),
    (29, "SIGIO"),
    (30, "SIGPWR"),
    (31, "SIGSYS"),
];

// How many bytes of `/proc/self/status` are read.
const STATUS_LIMIT: usize = 16_384;

/// Whether SIGCHLD is ignored: the system then reaps each child itself, and reports no exit status. `false` where `/proc` cannot be
/// read. Linux, signal(7) and wait(2).
pub fn children_ignored(rt: &HostRuntime) -> bool {
    let mut status = [0u8; STATUS_LIMIT];
    match read_head(rt, "/proc/self/status", &mut status) {
        Ok(length) => is_ignored(&status[..length], SIGCHLD),
        Err(_) => false,
    }
}

// The line SigIgn of a status, with its newline: empty if there is none.
fn ignored_line(status: &[u8]) -> &[u8] {
    let mut lines = status.split_inclusive(|byte| *byte == b'\n');
    match lines.find(|line| line.starts_with(b"SigIgn:")) {
        Some(line) => line,
        None => &status[..0],
    }
}

// The names of the signals that agents inherit as ignored, by that line, as `SIGINT, SIGQUIT`. It fails only where memory is refused.
fn ignored_names(alloc: Global, line: &[u8]) -> Result<String, AllocError> {
    let mut names = String::new(alloc);
    for (number, name) in INHERITED.iter() {
        if is_ignored(line, *number) {
            if !names.is_empty() {
                names.push_str(", ")?;
            }
            names.push_str(name)?;
        }
    }
    Ok(names)
}

/// Reports the signals that agents inherit as ignored, in one line on standard error. Nothing is written if there are none or
/// `/proc` cannot be read.
pub fn report_ignored(system: &System<'_>) {
    let rt = system.host();
    let mut status = [0u8; STATUS_LIMIT];
    let Ok(length) = read_head(rt, "/proc/self/status", &mut status) else {
        return;
    };
    let Ok(names) = ignored_names(rt.alloc(), ignored_line(&status[..length])) else {
        return;
    };
    if !names.is_empty() {
        let _ = system.eprintln(format_args!(
            "ocfexec: started with ignored signals, which agents inherit: {names}"
        ));
    }
}
