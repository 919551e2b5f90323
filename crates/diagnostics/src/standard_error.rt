//! Reports of the fault that ends the program: one line on standard error, in the views of a journal and in `serve` with its cause. If a
//! person reads that, at a terminal or in the system's journal, a line with advice follows, and one with the cause where the first
//! line has none.
use exec_faults::Fault;
use host_system::System;
use std::fmt::Display;
use std::io::{Eprint, IsTerminal};
use std::os::unix::fs::MetadataExt;
use std::rt::Env;
use std::{fs, str};

// A path that leads to standard error. Linux, proc(5).
const STANDARD_ERROR: &str = "/proc/self/fd/2";

// How many bytes two decimal numbers of 64 bits have at most, with a colon between them.
const STREAM_LIMIT: usize = 41;

// The device and the inode that a text names, as `66306:1234`. systemd.exec(5), JOURNAL_STREAM.
fn device_and_inode(text: &str) -> Option<(u64, u64)> {
    let (device, inode) = text.split_once(':')?;
    Some((device.parse().ok()?, inode.parse().ok()?))
}

/// Whether standard error is the stream to the system's journal that the environment names. It takes no memory, since there may be
/// none.
pub fn is_journal(rt: &HostRuntime) -> bool {
    let mut room = [0u8; STREAM_LIMIT];
    let Ok(length) = rt.var("JOURNAL_STREAM", &mut room) else {
        return false;
    };
    let (Ok(stream), Ok(found)) = (
        str::from_utf8(&room[..length]),
        fs::metadata(rt, STANDARD_ERROR),
    ) else {
        return false;
    };
    device_and_inode(stream) == Some((found.dev(), found.ino()))
}

// Whether a person reads standard error: it is a terminal, or goes to the system's journal.
fn is_for_a_person(rt: &HostRuntime) -> bool {
    rt.stderr().is_terminal() || is_journal(rt)
}

/// Writes the line of a fault.
pub fn name(system: &System<'_>, fault: Fault) {
    let _ = system.eprintln(format_args!("ocfexec: {fault}"));
}

/// Writes a line if a person reads standard error.
pub fn explain<W: Display + Drop>(system: &System<'_>, text: W) {
    if is_for_a_person(system.host()) {
        let _ = system.eprintln(text);
    }
}

/// Writes the advice for a fault, if there is any and a person reads it.
pub fn advise(system: &System<'_>, fault: Fault) {
    if let Some(advice) = fault.advice() {
        explain(system, advice);
    }
}

/// Reports a fault, with advice for a person.
pub fn report(system: &System<'_>, fault: Fault) {
    name(system, fault);
    advise(system, fault);
}

/// Reports a fault, with its cause and advice for a person.
pub fn report_cause<W: Display + Drop>(system: &System<'_>, fault: Fault, cause: W) {
    name(system, fault);
    explain(system, cause);
    advise(system, fault);
}

/// Reports a fault with its cause in one line, and with advice for a person.
pub fn report_in_line<W: Display + Drop>(system: &System<'_>, fault: Fault, cause: W) {
    let _ = system.eprintln(format_args!("ocfexec: {fault}: {cause}"));
    advise(system, fault);
}
