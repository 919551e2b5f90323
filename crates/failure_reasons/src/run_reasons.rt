//! The reason for the failure of one run, as its agent wrote it to a log.
use crate::bytes::{around_first, around_last};
use crate::headings::BEGINS;
use crate::reasons::{LogTail, followed_tail, log_of, tail_at};
use crate::shared_log::SharedLog;
use agent_logs::{Tail, last_reason};
use ocf_types::RscId;
use std::alloc::Global;
use std::io;

// What the agent of a run wrote, from the end of the line before it up to the line before the output of the next run, if there is one.
fn output_of<'a>(log: &'a [u8], heading: &[u8]) -> Option<&'a [u8]> {
    let (_, begun) = around_last(log, heading)?;
    let (_, output) = around_first(begun, b"\n")?;
    match around_first(output, BEGINS.as_bytes()) {
        Some((before, _)) => Some(before),
        None => Some(output),
    }
}

// The last reason that the agent of this run wrote to the log of its resource in this directory.
fn found_in(
    rt: &HostRuntime,
    directory: &str,
    id: &RscId,
    run: u64,
) -> io::Result<Option<Vec<u8>>> {
    let log = tail_at(rt, log_of(rt, directory, id)?.as_str())?;
    let heading = format!(in rt.alloc(); "{BEGINS}{run}: ")?;
    let Some(output) = output_of(log.bytes.as_slice(), heading.as_bytes()) else {
        return Ok(None);
    };
    let tail = Tail {
        bytes: output,
        is_whole: true,
    };
    Ok(last_reason(rt.alloc(), &tail)?)
}

// The whole lines of the end of a log.
fn lines_of(log: &LogTail) -> &[u8] {
    let bytes = log.bytes.as_slice();
    if log.is_whole {
        return bytes;
    }
    match around_first(bytes, b"\n") {
        Some((_, lines)) => lines,
        None => &[],
    }
}

// The last reason that the agent of this run wrote to a log of all resources, as far as the log says who wrote it.
fn found_at(
    rt: &HostRuntime,
    path: &str,
    run: u64,
    oldest: Option<u64>,
) -> io::Result<Option<Vec<u8>>> {
    let log = followed_tail(rt, path)?;
    let mut shared = SharedLog::new(rt.alloc(), run);
    for line in lines_of(&log).split(|byte| *byte == b'\n') {
        shared.read(line)?;
    }
    let Some(line) = shared.last(oldest) else {
        return Ok(None);
    };
    let tail = Tail {
        bytes: line,
        is_whole: true,
    };
    Ok(last_reason(rt.alloc(), &tail)?)
}

/// The last reason that the agent of this run wrote to the log of its resource in this directory, if the log can be read and has it.
pub fn reason_in_directory(
    rt: &HostRuntime,
    directory: &str,
    id: &RscId,
    run: u64,
) -> Option<Vec<u8>> {
    found_in(rt, directory, id, run).unwrap_or(None)
}

/// The last reason that the agent of this run wrote to the log of all resources at this path, if the log can be read and has it in a
/// line that no other run can have written. This is the oldest run that has not ended by now.
pub fn reason_in_file(
    rt: &HostRuntime,
    path: &str,
    run: u64,
    oldest: Option<u64>,
) -> Option<Vec<u8>> {
    found_at(rt, path, run, oldest).unwrap_or(None)
}
