//! Reasons of failures, as agents wrote them to their logs.
use agent_logs::{Tail, last_reason};
use host_system::System;
use ocf_types::RscId;
use std::alloc::{AllocError, Global};
use std::fs::{self, Metadata, OpenOptions};
use std::io::{self, ErrorKind};
use std::os::unix::fs::FileExt;
use std::str::from_utf8;

// How many bytes of a log are read at most, from its end.
const TAIL: u64 = 65_536;

/// The last reason in the log of a resource.
#[derive(Drop)]
pub struct FoundReason {
    id: RscId,
    text: Vec<u8>,
}

impl FoundReason {
    /// The resource.
    pub fn id(&self) -> &RscId {
        &self.id
    }

    /// The reason; empty where it is no text.
    pub fn text(&self) -> &str {
        from_utf8(self.text.as_slice()).unwrap_or_default()
    }
}

/// The end of a log.
#[derive(Drop)]
pub struct LogTail {
    pub bytes: Vec<u8>,
    /// Whether it is the whole log.
    pub is_whole: bool,
}

// Fails if this is not a plain file.
fn must_be_plain(found: &Metadata) -> io::Result<()> {
    if found.is_file() {
        return Ok(());
    }
    Err(io::Error::new(ErrorKind::InvalidInput, "not a plain file"))
}

/// The end of the file at this path. It fails if there is no file, or something that is not a plain file, as a link.
pub fn tail_at(rt: &HostRuntime, path: &str) -> io::Result<LogTail> {
    must_be_plain(&fs::symlink_metadata(rt, path)?)?;
    followed_tail(rt, path)
}

/// The end of the file to which this path leads. It fails if there is no file, or something that is not a plain file.
pub fn followed_tail(rt: &HostRuntime, path: &str) -> io::Result<LogTail> {
    must_be_plain(&fs::metadata(rt, path)?)?;
    let mut options = OpenOptions::new();
    let file = options.read(true).open(rt, path)?;
    let size = file.metadata()?.len();
    let start = size.saturating_sub(TAIL);
    let mut bytes = vec![in rt.alloc(); 0; (size - start) as usize]?;
    file.read_exact_at(&mut bytes, start)?;
    Ok(LogTail {
        bytes,
        is_whole: start == 0,
    })
}

// The last reason in the file at this path.
fn reason_at(rt: &HostRuntime, path: &str) -> io::Result<Option<Vec<u8>>> {
    let log = tail_at(rt, path)?;
    let tail = Tail {
        bytes: log.bytes.as_slice(),
        is_whole: log.is_whole,
    };
    Ok(last_reason(rt.alloc(), &tail)?)
}

/// The path of the log of a resource.
pub fn log_of(rt: &HostRuntime, directory: &str, id: &RscId) -> io::Result<String> {
    let name = from_utf8(id.as_bytes()).unwrap_or_default();
    Ok(format!(in rt.alloc(); "{directory}/{name}.log")?)
}

// The last reason in the log of a resource; `None` also where there is no log, as of an agent that never wrote.
fn reason_of(rt: &HostRuntime, directory: &str, id: &RscId) -> io::Result<Option<FoundReason>> {
    match reason_at(rt, log_of(rt, directory, id)?.as_str()) {
        Ok(Some(text)) => Ok(Some(FoundReason {
            id: id.copied(),
            text,
        })),
        Ok(None) => Ok(None),
        Err(error) if error.kind() == ErrorKind::NotFound => Ok(None),
        Err(error) => Err(error),
    }
}

// Reports that the log of a resource cannot be read.
fn report(system: &System<'_>, directory: &str, id: &RscId, error: &io::Error) {
    let name = from_utf8(id.as_bytes()).unwrap_or_default();
    let _ = system.eprintln(format_args!(
        "ocfexec: log {directory}/{name}.log cannot be read: {error}"
    ));
}

/// The last reasons in the logs of these resources, as far as the logs can be read. The first log that cannot is reported on
/// standard error.
pub fn reasons_in(
    system: &System<'_>,
    directory: &str,
    ids: &[RscId],
) -> Result<Vec<FoundReason>, AllocError> {
    let rt = system.host();
    let mut found = Vec::new(rt.alloc());
    let mut is_reported = false;
    for id in ids {
        match reason_of(rt, directory, id) {
            Ok(Some(reason)) => found.push(reason)?,
            Ok(None) => {}
            Err(error) => {
                if !is_reported {
                    report(system, directory, id, &error);
                }
                is_reported = true;
            }
        }
    }
    Ok(found)
}
