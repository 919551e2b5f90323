//! The reasons that agents write to their logs.
use exec_client::{FailedRun, Reasons};
use failure_reasons::{reason_in_directory, reason_in_file};
use growth::{push, text_of};
use ocf_env::Text;
use std::alloc::Global;
use std::cell::RefCell;
use std::str::from_utf8;

// The greatest number of runs whose reasons are remembered.
const RUN_LIMIT: usize = 4_096;

// Where agents write.
#[derive(Drop)]
enum Logs {
    // Nowhere where a reason could be found.
    None,
    // A directory with a log for each resource.
    Directory(String),
    // A log of all resources.
    File(String),
}

// A run that failed, and its reason, if the log had one.
#[derive(Drop)]
struct KnownRun {
    run: u64,
    reason: Option<Text>,
}

/// The reasons in agents' logs. Each is looked for once, when its failure is first reported, and then remembered, also after the log has grown
/// past it.
#[derive(Drop)]
pub struct LogReasons {
    rt: HostRuntime,
    logs: Logs,
    known: RefCell<Vec<KnownRun>>,
}

// Where agents write, by the options.
fn logs_of(alloc: Global, log: Option<&str>, logs: Option<&str>) -> Logs {
    match (logs, log) {
        (Some(directory), _) => match String::from_str(alloc, directory) {
            Ok(directory) => Logs::Directory(directory),
            Err(_) => Logs::None,
        },
        (None, Some("-")) | (None, None) => Logs::None,
        (None, Some(file)) => match String::from_str(alloc, file) {
            Ok(file) => Logs::File(file),
            Err(_) => Logs::None,
        },
    }
}

// The same text again, if there is one and memory for it.
fn copied(alloc: Global, text: Option<&str>) -> Option<Text> {
    Some(Text::new(text_of(alloc, text?).ok()?))
}

// The reason of a run.
fn text_in(run: &KnownRun) -> Option<&str> {
    match &run.reason {
        Some(text) => Some(text.as_str()),
        None => None,
    }
}

// Remembers a run; at the limit the oldest one is forgotten. Nothing is remembered for which memory is refused.
fn remember(known: &mut Vec<KnownRun>, run: KnownRun) {
    if known.len() >= RUN_LIMIT {
        let _ = known.remove(0);
    }
    let _ = push(known, run);
}

impl LogReasons {
    /// The reasons in a directory with a log for each resource, if one is named, else those in a log of all resources. None are found on
    /// standard error, named `-`, or if there is no memory for the name.
    pub fn new(rt: HostRuntime, log: Option<&str>, logs: Option<&str>) -> LogReasons {
        LogReasons {
            rt,
            logs: logs_of(rt.alloc(), log, logs),
            known: RefCell::new(Vec::new(rt.alloc())),
        }
    }

    // The reason in the log.
    fn found(&self, failed: &FailedRun) -> Option<Text> {
        let rt = &self.rt;
        let reason = match &self.logs {
            Logs::None => None,
            Logs::Directory(name) => reason_in_directory(rt, name.as_str(), failed.id, failed.run),
            Logs::File(name) => reason_in_file(rt, name.as_str(), failed.run, failed.oldest),
        }?;
        copied(rt.alloc(), from_utf8(reason.as_slice()).ok())
    }
}

impl Reasons for LogReasons {
    fn reason_of(&self, failed: &FailedRun) -> Option<Text> {
        let Ok(mut known) = self.known.try_borrow_mut() else {
            return None;
        };
        if let Some(run) = known.iter().find(|known| known.run == failed.run) {
            return copied(self.rt.alloc(), text_in(run));
        }
        let run = KnownRun {
            run: failed.run,
            reason: self.found(failed),
        };
        let reason = copied(self.rt.alloc(), text_in(&run));
        remember(&mut known, run);
        reason
    }
}
