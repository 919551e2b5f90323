//! The answers about agent processes, and the entries of the book.
use ocf_types::{RunId, StartFault};
use thiserror::Error;

/// The result of a poll of an agent process.
#[derive(Clone, Copy)]
pub enum Poll {
    /// It still runs.
    Running,
    /// It ended with this exit code. OCF Resource Agent API 1.1, exit codes.
    Exited(u8),
    /// This signal ended it, as signal(7) numbers them; 0 where the system names none.
    Signaled(u8),
    /// The system failed to answer. The process is given up.
    Fault,
}

/// The system refused to kill an agent process, which is given up all the same.
#[derive(Clone, Copy, Debug, PartialEq, Eq, Error)]
#[error("an agent could not be killed: look for its process")]
pub struct KillFault;

/// A call for an agent process, with its result.
#[derive(Clone, Copy)]
pub enum Answer {
    /// Its start.
    Start(Result<(), StartFault>),
    /// A poll.
    Poll(Poll),
    /// A kill.
    Kill(Result<(), KillFault>),
}

/// An entry of the book: one call and its result.
#[derive(Clone, Copy)]
pub struct Entry {
    /// The run that was started, polled or killed.
    pub run: RunId,
    /// For a start, how many device calls the store had made by then; else 0.
    pub at: u64,
    pub answer: Answer,
}
