//! Orphans: agents that outlive the executor that started them.
use crate::numbers::RunId;

/// A process of an interrupted run that is still alive.
#[derive(Clone, Copy)]
pub struct Orphan {
    pub run: RunId,
    /// Its process id, as in proc(5).
    pub pid: u32,
}
