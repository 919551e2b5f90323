//! When a snapshot is made durable.

/// When the pieces of a snapshot are made durable.
#[derive(Clone, Copy)]
pub enum SnapshotSync {
    /// Each before the next one is written.
    EachPiece,
    /// All of them, after the last one.
    AtEnd,
}
