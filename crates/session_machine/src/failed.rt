//! An input or a client that failed.

/// The input or the client of a session failed, or nobody reads its output any more. Its edge knows how.
#[derive(Clone, Copy)]
pub struct Failed;
