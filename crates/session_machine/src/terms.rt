//! The limits of a drain.

/// The limits of a drain.
#[derive(Clone, Copy)]
pub struct Terms {
    /// Whether it ends once nothing is queued or running. A watch does not.
    pub ends_idle: bool,
    /// The time of its limit, in milliseconds since 1970.
    pub until: u64,
    /// The most turns that it makes in all; it makes one even if this is 0.
    pub most: u64,
}
