//! A device call, as it ended.
use ocf_types::Part;

/// A device call, with its result.
#[derive(Clone, Copy)]
pub enum Call {
    /// The length of a part was returned.
    Measured(Part, u64),
    /// The bytes of a part from this offset on were returned.
    Read(Part, u64),
    /// A write into a part from this offset on succeeded.
    Wrote(Part, u64),
    /// A write into a part from this offset on failed: any part of it may have been made.
    Tried(Part, u64),
    /// A sync of a part succeeded.
    Synced(Part),
    /// A call that writes nothing, or a sync, failed.
    Failed,
    /// No call was made.
    Refused,
}
