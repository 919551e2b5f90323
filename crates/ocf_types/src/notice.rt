//! Notices: results as they are reported.
use crate::expect::Expect;
use crate::operation::Ended;
use crate::rsc_id::RscId;

/// The result of one action of a resource.
#[derive(Drop)]
pub struct Notice {
    pub id: RscId,
    pub result: Ended,
    /// The expectation of the action.
    pub expect: Expect,
}
