//! The fault of a store.
use thiserror::Error;

/// A device of the store failed, and the ledger is closed: it is opened again from its store.
#[derive(Clone, Copy, Debug, PartialEq, Eq, Error)]
#[error("the device failed")]
pub struct StoreFault;
