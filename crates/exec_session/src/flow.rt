//! How a session goes on.

/// How a session goes on.
#[derive(Clone, Copy)]
pub enum Flow {
    /// It reads on, and in `serve` makes turns.
    GoesOn,
    /// It is over, and all that it owed is sent.
    Over,
}
