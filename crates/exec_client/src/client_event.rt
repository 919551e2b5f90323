//! What a client is asked, with the answers.

/// A call of a client, with its answer.
#[derive(Clone, Copy)]
pub enum ClientEvent {
    /// A message: whether all of it was sent. Otherwise writing failed, or there was no memory for a line.
    Sent(bool),
    /// Whether anybody may still read what is sent.
    HasReader(bool),
}
