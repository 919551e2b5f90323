//! The request of a line.
use crate::refused::LineRefusal;
use crate::tag::Tag;
use ocf_types::{AgentType, Provider, Request};

/// The request of a line.
#[derive(Drop)]
pub enum Line {
    /// A command or a question for the executor.
    Request(Request),
    /// Turns until nothing is queued or running, for this many milliseconds at most: from 0 to 86,400,000.
    Drain(u32),
    /// Turns for this many milliseconds, whether or not anything is queued or running: from 1 to 4,294,967,295.
    Watch(u32),
    /// A tidy: writes the whole state as the snapshot of the journal's other part.
    Tidy,
    /// An orderly end of the session: no further command is accepted, running actions end within their timeouts and are recorded
    /// and reported, and then the session ends. In a `serve` session only.
    Leave,
    /// The version of the program. In a `serve` session only.
    Version,
    /// The status of all resources. In a `serve` session only.
    Status,
    /// The metadata of an agent, which may take this many milliseconds at most, from 0 to 86,400,000; any time if there is no
    /// limit. OCF Resource Agent API 1.1, meta-data.
    Meta {
        provider: Provider,
        agent: AgentType,
        limit: Option<u32>,
    },
    /// A line that is refused for its content. In a `serve` session only.
    Refused(LineRefusal),
}

/// A line of a `serve` session, with its tag.
#[derive(Drop)]
pub struct Served {
    pub line: Line,
    /// The client's text that the reply and the notices repeat.
    pub tag: Option<Tag>,
}
