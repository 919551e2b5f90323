//! Logs of agents' output: where they are, and the lines around an agent's own output.
#![tactic(auto)]

mod copier;
mod directory;
mod lines;
mod log;
mod reason;
mod shown;
mod streams;
mod tail;
mod unnamed;

pub use directory::LogDirectory;
pub use lines::{Begun, Ended, LoggedEnd, Stamp, begun_line, ended_line};
pub use log::{Log, Outlet};
pub use reason::last_reason;
pub use streams::{Streams, Uncopied};
pub use tail::Tail;
