//! The machine of a session: its states, what it may do in each, and the edge, whose calls require that it may.
#![tactic(auto)]

mod edge;
mod failed;
pub mod laws;
mod metadata;
mod note;
mod rules;
mod system_edge;
mod terms;

pub use edge::Edge;
pub use failed::Failed;
pub use metadata::Metadata;
pub use note::SessionNote;
pub use rules::{Mode, Rules};
pub use system_edge::{EdgeParts, SystemEdge};
pub use terms::Terms;
