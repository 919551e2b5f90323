//! The state machine of an executor of OCF resource agents: its states, what an event does to them, and replies to requests.
#![tactic(auto)]

mod items;
pub mod laws;
mod refusal;
mod reply;
mod resource_parts;
mod state_parts;
mod state_view;

pub use items::Items;
pub use refusal::Refusal;
pub use reply::{Info, InfoOf, Reply, ReplyOf, TidyEnd, TurnEnd};
pub use resource_parts::{HistoryParts, ResourceParts};
pub use state_parts::StateParts;
pub use state_view::StateView;
