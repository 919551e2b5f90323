//! Asks agents for their metadata.
#![tactic(auto)]

mod asking;
pub mod laws;
mod meta;
mod meta_child;
mod meta_output;

pub use asking::{ask_agent, end_one};
pub use meta::run_meta;
pub use meta_child::{MetaCall, MetaChild, MetaPoll};
