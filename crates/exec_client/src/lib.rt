//! What a client of an executor is sent, and when: nothing is acknowledged before it is recorded.
#![tactic(auto)]

mod client;
mod client_event;
mod event_lines;
mod eventful;
mod failures;
mod json_client;
mod kept_calls;
pub mod laws;
mod message;
mod notices;
mod reasons;
mod replies;
mod sent_log;
mod signals;
mod strict;
mod tags;
mod waiting;

pub use client::Client;
pub use client_event::ClientEvent;
pub use eventful::{Eventful, Events};
pub use json_client::JsonClient;
pub use message::{Message, TurnNotices};
pub use reasons::{FailedRun, NoReasons, Reasons};
pub use strict::Strict;
pub use tags::Tags;
