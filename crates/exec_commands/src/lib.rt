//! Reads lines of JSON.
#![tactic(auto)]

mod blame;
mod commands;
mod counts;
mod key;
mod keys;
mod line;
mod message;
mod operation;
mod params;
mod range;
mod read;
mod refused;
mod rules;
mod served;
mod strict;
mod tag;
mod texts;
mod values;

pub use key::Key;
pub use line::{Line, Served};
pub use message::add_message;
pub use range::{LONGEST_LIMIT, Range};
pub use read::read_command;
pub use refused::{About, LineRefusal, about_key};
pub use strict::read_strictly;
pub use tag::{TAG_LIMIT, Tag};
