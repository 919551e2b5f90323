//! Reads the arguments of `ocfexec`'s command line by `clap`.
#![tactic(auto)]

mod app;
mod arguments;
mod fault;
mod once;
mod options;
mod resources;
mod rows;
mod table;
mod texts;
mod times;
mod values;

pub use arguments::{Wanted, is_once, read_arguments};
pub use fault::{ArgumentsFault, BadValue};
pub use once::{JournalResource, NamedAgent, OnceOptions, OnceTarget};
pub use options::{Color, JournalLocation, Options, Since, Subcommand};
pub use resources::Resources;
pub use texts::VERSION;
