//! The system that the program runs on, and the lines of a session on it.
#![tactic(auto)]

mod host;
mod limits;
mod lines;
mod options;
mod site;
mod upkeep;

pub use host::{Host, Upkeep};
pub use limits::{BOOK_ROOM, MOST_TURNS};
pub use lines::{LineParts, LinesEnd, answer_lines};
pub use options::served_directory;
pub use site::{site_of, site_of_once};
pub use upkeep::upkeep_of;
