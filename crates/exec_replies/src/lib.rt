//! Writes replies and notices as lines of JSON.
#![tactic(auto)]

mod ends;
mod info;
mod journal_id;
mod json_lines;
mod kind;
mod line_buffer;
mod line_tokens;
mod marks;
mod names;
mod notice;
mod refused;
mod reply;
mod results;
mod service;
mod statuses;
mod tagged;
mod write;

pub use ends::{DrainEnd, tidy_word, turn_word};
pub use journal_id::{JOURNAL_ID_LEN, JournalId};
pub use json_lines::JsonLines;
pub use kind::LineKind;
pub use line_buffer::LineBuffer;
pub use notice::{NoticeForm, Origin};
pub use reply::LineReply;
pub use service::{Counts, Service};
pub use statuses::{Statuses, value_text};
pub use tagged::Tagged;
pub use write::{write_answer, write_notice, write_reply};
