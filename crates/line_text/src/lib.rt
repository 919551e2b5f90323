//! A text that is built piece by piece. Its failure sticks, so that only its end has to be looked at.
#![tactic(auto)]

mod line_text;
mod spans;

pub use line_text::LineText;
