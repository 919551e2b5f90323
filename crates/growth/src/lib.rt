//! Growths of vectors, strings, maps and rings that an allocator may refuse. Contracts see the refusal, so a function can promise
//! to report lack of memory only if an allocation was refused.
#![tactic(auto)]

mod growth;
mod texts;
mod vectors;

pub use growth::{GROWTH_LIMIT, Grows, Refused, granted};
pub use texts::{push_text, text_of};
pub use vectors::{append, fill, push, vec_of, with_capacity};
