//! What the results of a resource mean: in words, as its condition, as counts of its runs, and as JSON.
#![tactic(auto)]

mod condition;
mod count;
mod counting;
mod ends;
mod facts;
pub mod laws;
mod meanings;
mod reasons;
mod results;
mod status_data;

pub use condition::{
    Condition, Known, Recorded, Since, condition_by, condition_of, held_in, known_of, since_by,
    since_of,
};
pub use count::RunCount;
pub use counting::{RunCounts, count_event, count_of};
pub use ends::{end_of, ending};
pub use facts::{RecordedById, recorded_in, recorded_of, take_event};
pub use meanings::{Tone, failure_meaning, meaning, tone_of};
pub use reasons::{RunReason, reason_of};
pub use results::last_run;
pub use status_data::{failure_value, id_text, reason_value, resource_value, statuses_of};
