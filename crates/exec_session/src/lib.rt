//! A session of an executor over its input: command lines are answered one by one, drains and watches go turn by turn, and in `serve` the
//! session also makes turns by itself.
#![tactic(auto)]

mod answer;
mod drain;
mod flow;
mod gathered;
mod held;
mod lines;
mod pace;
mod pause;
mod pending;
mod reading;
mod room;
mod send;
mod session;
mod turn;
mod wait;

pub use pending::LineRoom;
pub use session::{Run, run_lines};
