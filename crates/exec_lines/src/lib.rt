//! Lines of input, replies, the input, the clock and the output of a session.
#![tactic(auto)]

mod buffer;
mod buffered;
mod clock_ticker;
mod input;
mod io_fault;
mod line;
mod line_input;
mod moment;
mod note;
mod output;
mod patient;
mod poll;
mod polled;
mod put;
mod read_ahead;
mod reply;
mod session_clock;
mod ticker;

pub use buffer::LineBuffer;
pub use buffered::Buffered;
pub use clock_ticker::ClockTicker;
pub use input::Input;
pub use io_fault::IoFault;
pub use line::{Next, Piece};
pub use line_input::LineInput;
pub use moment::{moment_now, moment_of};
pub use output::Output;
pub use patient::Patient;
pub use put::put_bytes;
pub use read_ahead::ReadAhead;
pub use reply::{write_bytes, write_flushed};
pub use session_clock::SessionClock;
pub use ticker::Ticker;
