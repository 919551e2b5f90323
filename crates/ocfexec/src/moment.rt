//! What the clock of an executor shows, in the record of its agents.
use agents_file::{AgentsFile, Head, boot_id, monotonic_now};
use exec_lines::moment_now;
use std::io;
use std::rt::Clock;

/// Records what the clock of an executor shows now, in the record of agents of a directory, which keeps its entries, where that is ahead of
/// the system's clock because the journal was: the record was made by the system's clock.
pub fn record_moment(rt: &HostRuntime, directory: &str, clock: &impl Clock) -> io::Result<()> {
    let moment = moment_now(clock).get();
    if moment <= moment_now(rt).get() {
        return Ok(());
    }
    let head = Head {
        boot: boot_id(rt)?,
        moment,
        monotonic: monotonic_now(rt)?,
    };
    AgentsFile::open(rt, rt.alloc(), directory, head)?;
    Ok(())
}
