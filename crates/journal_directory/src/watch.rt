//! Prints a status again and again.
ghost use Rattle.journal_files.specs.Ends.{IsDirectoryEnd};

use crate::screen::can_redraw;
use crate::show::show_now;
use exec_faults::Fault;
use exec_options::Options;
use host_system::System;
use std::io::{self, Write};
use std::thread::sleep;
use std::time::Duration;

// To the first line and column of a terminal, and all of it empty. ECMA-48, CUP and ED.
const CLEAR: &[u8] = b"\x1b[H\x1b[2J";

// Writes what comes before a status: a terminal is cleared, and elsewhere an empty line follows the one before. Returns whether somebody
// reads it.
fn begins(rt: &HostRuntime, is_first: bool) -> bool {
    let text = match (can_redraw(rt), is_first) {
        (true, _) => CLEAR,
        (false, true) => b"",
        (false, false) => b"\n",
    };
    let mut output = io::writer(rt);
    output.write_all(text).is_ok() && output.flush().is_ok()
}

// Whether a status that ended so is printed again.
fn goes_on(ended: Result<(), Fault>) -> bool {
    matches!(ended, Ok(()) | Err(Fault::NotWell | Fault::NoExecutor))
}

/// Prints the status of the journal in this directory every so many seconds, until nobody reads it or it fails.
pub fn watch_files(
    system: &System<'_>,
    options: Options,
    directory: &str,
    seconds: u64,
) -> Result<(), Fault>
    ensures { IsDirectoryEnd result }
{
    let rt = system.host();
    for count in 0..u64::MAX {
        if !begins(rt, count == 0) {
            return Ok(());
        }
        let ended = show_now(system, options, directory);
        if !goes_on(ended) {
            return ended;
        }
        sleep(rt, Duration::from_secs(seconds));
    }
    Ok(())
}
