//! The moment and the options of a status.
use crate::screen::{has_colours, width_of};
use agents_file::{monotonic_now, read_agents};
use exec_lines::moment_now;
use exec_options::{JournalLocation, Options};
use journal_files::has_executor;
use ocf_types::Moment;
use status_table::StatusOptions;

// The moment now by the clock of the executor that last opened the journal in this directory; `None` if that was before the last boot.
fn executor_moment(rt: &HostRuntime, directory: &str) -> Option<Moment> {
    let (head, _) = read_agents(rt, rt.alloc(), directory)?;
    Some(Moment::cut(head.moment_at(monotonic_now(rt).ok()?)))
}

/// The moment at which ages are taken. The moments of a journal are readings of its executor's clock, which does not follow
/// changes of the system's clock. So this is that clock's reading if it can be known, and else the system's.
pub fn moment_of(rt: &HostRuntime, journal: JournalLocation) -> Moment {
    let known = match journal {
        JournalLocation::Directory(directory) => executor_moment(rt, directory),
        JournalLocation::Memory => None,
    };
    match known {
        Some(moment) => moment,
        None => moment_now(rt),
    }
}

// Whether an executor has the journal at this place, if that is known.
fn executor_of(rt: &HostRuntime, journal: JournalLocation) -> Option<bool> {
    match journal {
        JournalLocation::Directory(directory) => has_executor(rt, directory),
        JournalLocation::Memory => None,
    }
}

/// The options of a status of this moment, for all resources.
pub fn status_options<'a>(rt: &HostRuntime, options: &Options) -> StatusOptions<'a> {
    StatusOptions {
        moment: moment_of(rt, options.journal),
        ids: &[],
        only_bad: options.failed,
        json: options.json,
        colours: has_colours(rt, options.color),
        times: options.times,
        width: width_of(rt),
        alarms: options.exit_code,
        executor: executor_of(rt, options.journal),
        identity: None,
        reasons: &[],
        waits: &[],
    }
}
