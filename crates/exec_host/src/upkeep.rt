//! How a session looks after its agents, by the options.
ghost use Rattle.std.specs.Prelude.{◌≡◌, option_map};
ghost use Rattle.exec_options.specs.Arguments.{directory_of};
ghost use Rattle.exec_host.specs.Upkeeps.{upkeep_of, upkeep_view};

use crate::host::Upkeep;
use exec_options::{JournalLocation, Options};

/// The directory of the journal, unless that is in memory.
pub fn directory_of<'a>(journal: JournalLocation<'a>) -> Option<&'a str>
    ensures { option_map (λ s. s.now) result ≡ directory_of journal.entry }
{
    match journal {
        JournalLocation::Directory(directory) => Some(directory),
        JournalLocation::Memory => None,
    }
}

/// How a session looks after its agents, as these options say.
pub fn upkeep_of<'a>(options: Options<'a>) -> Upkeep<'a>
    ensures { upkeep_view result ≡ upkeep_of options.entry }
{
    Upkeep {
        directory: directory_of(options.journal),
        limit: options.orphans,
        leave: options.leave_orphans,
        groups: !options.no_groups,
    }
}
