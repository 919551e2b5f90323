//! The options of the subcommands with a journal.
ghost use Rattle.std.specs.Prelude.{◌≡◌, ◌≢◌, IfSome, IfNone};
ghost use Rattle.exec_options.specs.declared.options.Subcommand.{Subcommand};
ghost use Rattle.exec_options.specs.Subcommands.{is_query, subcommand_word};

use crate::resources::Resources;

/// A subcommand that has a journal.
#[derive(Clone, Copy)]
pub enum Subcommand {
    /// Reads commands and replies to each.
    Run,
    /// The same, and also makes turns between commands.
    Serve,
    /// Prints the contents of the journal as JSON.
    Show,
    /// Prints them as a table for a person.
    Status,
    /// Prints the records of the journal.
    Log,
    /// Prints the contents of the journal as metrics.
    Metrics,
}

impl Subcommand {
    /// The subcommand of this name.
    pub(crate) fn of(name: &str) -> Option<Subcommand>
        ensures found { IfSome result (λ s. name.now ≡ subcommand_word s) }
        ensures none { IfNone result ((s : Subcommand) → name.now ≢ subcommand_word s) }
    {
        if name == "run" {
            Some(Subcommand::Run)
        } else if name == "serve" {
            Some(Subcommand::Serve)
        } else if name == "show" {
            Some(Subcommand::Show)
        } else if name == "status" {
            Some(Subcommand::Status)
        } else if name == "log" {
            Some(Subcommand::Log)
        } else if name == "metrics" {
            Some(Subcommand::Metrics)
        } else {
            None
        }
    }

    /// Whether it only reads a journal, which another process may have open, and starts no agent.
    pub fn is_query(self) -> bool
        ensures { result ≡ is_query self }
    {
        !matches!(self, Subcommand::Run | Subcommand::Serve)
    }
}

/// Where the journal is kept.
#[derive(Clone, Copy)]
pub enum JournalLocation<'a> {
    /// In the files of this directory.
    Directory(&'a str),
    /// In memory: it is lost when the program ends.
    Memory,
}

/// A moment that an option names.
#[derive(Clone, Copy)]
pub enum Since {
    /// This many milliseconds after the beginning of 1970.
    Moment(u64),
    /// This many milliseconds before now.
    Before(u64),
}

impl Since {
    /// The moment in milliseconds since 1970, where it is `now`.
    pub fn at(self, now: u64) -> u64 {
        match self {
            Since::Moment(at) => at,
            Since::Before(millis) => now.saturating_sub(millis),
        }
    }
}

/// Where colours are used.
#[derive(Clone, Copy)]
pub enum Color {
    /// On a terminal that has them, unless the environment refuses them.
    Auto,
    Always,
    Never,
}

impl Color {
    /// The value of `--color`.
    pub(crate) fn of(word: &str) -> Option<Color> {
        if word == "auto" {
            Some(Color::Auto)
        } else if word == "always" {
            Some(Color::Always)
        } else if word == "never" {
            Some(Color::Never)
        } else {
            None
        }
    }
}

/// The options of a subcommand with a journal.
#[derive(Clone, Copy)]
pub struct Options<'a> {
    pub subcommand: Subcommand,
    pub journal: JournalLocation<'a>,
    /// Whether root also opens a journal whose directory or files other users can write.
    pub any_owner: bool,
    /// Whether a directory that has no journal yet is refused.
    pub existing: bool,
    /// The directory of the agents, an absolute path: an agent is the file `resource.d/PROVIDER/TYPE` in it.
    pub root: &'a str,
    /// The program that each agent is run through, or `None`.
    pub via: Option<&'a str>,
    /// The `PATH` in the environment of the agents.
    pub path: &'a str,
    /// The journal is tidied once it has more bytes than this; 0 for never. At most a part's limit.
    pub tidy_at: u64,
    /// Whether agents get Pacemaker's own variables too.
    pub meta_variables: bool,
    /// Whether agents run in the process group of the program, instead of one of their own each. POSIX, setsid.
    pub no_groups: bool,
    /// The file to which the output of agents is appended, `-` for the program's standard error; `None` discards it.
    pub log: Option<&'a str>,
    /// The directory of the files to which the output of agents is appended, one for each resource, or `None`.
    pub logs: Option<&'a str>,
    /// Whether a line for each result is written to standard error.
    pub events: bool,
    /// The limit of a resource's wait for the processes that an interrupted action left, in milliseconds, at most a day. The resource
    /// waits for what is left of the action's own timeout, and no longer than this. Processes that are still alive are then killed
    /// with their descendants, as the timeout would have killed them. All other resources go on meanwhile.
    pub orphans: u64,
    /// Whether processes that an interrupted action left are left alone: its resource does not wait for them.
    pub leave_orphans: bool,
    /// The resources whose status or records are printed.
    pub resources: Resources<'a>,
    /// Whether the status or the records are printed as lines of JSON.
    pub json: bool,
    /// Whether `run` ends with exit status 1 if a line was refused or an action failed.
    pub strict: bool,
    /// Whether `status` ends with another exit status than 0 if a resource is failed or unknown.
    pub exit_code: bool,
    /// Whether only what failed is printed.
    pub failed: bool,
    /// Whether `status` prints moments in place of ages.
    pub times: bool,
    /// The seconds after which `status` prints anew, again and again, at most a day.
    pub watch: Option<u64>,
    /// Where colours are used.
    pub color: Color,
    /// Whether `log` folds equal results of a monitor into one line.
    pub changes: bool,
    /// How many records `log` prints at most: the last ones.
    pub last: Option<u64>,
    /// Whether `log` goes on with the records that are added later.
    pub follow: bool,
    /// Records before this moment are not printed.
    pub since: Since,
    /// Records after this moment are not printed.
    pub until: Since,
    /// Whether the records of a damaged journal are printed, and where they end.
    pub salvage: bool,
}
