//! Why arguments give no options.
ghost use Rattle.std.specs.Prelude.{◌↔◌, ◌≡◌, IsTrue};
ghost use Rattle.clap.specs.Words.{HasKind, Kinds, kind_of};
ghost use Rattle.exec_options.specs.Faults.{HasFaultKind};
ghost use Rattle.exec_options.specs.declared.fault.ArgumentsFault.TheVariants.{Value};

use clap::error::ErrorKind;
use growth::Grows;
use std::alloc::Global;

/// An option whose value is refused, or options that do not go together.
#[derive(Clone, Copy)]
pub enum BadValue {
    /// The text of `--tidy-at` is no number up to a part's limit.
    TidyAt,
    /// The text of `--root` is no absolute path.
    Root,
    /// The text of `--orphans` is no number of milliseconds up to a day.
    Orphans,
    /// No moment was found for the text of `--since`.
    Since,
    /// No moment was found for the text of `--until`.
    Until,
    /// The text of `--last` is no number.
    Last,
    /// The text of `--watch` is no number of seconds up to a day.
    Watch,
    /// The text of `--color` is none of its words.
    Color,
    /// There are too many ids of resources.
    Resources,
    /// The text of `--timeout` is no number of milliseconds that an action may take.
    Timeout,
    /// The text of `--level` is no level of a monitor.
    Level,
    /// It is not clear what is to be run once: neither an agent and its action, nor a resource of a journal and its action.
    Target,
}

impl BadValue {
    /// What to give in its place.
    pub fn text(self) -> &'static str {
        match self {
            BadValue::TidyAt => "give --tidy-at a number from 0 to 8388608",
            BadValue::Root => "give --root an absolute path",
            BadValue::Orphans => "give --orphans a number from 0 to 86400000",
            BadValue::Since => {
                "give --since a moment, as 2026-11-27 or 2026-11-27T06:30, or a span, as 10m or 2h"
            }
            BadValue::Until => {
                "give --until a moment, as 2026-11-27 or 2026-11-27T06:30, or a span, as 10m or 2h"
            }
            BadValue::Last => "give -n a number of records",
            BadValue::Watch => "give --watch a number of seconds, from 1 to 86400",
            BadValue::Color => "give --color one of auto, always and never",
            BadValue::Resources => "give at most 16 ids of resources",
            BadValue::Timeout => "give --timeout milliseconds, from 1 to 4294967295",
            BadValue::Level => "give --level 0, 10 or 20",
            BadValue::Target => {
                "give an agent and an action, or --of, the id of a resource, and an action alone"
            }
        }
    }
}

/// Why the arguments give no options.
#[derive(Drop)]
pub enum ArgumentsFault {
    /// They ask for help or for the version; the text is for standard output.
    Help(clap::Error),
    /// They do not fit the command line; `clap`'s text is for standard error.
    Usage(clap::Error),
    /// They name both of `--journal` and `--memory`, or neither though agents are to be started.
    Choice,
    /// A value is refused.
    Value(BadValue),
    /// There was not enough memory to read them.
    Memory,
}

impl From<BadValue> for ArgumentsFault {
    ghost from_gives = { λ value fault. fault ≡ Value value };

    fn from(value: BadValue) -> ArgumentsFault {
        ArgumentsFault::Value(value)
    }
}

// Whether `clap` lacked memory.
#[tactic(auto, using(growth::specs::Refused::refuses))]
fn lacks_memory(error: &clap::Error) -> bool
    ensures kind { IsTrue result ↔ (kind_of error.now ≡ ErrorKind.OutOfMemory) }
    ensures memory { IsTrue result → IsTrue ⟦<Global as Grows>⟧.refuses }
{
    // TRUSTED: `clap` says so only where a growth that it asked for was refused.
    error.kind() == ErrorKind::OutOfMemory
}

impl ArgumentsFault {
    /// The fault of an error of `clap`.
    pub(crate) fn from_clap(error: clap::Error) -> ArgumentsFault
        ensures kinds { (kinds : Kinds) → HasKind kinds error → HasFaultKind kinds result }
        ensures memory { result ≡ ArgumentsFault.Memory → IsTrue ⟦<Global as Grows>⟧.refuses }
    {
        if lacks_memory(&error) {
            ArgumentsFault::Memory
        } else if error.use_stderr() {
            ArgumentsFault::Usage(error)
        } else {
            ArgumentsFault::Help(error)
        }
    }
}
