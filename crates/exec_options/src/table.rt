//! The arguments of each subcommand: the one table of their names, forms, defaults and help texts.
ghost use Rattle.std.specs.Prelude.{◌≡◌, map};
ghost use Rattle.exec_options.specs.App.{agent_rules, call_rules, kept_rules, location_rules, log_rules, rule_for, run_rules, shown_rules, site_rules, status_rules};

/// The directory of the package's journal, which subcommands that start no agent read if none is named.
pub const JOURNAL: &str = "/var/lib/ocfexec";

/// The default id of the resource of an action that is run once.
pub const ID: &str = "once";

/// The default timeout of an action that is run once, in milliseconds.
pub const TIMEOUT: &str = "20000";

/// The default directory of the agents.
pub const ROOT: &str = "/usr/lib/ocf";

/// The default `PATH` of the agents.
pub const PATH: &str = "/usr/sbin:/usr/bin:/sbin:/bin";

/// The default number of bytes of the journal's part above which it is tidied: three quarters of a part's limit.
pub const TIDY_AT: &str = "6291456";

/// The default limit of a resource's wait for what an interrupted action left running, in milliseconds: the default timeout of an
/// action.
pub const ORPHANS: &str = "20000";

/// What an argument looks like on the command line; its name is `NAME`, and the name of its value in the help is `VALUE`.
#[derive(Clone, Copy)]
pub enum Form<'a> {
    /// `--NAME`, which is given or not.
    Flag,
    /// `--NAME`, or this letter.
    Letter(char),
    /// `--NAME VALUE`.
    Text(&'a str),
    /// `--NAME VALUE`, or this letter and the value.
    LetterText(char, &'a str),
    /// `--NAME VALUE`, with this value if it is absent.
    TextOr(&'a str, &'a str),
    /// `VALUE`, at most once.
    Word(&'a str),
    /// `VALUE`, any number of times.
    Words(&'a str),
}

/// An argument.
#[derive(Clone, Copy)]
pub struct Argument<'a> {
    pub name: &'a str,
    pub form: Form<'a>,
    pub help: &'a str,
}

/// The texts of a subcommand's help.
#[derive(Clone, Copy)]
pub struct SubcommandTexts<'a> {
    pub name: &'a str,
    pub about: &'a str,
    pub more: &'a str,
}

const LOCATION: &[Argument] = &[
    Argument {
        name: "journal",
        form: Form::Text("DIR"),
        help: "The directory of the journal",
    },
    Argument {
        name: "memory",
        form: Form::Flag,
        help: "Keep the journal in memory only",
    },
];

const KEPT: &[Argument] = &[
    Argument {
        name: "existing",
        form: Form::Flag,
        help: "Refuse a directory that has no journal yet",
    },
    Argument {
        name: "any-owner",
        form: Form::Flag,
        help: "As root, open a journal that others can write",
    },
    Argument {
        name: "tidy-at",
        form: Form::TextOr("BYTES", TIDY_AT),
        help: "Tidy a part above this; 0: never",
    },
];

const SITE: &[Argument] = &[
    Argument {
        name: "root",
        form: Form::TextOr("DIR", ROOT),
        help: "The directory of the agents",
    },
    Argument {
        name: "via",
        form: Form::Text("PROGRAM"),
        help: "Run each agent as PROGRAM AGENT ACTION",
    },
    Argument {
        name: "path",
        form: Form::TextOr("PATH", PATH),
        help: "Agents' PATH",
    },
    Argument {
        name: "meta-variables",
        form: Form::Flag,
        help: "Give agents Pacemaker's OCF_RESKEY_CRM_meta_..",
    },
    Argument {
        name: "no-groups",
        form: Form::Flag,
        help: "Give agents no process groups of their own",
    },
];

const AGENTS: &[Argument] = &[
    Argument {
        name: "log",
        form: Form::Text("FILE"),
        help: "Append the output of agents to FILE; -: to stderr",
    },
    Argument {
        name: "logs",
        form: Form::Text("DIR"),
        help: "Append the output of agents to DIR/ID.log",
    },
    Argument {
        name: "events",
        form: Form::Flag,
        help: "Print a line for each result on standard error",
    },
    Argument {
        name: "orphans",
        form: Form::TextOr("MS", ORPHANS),
        help: "How long a resource waits for what its killed\nexecutor left, before that is killed",
    },
    Argument {
        name: "leave-orphans",
        form: Form::Flag,
        help: "Leave that alone, and do not wait for it",
    },
];

const RUN: &[Argument] = &[Argument {
    name: "strict",
    form: Form::Flag,
    help: "End with 1 if a line was refused or an action failed",
}];

const SHOWN: &[Argument] = &[
    Argument {
        name: "resource",
        form: Form::Words("ID"),
        help: "The resources to print, at most 16; all without it",
    },
    Argument {
        name: "json",
        form: Form::Flag,
        help: "Print lines of JSON",
    },
    Argument {
        name: "failed",
        form: Form::Flag,
        help: "Print only what failed",
    },
    Argument {
        name: "color",
        form: Form::Text("WHEN"),
        help: "Use colours: auto (on a terminal), always or never",
    },
];

const STATUS: &[Argument] = &[
    Argument {
        name: "exit-code",
        form: Form::Flag,
        help: "End with 9 if a resource is failed or unknown,\nwith 10 if no executor has the journal",
    },
    Argument {
        name: "logs",
        form: Form::Text("DIR"),
        help: "Print the last reason in DIR/ID.log of failures",
    },
    Argument {
        name: "times",
        form: Form::Flag,
        help: "Print moments in place of ages",
    },
    Argument {
        name: "watch",
        form: Form::Text("SECONDS"),
        help: "Print it anew each time, on a terminal",
    },
];

const LOG: &[Argument] = &[
    Argument {
        name: "since",
        form: Form::Text("TIME"),
        help: "Print the records from this moment on",
    },
    Argument {
        name: "until",
        form: Form::Text("TIME"),
        help: "Print the records up to this moment",
    },
    Argument {
        name: "last",
        form: Form::LetterText('n', "N"),
        help: "Print the last N records",
    },
    Argument {
        name: "follow",
        form: Form::Letter('f'),
        help: "Go on with the records that are added",
    },
    Argument {
        name: "changes",
        form: Form::Flag,
        help: "Fold equal results of a monitor into one line",
    },
    Argument {
        name: "salvage",
        form: Form::Flag,
        help: "Print a damaged journal up to the damage",
    },
];

const CALL: &[Argument] = &[
    Argument {
        name: "agent",
        form: Form::Word("PROVIDER:TYPE"),
        help: "The agent, as heartbeat:Dummy; none with --of",
    },
    Argument {
        name: "action",
        form: Form::Word("ACTION"),
        help: "start, stop, monitor, promote, demote,\nreload-agent, validate-all or meta-data",
    },
    Argument {
        name: "parameters",
        form: Form::Words("NAME=VALUE"),
        help: "The parameters of the resource",
    },
    Argument {
        name: "timeout",
        form: Form::TextOr("MS", TIMEOUT),
        help: "Kill the agent after this time",
    },
    Argument {
        name: "level",
        form: Form::Text("N"),
        help: "The depth of a monitor: 0, 10 or 20",
    },
    Argument {
        name: "id",
        form: Form::Text("ID"),
        help: "OCF_RESOURCE_INSTANCE of the agent [default: once]",
    },
    Argument {
        name: "of",
        form: Form::Text("ID"),
        help: "Take agent and parameters of this resource from\nthe journal, which is only read",
    },
    Argument {
        name: "journal",
        form: Form::Text("DIR"),
        help: "The directory of that journal",
    },
    Argument {
        name: "beside",
        form: Form::Flag,
        help: "Run it even while an action of the resource runs",
    },
];

/// Where the journal is.
pub fn location() -> &'static [Argument<'static>]
    ensures { map rule_for result.now ≡ location_rules }
{
    LOCATION
}

/// How the journal is opened and tidied.
pub fn kept() -> &'static [Argument<'static>]
    ensures { map rule_for result.now ≡ kept_rules }
{
    KEPT
}

/// Where the agents are, and how they are called.
pub fn site() -> &'static [Argument<'static>]
    ensures { map rule_for result.now ≡ site_rules }
{
    SITE
}

/// The output of agents, the lines of results, and what interrupted actions left.
pub fn agents() -> &'static [Argument<'static>]
    ensures { map rule_for result.now ≡ agent_rules }
{
    AGENTS
}

/// The other arguments of `run`.
pub fn run() -> &'static [Argument<'static>]
    ensures { map rule_for result.now ≡ run_rules }
{
    RUN
}

/// What `status` and `log` print.
pub fn shown() -> &'static [Argument<'static>]
    ensures { map rule_for result.now ≡ shown_rules }
{
    SHOWN
}

/// The other arguments of `status`.
pub fn status() -> &'static [Argument<'static>]
    ensures { map rule_for result.now ≡ status_rules }
{
    STATUS
}

/// The other arguments of `log`.
pub fn log() -> &'static [Argument<'static>]
    ensures { map rule_for result.now ≡ log_rules }
{
    LOG
}

/// What is run once.
pub fn call() -> &'static [Argument<'static>]
    ensures { map rule_for result.now ≡ call_rules }
{
    CALL
}
