//! Builds the command line from the table; it fails only if memory was refused.
ghost use Rattle.std.specs.Prelude.{◌≡◌, false, IfOk, map};
ghost use Rattle.clap.specs.Words.{App, app_of, new_app, rule_of, with_subcommand};
ghost use Rattle.clap.specs.declared.builder.command.Command.TheViews.{out-Command};
ghost use Rattle.exec_options.specs.App.{log_app, ocfexec_app, once_app, query_app, rule_for, run_app, session_app, status_app, top_app, with_rules};

use crate::table::{self, Argument, Form, SubcommandTexts};
use crate::texts;
use clap::{Arg, ArgAction, Command};
use growth::{Refused, granted};
use std::alloc::{AllocError, Global};

fn arg_of<'a>(alloc: Global, argument: &Argument<'a>) -> Arg<'a>
    ensures rule { rule_of result ≡ rule_for argument.now }
    ensures local { result.global ≡ false }
{
    let arg = Arg::new(alloc, argument.name).help(argument.help);
    match argument.form {
        Form::Flag => arg.long(argument.name).action(ArgAction::SetTrue),
        Form::Letter(letter) => arg
            .long(argument.name)
            .short(letter)
            .action(ArgAction::SetTrue),
        Form::Text(value) => arg.long(argument.name).value_name(value),
        Form::LetterText(letter, value) => arg.long(argument.name).short(letter).value_name(value),
        Form::TextOr(value, default) => arg
            .long(argument.name)
            .value_name(value)
            .default_value(default),
        Form::Word(value) => arg.value_name(value),
        Form::Words(value) => arg.value_name(value).action(ArgAction::Append),
    }
}

fn with_group<'a>(
    alloc: Global,
    command: Command<'a>,
    group: &[Argument<'a>],
) -> Result<Command<'a>, AllocError>
    ensures app { IfOk result
        (λ r. app_of r ≡ with_rules (app_of command.entry) (map rule_for group.now)) }
    ensures local { IfOk result
        (λ r. (out-Command r).has_globals ≡ (out-Command command.entry).has_globals) }
{
    let mut extended = command;
    for argument in group {
        extended = extended.arg(arg_of(alloc, argument))?;
    }
    Ok(extended)
}

fn bare<'a>(alloc: Global, texts: SubcommandTexts<'a>) -> Command<'a>
    ensures app { app_of result ≡ new_app texts.entry.name.now }
    ensures local { (out-Command result).has_globals ≡ false }
{
    Command::new(alloc, texts.name)
        .about(texts.about)
        .after_help(texts.more)
}

// A subcommand that reads commands.
fn session<'a>(alloc: Global, texts: SubcommandTexts<'a>) -> Result<Command<'a>, AllocError>
    ensures app { IfOk result (λ r. app_of r ≡ session_app texts.entry.name.now) }
    ensures local { IfOk result (λ r. (out-Command r).has_globals ≡ false) }
{
    let command = with_group(alloc, bare(alloc, texts), table::location())?;
    let command = with_group(alloc, command, table::kept())?;
    let command = with_group(alloc, command, table::site())?;
    with_group(alloc, command, table::agents())
}

fn run<'a>(alloc: Global) -> Result<Command<'a>, AllocError>
    ensures app { IfOk result (λ r. app_of r ≡ run_app) }
    ensures local { IfOk result (λ r. (out-Command r).has_globals ≡ false) }
{
    let texts = SubcommandTexts {
        name: "run",
        about: "Reads commands, a JSON object a line, and replies to each",
        more: texts::RUN,
    };
    with_group(alloc, session(alloc, texts)?, table::run())
}

// A subcommand that reads a journal.
fn query<'a>(alloc: Global, texts: SubcommandTexts<'a>) -> Result<Command<'a>, AllocError>
    ensures app { IfOk result (λ r. app_of r ≡ query_app texts.entry.name.now) }
    ensures local { IfOk result (λ r. (out-Command r).has_globals ≡ false) }
{
    with_group(alloc, bare(alloc, texts), table::location())
}

fn status<'a>(alloc: Global) -> Result<Command<'a>, AllocError>
    ensures app { IfOk result (λ r. app_of r ≡ status_app) }
    ensures local { IfOk result (λ r. (out-Command r).has_globals ≡ false) }
{
    let texts = SubcommandTexts {
        name: "status",
        about: "Prints the state of the resources as a table",
        more: texts::STATUS,
    };
    let command = with_group(alloc, query(alloc, texts)?, table::shown())?;
    with_group(alloc, command, table::status())
}

fn log<'a>(alloc: Global) -> Result<Command<'a>, AllocError>
    ensures app { IfOk result (λ r. app_of r ≡ log_app) }
    ensures local { IfOk result (λ r. (out-Command r).has_globals ≡ false) }
{
    let texts = SubcommandTexts {
        name: "log",
        about: "Prints the records of a journal, oldest first",
        more: texts::LOG,
    };
    let command = with_group(alloc, query(alloc, texts)?, table::shown())?;
    with_group(alloc, command, table::log())
}

fn once<'a>(alloc: Global) -> Result<Command<'a>, AllocError>
    ensures app { IfOk result (λ r. app_of r ≡ once_app) }
    ensures local { IfOk result (λ r. (out-Command r).has_globals ≡ false) }
{
    let texts = SubcommandTexts {
        name: "once",
        about: "Runs one action of an agent, and records nothing",
        more: texts::ONCE,
    };
    let command = with_group(alloc, bare(alloc, texts), table::call())?;
    with_group(alloc, command, table::site())
}

fn top<'a>(alloc: Global) -> Command<'a>
    ensures app { app_of result ≡ top_app }
    ensures local { (out-Command result).has_globals ≡ false }
{
    Command::new(alloc, "ocfexec")
        .about("A local executor of OCF resource agents that keeps a journal")
        .after_help(texts::COMMANDS)
        .version(texts::VERSION)
        .subcommand_required(true)
}

const SERVE: SubcommandTexts = SubcommandTexts {
    name: "serve",
    about: "The same, and polls agents by itself between commands",
    more: texts::SERVE,
};

const SHOW: SubcommandTexts = SubcommandTexts {
    name: "show",
    about: "Prints what a journal holds, as JSON lines",
    more: texts::SHOW,
};

const METRICS: SubcommandTexts = SubcommandTexts {
    name: "metrics",
    about: "Prints what a journal holds, as metrics for Prometheus",
    more: texts::METRICS,
};

// A command with a subcommand too, if that was built.
fn with_subcommand<'a>(
    command: Command<'a>,
    built: Result<Command<'a>, AllocError>,
) -> Result<Command<'a>, AllocError>
    ensures { (s : App) → IfOk built.entry (λ c. app_of c ≡ s)
        → IfOk built.entry (λ c. (out-Command c).has_globals ≡ false)
        → IfOk result (λ r. app_of r ≡ with_subcommand (app_of command.entry) s.top) }
{
    let added = built?;
    command.subcommand(added)
}

fn ocfexec<'a>(alloc: Global) -> Result<Command<'a>, AllocError>
    ensures { IfOk result (λ c. app_of c ≡ ocfexec_app) }
{
    let with_run = with_subcommand(top(alloc), run(alloc))?;
    let with_serve = with_subcommand(with_run, session(alloc, SERVE))?;
    let with_show = with_subcommand(with_serve, query(alloc, SHOW))?;
    let with_status = with_subcommand(with_show, status(alloc))?;
    let with_log = with_subcommand(with_status, log(alloc))?;
    let with_metrics = with_subcommand(with_log, query(alloc, METRICS))?;
    with_subcommand(with_metrics, once(alloc))
}

/// The whole command line, as `clap` gets it.
#[tactic(auto, using(growth::specs::Refused::refuses))]
pub fn command_line<'a>(alloc: Global) -> Result<Command<'a>, Refused>
    ensures app { IfOk result (λ c. app_of c ≡ ocfexec_app) }
{
    // TRUSTED: `clap` grows its own memory.
    granted(ocfexec(alloc))
}
