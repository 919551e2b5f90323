//! Reads the options from the arguments.
ghost use Rattle.std.specs.Prelude.{◌≡◌, [], map, string_bytes, codes, option_map, IfOk, IfErr, IsTrue, OnOk};
ghost use Rattle.clap.specs.Words.{rows_of, found_of, fault_of};
ghost use Rattle.exec_options.specs.App.{ocfexec_app};
ghost use Rattle.exec_options.specs.Arguments.{default_directory, directory_of, is_clear, is_once, location_in, once_action, texts_in};
ghost use Rattle.exec_options.specs.Arguments.{AsksFor, IsJournalWanted, IsOnceWanted, IsReadFrom, IsTarget};
ghost use Rattle.exec_options.specs.Faults.{HasFault, HasFlaw, HasPlacedFault, IsFault};

use crate::app::command_line;
use crate::fault::{ArgumentsFault, BadValue};
use crate::once::{JournalResource, NamedAgent, OnceOptions, OnceTarget};
use crate::options::{JournalLocation, Options, Subcommand};
use crate::rows::{is_set, text_of, texts_of};
use crate::table::{ID, JOURNAL, PATH};
use crate::values;
use clap::ArgMatches;
use growth::{Grows, Refused, vec_of};
use std::alloc::Global;

/// The options that the arguments of the command line give.
#[derive(Drop)]
pub enum Wanted<'a> {
    /// Those of a subcommand with a journal.
    Journal(Options<'a>),
    /// Those of an action that is run once.
    Once(OnceOptions<'a>),
}

// The directory to read if no journal is named; a subcommand that starts agents has none.
fn default_directory<'a>(subcommand: Subcommand, named: Option<&'a str>) -> Option<&'a str>
    ensures { option_map (λ s. s.now) result
        ≡ default_directory subcommand (option_map (λ s. s.now) named.entry) }
{
    if subcommand.is_query() {
        Some(named.unwrap_or(JOURNAL))
    } else {
        None
    }
}

// Where the journal is kept, if the environment names the directory `named`.
fn journal_location<'a>(
    subcommand: Subcommand,
    named: Option<&'a str>,
    matches: &ArgMatches<'a>,
) -> Option<JournalLocation<'a>>
    ensures { option_map directory_of result
        ≡ location_in subcommand (option_map (λ s. s.now) named.entry) (rows_of (found_of matches.now)) }
{
    match (text_of(matches, "journal"), is_set(matches, "memory")) {
        (Some(directory), false) => Some(JournalLocation::Directory(directory)),
        (None, true) => Some(JournalLocation::Memory),
        (None, false) => match default_directory(subcommand, named) {
            Some(directory) => Some(JournalLocation::Directory(directory)),
            None => None,
        },
        (Some(_), true) => None,
    }
}

// The parameters of an action.
fn parameters<'a>(alloc: Global, matches: &ArgMatches<'a>) -> Result<Vec<&'a str>, Refused>
    ensures texts { IfOk result (λ texts. map (λ s. s.now) texts.items
        ≡ texts_in (codes "parameters") (rows_of (found_of matches.now))) }
{
    match texts_of(matches, "parameters") {
        Some(texts) => vec_of(alloc, texts),
        None => Ok(Vec::new(alloc)),
    }
}

// Whether it is clear what is run once: an agent and its action, or a resource of a journal and its action.
fn is_clear(matches: &ArgMatches<'_>) -> bool
    ensures { result ≡ is_clear (rows_of (found_of matches.now)) }
{
    let agent = text_of(matches, "agent").is_some();
    let action = text_of(matches, "action").is_some();
    let journal = text_of(matches, "journal").is_some() || is_set(matches, "beside");
    if text_of(matches, "of").is_some() {
        agent && !action && text_of(matches, "id").is_none()
    } else {
        agent && action && !journal
    }
}

// Whose action is run once, if the environment names the directory `named`.
fn target<'a>(
    alloc: Global,
    named: Option<&'a str>,
    matches: &ArgMatches<'a>,
) -> Result<OnceTarget<'a>, Refused>
    ensures target { IfOk result
        (IsTarget (option_map (λ s. s.now) named.entry) (rows_of (found_of matches.now))) }
{
    match text_of(matches, "of") {
        Some(id) => Ok(OnceTarget::Resource(JournalResource {
            id,
            directory: text_of(matches, "journal").unwrap_or(named.unwrap_or(JOURNAL)),
            beside: is_set(matches, "beside"),
        })),
        None => Ok(OnceTarget::Agent(NamedAgent {
            agent: text_of(matches, "agent").unwrap_or(""),
            id: text_of(matches, "id").unwrap_or(ID),
            parameters: parameters(alloc, matches)?,
        })),
    }
}

// The name of the action that is run once; the only word after `--of`.
fn action<'a>(matches: &ArgMatches<'a>) -> &'a str
    ensures { result.now ≡ once_action (rows_of (found_of matches.now)) }
{
    match text_of(matches, "of") {
        Some(_) => text_of(matches, "agent").unwrap_or(""),
        None => text_of(matches, "action").unwrap_or(""),
    }
}

// The options of an action that is run once.
fn once_of<'a>(
    alloc: Global,
    named: Option<&'a str>,
    matches: &ArgMatches<'a>,
) -> Result<Wanted<'a>, ArgumentsFault>
    ensures read { IfOk result
        (IsOnceWanted (option_map (λ s. s.now) named.entry) (rows_of (found_of matches.now))) }
    ensures fault { IfErr result (HasFault (rows_of (found_of matches.now))) }
    ensures memory { IfErr result (λ f. f ≡ ArgumentsFault.Memory → IsTrue ⟦<Global as Grows>⟧.refuses) }
{
    if !is_clear(matches) {
        return Err(ArgumentsFault::Value(BadValue::Target));
    }
    let level = values::level(matches)?;
    let timeout = values::timeout(matches)?;
    let root = values::root(matches)?;
    let Ok(target) = target(alloc, named, matches) else {
        return Err(ArgumentsFault::Memory);
    };
    Ok(Wanted::Once(OnceOptions {
        target,
        action: action(matches),
        level,
        timeout,
        root,
        via: text_of(matches, "via"),
        path: text_of(matches, "path").unwrap_or(PATH),
        meta_variables: is_set(matches, "meta-variables"),
        no_groups: is_set(matches, "no-groups"),
    }))
}

// The options of a subcommand with this journal.
fn options_of<'a>(
    subcommand: Subcommand,
    journal: JournalLocation<'a>,
    matches: &ArgMatches<'a>,
) -> Result<Options<'a>, BadValue>
    ensures read { IfOk result (λ o. (o.subcommand ≡ subcommand) × (o.journal ≡ journal.entry)
        × IsReadFrom (rows_of (found_of matches.now)) o) }
    ensures fault { IfErr result (HasFlaw (rows_of (found_of matches.now))) }
{
    Ok(Options {
        subcommand,
        journal,
        any_owner: is_set(matches, "any-owner"),
        existing: is_set(matches, "existing"),
        tidy_at: values::tidy_at(matches)?,
        root: values::root(matches)?,
        via: text_of(matches, "via"),
        path: text_of(matches, "path").unwrap_or(PATH),
        meta_variables: is_set(matches, "meta-variables"),
        no_groups: is_set(matches, "no-groups"),
        log: text_of(matches, "log"),
        logs: text_of(matches, "logs"),
        events: is_set(matches, "events"),
        orphans: values::orphans(matches)?,
        leave_orphans: is_set(matches, "leave-orphans"),
        resources: values::resources(matches)?,
        json: is_set(matches, "json"),
        strict: is_set(matches, "strict"),
        exit_code: is_set(matches, "exit-code"),
        failed: is_set(matches, "failed"),
        times: is_set(matches, "times"),
        watch: values::watch(matches)?,
        color: values::color(matches)?,
        changes: is_set(matches, "changes"),
        last: values::last(matches)?,
        follow: is_set(matches, "follow"),
        since: values::since(matches)?,
        until: values::until(matches)?,
        salvage: is_set(matches, "salvage"),
    })
}

// The options of a subcommand with a journal, from its arguments.
fn journal_of<'a>(
    subcommand: Subcommand,
    named: Option<&'a str>,
    matches: &ArgMatches<'a>,
) -> Result<Wanted<'a>, ArgumentsFault>
    ensures read { IfOk result
        (IsJournalWanted subcommand (option_map (λ s. s.now) named.entry)
        (rows_of (found_of matches.now))) }
    ensures fault { IfErr result
        (HasPlacedFault subcommand (option_map (λ s. s.now) named.entry)
        (rows_of (found_of matches.now))) }
{
    let Some(journal) = journal_location(subcommand, named, matches) else {
        return Err(ArgumentsFault::Choice);
    };
    match options_of(subcommand, journal, matches) {
        Ok(options) => Ok(Wanted::Journal(options)),
        Err(value) => Err(ArgumentsFault::Value(value)),
    }
}

/// Whether the arguments, which begin with the name of the program, are those of an action that is run once.
pub fn is_once(arguments: &[String]) -> bool
    ensures { result ≡ is_once (map string_bytes arguments.now) }
{
    match arguments.get(1) {
        Some(word) => word.as_str() == "once",
        None => false,
    }
}

/// Reads the options from the arguments, which begin with the name of the program. `named` is the directory of a journal that the
/// environment names, if any.
pub fn read_arguments<'a>(
    alloc: Global,
    named: Option<&'a str>,
    arguments: &'a [String],
) -> Result<Wanted<'a>, ArgumentsFault>
    ensures ok { IfOk result
        (AsksFor (option_map (λ s. s.now) named.entry) (map string_bytes arguments.now)) }
    ensures parsed { OnOk result (fault_of ocfexec_app (map string_bytes arguments.now) ≡ []) }
    ensures fault { IfErr result
        (IsFault (option_map (λ s. s.now) named.entry) (map string_bytes arguments.now)) }
    ensures memory { IfErr result (λ f. f ≡ ArgumentsFault.Memory → IsTrue ⟦<Global as Grows>⟧.refuses) }
{
    let Ok(command) = command_line(alloc) else {
        return Err(ArgumentsFault::Memory);
    };
    let matches = match command.try_get_matches_from(arguments) {
        Ok(matches) => matches,
        Err(error) => return Err(ArgumentsFault::from_clap(error)),
    };
    let Some((name, matches)) = matches.subcommand() else {
        return Err(ArgumentsFault::Choice);
    };
    if name == "once" {
        return once_of(alloc, named, matches);
    }
    let Some(subcommand) = Subcommand::of(name) else {
        return Err(ArgumentsFault::Choice);
    };
    journal_of(subcommand, named, matches)
}
