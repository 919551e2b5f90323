//! What the options set for a session.
ghost use Rattle.std.specs.Prelude.{◌≡◌, option_map};
ghost use Rattle.exec_host.specs.Services.{IsHeldTo, found_identity, served_directory, service_in, service_of, way_of};

use crate::host::Host;
use crate::limits::MOST_TURNS;
use exec_client::Events;
use exec_options::{JournalLocation, Options, Subcommand, VERSION};
use exec_replies::{JournalId, NoticeForm, Service};
use ocf_types::Orphan;
use session_machine::{Mode, Rules};
use std::alloc::Global;

// The mode of the session that this subcommand asks for.
fn way_of(subcommand: Subcommand) -> Mode
    ensures { result ≡ way_of subcommand }
{
    match subcommand {
        Subcommand::Serve => Mode::Serve,
        Subcommand::Run
        | Subcommand::Show
        | Subcommand::Status
        | Subcommand::Log
        | Subcommand::Metrics => Mode::Run,
    }
}

/// The directory whose journal is served; long times may pass without a call of its device.
pub fn served_directory<'a>(options: Options<'a>) -> Option<&'a str>
    ensures { option_map (λ s. s.now) result ≡ served_directory options.entry }
{
    match (options.subcommand, options.journal) {
        (Subcommand::Serve, JournalLocation::Directory(directory)) => Some(directory),
        _ => None,
    }
}

/// What an opening found besides the journal's state.
#[derive(Clone, Copy)]
pub struct Findings<'a> {
    /// The identity of the journal, if it has one.
    pub identity: Option<&'a JournalId>,
    /// The processes that live on from interrupted actions.
    pub left: &'a [Orphan],
}

// The form of notices, and what a session says of itself. A client of `serve` need not ask when an action began and ended and which
// process of it lives on, nor for the version and the journal of the session.
fn form_of<'a>(options: Options<'a>, found: Findings<'a>) -> NoticeForm<'a>
    ensures { service_in result ≡ service_of options.entry (found_identity found.entry) found.entry.left.now
        (way_of options.entry.subcommand) }
{
    match way_of(options.subcommand) {
        Mode::Run => NoticeForm::Short,
        Mode::Serve => NoticeForm::Timed(Service {
            version: VERSION,
            journal: served_directory(options),
            identity: found.identity,
            left: found.left,
        }),
    }
}

/// The rules of a session after an opening that found this.
pub fn rules_of<'a>(options: Options<'a>, found: Findings<'a>) -> Rules<'a>
    ensures held { IsHeldTo options.entry (found_identity found.entry) found.entry.left.now result }
{
    Rules {
        mode: way_of(options.subcommand),
        form: form_of(options, found),
        most_turns: MOST_TURNS,
        tidy_at: options.tidy_at,
    }
}

/// The lines about results that the options ask for; they have a priority where standard error goes to the system's journal.
pub fn events_of<H: Host>(host: &H, options: Options) -> Events {
    if !options.events {
        Events::None
    } else if host.is_marked() {
        Events::Marked
    } else {
        Events::Plain
    }
}
