//! From the arguments to a session.
ghost use Rattle.std.specs.Prelude.{◌≡◌, ◌<◌, map, option_map, string_bytes};
ghost use Rattle.exec_host.specs.Asked.{system_of};
ghost use Rattle.exec_host.specs.Places.{at_log};
ghost use Rattle.exec_program.specs.Program.{Does, DoesAs, Looks, Prints, RunsFor};
ghost use Rattle.exec_host.specs.Requests.{Allows, IsAskedFor, IsOfFault, IsOfLook, IsOfRun, IsOfSubcommand};
ghost use Rattle.exec_program.specs.Starts.{IsEndOf, IsWrittenAs, StartEndsFor, misused, with_status};

use crate::run::serve_agents;
use exec_faults::Fault;
use exec_host::Host;
use exec_options::{
    ArgumentsFault, JournalLocation, Options, Subcommand, Wanted, is_once, read_arguments,
};
use file_disk::RamDisk;
use growth::Grows;
use std::alloc::Global;
use std::io::ErrorKind;

// The exit status where nothing was run once, as of the ends of such an action.
const NOT_RUN: u8 = 125;

// A success is status 0.
fn with_status(ended: Result<(), Fault>) -> Result<u8, Fault>
    ensures { result ≡ with_status ended }
{
    match ended {
        Ok(()) => Ok(0),
        Err(fault) => Err(fault),
    }
}

// The exit status of wrong arguments: of an action that is run once one that no agent has.
fn misused(is_once: bool) -> Result<u8, Fault>
    ensures { result ≡ misused is_once }
{
    if is_once {
        Ok(NOT_RUN)
    } else {
        Err(Fault::Usage)
    }
}

// How the program ends where its arguments give no options. A text that was asked for is printed, and so is the text of a usage fault.
fn refuse<H: Host>(host: &mut H, is_once: bool, fault: &ArgumentsFault) -> Result<u8, Fault>
    requires may { Allows H.may (IsOfFault fault.now) }
    requires next { H.stage host.old < at_log }
    ensures reported { IsWrittenAs is_once fault.now result }
    ensures prints { Prints H.asked fault.now }
{
    match fault {
        ArgumentsFault::Help(text) => match host.print(text) {
            Ok(()) => Ok(0),
            // the reader has read enough
            Err(error) if error.kind() == ErrorKind::BrokenPipe => Ok(0),
            Err(error) => {
                host.report_unwritten(error);
                Err(Fault::InputOrOutput)
            }
        },
        ArgumentsFault::Usage(text) => {
            let _ = host.print(text);
            misused(is_once)
        }
        ArgumentsFault::Choice => Err(Fault::Choice),
        ArgumentsFault::Value(value) => {
            host.say(value.text());
            misused(is_once)
        }
        ArgumentsFault::Memory => Err(Fault::Memory),
    }
}

/// Does what these arguments ask for, the program's name first, where the environment names this directory for a journal. Gives the exit
/// status.
#[tactic(auto, using(crate::proofs::StartLemmas::starts_journal, crate::proofs::StartLemmas::starts_once, crate::proofs::StartLemmas::starts_nothing))]
pub fn program<H: Host>(
    host: &mut H,
    named: Option<&str>,
    arguments: &[String],
) -> Result<u8, Fault>
    requires may { Allows H.may (IsAskedFor H.asked (option_map (λ s. s.now) named) (map string_bytes arguments.now)) }
    requires next { H.stage host.old < at_log }
    ensures ends { StartEndsFor (option_map (λ s. s.now) named.entry) (map string_bytes arguments.now) result }
    ensures does { Does (system_of H.asked H.Files.view H.Agents.view H.Source.gives H.Reader.view H.Writer.contents
        H.Ticker.asked ⟦<Global as Grows>⟧.refuses)
        (option_map (λ s. s.now) named.entry) (map string_bytes arguments.now) result }
{
    match read_arguments(host.alloc(), named, arguments) {
        Ok(Wanted::Journal(options)) => with_status(on_journal(host, options)),
        Ok(Wanted::Once(options)) => Ok(host.once(&options)),
        Err(fault) => refuse(host, is_once(arguments), &fault),
    }
}

// Does with a journal what these options ask for.
fn on_journal<H: Host>(host: &mut H, options: Options) -> Result<(), Fault>
    requires may { Allows H.may (IsOfSubcommand H.asked options options.subcommand) }
    requires next { H.stage host.old < at_log }
    ensures ends { IsEndOf options.entry result }
    ensures does { DoesAs (system_of H.asked H.Files.view H.Agents.view H.Source.gives H.Reader.view H.Writer.contents
        H.Ticker.asked ⟦<Global as Grows>⟧.refuses)
        options.entry options.entry.subcommand result }
{
    match options.subcommand {
        Subcommand::Run | Subcommand::Serve => start_agents(host, options),
        Subcommand::Show | Subcommand::Status | Subcommand::Log | Subcommand::Metrics => {
            look(host, options)
        }
    }
}

// Shows a view of a journal, as these options ask.
#[tactic(auto, using(crate::proofs::StartLemmas::ends_on_disk, crate::proofs::StartLemmas::ends_in_directory))]
fn look<H: Host>(host: &mut H, options: Options) -> Result<(), Fault>
    requires may { Allows H.may (IsOfLook options) }
    requires next { H.stage host.old < at_log }
    ensures ends { IsEndOf options.entry result }
    ensures looks { Looks H.asked options.entry options.entry.journal result }
{
    match options.journal {
        JournalLocation::Directory(directory) => host.show_files(options, directory),
        JournalLocation::Memory => host.show_memory(options),
    }
}

// Opens a session over a journal, as these options ask.
#[tactic(auto, using(crate::proofs::StartLemmas::ends_on_disk, crate::proofs::StartLemmas::ends_in_directory, crate::proofs::StartLemmas::ends_without_log))]
fn start_agents<H: Host>(host: &mut H, options: Options) -> Result<(), Fault>
    requires may { Allows H.may (IsOfRun H.asked options) }
    requires next { H.stage host.old < at_log }
    ensures ends { IsEndOf options.entry result }
    ensures runs { RunsFor (system_of H.asked H.Files.view H.Agents.view H.Source.gives H.Reader.view H.Writer.contents
        H.Ticker.asked ⟦<Global as Grows>⟧.refuses)
        options.entry result }
{
    if host.children_ignored() {
        return Err(Fault::ChildrenIgnored);
    }
    host.report_ignored();
    let log = match host.log(options.log, options.logs) {
        Ok(log) => log,
        Err(fault) => return Err(fault),
    };
    match options.journal {
        JournalLocation::Directory(directory) => match host.files(options, directory) {
            Ok(disk) => {
                let (disk, ended) = serve_agents(host, options, log, disk);
                host.close_files(disk);
                ended
            }
            Err(fault) => Err(fault),
        },
        JournalLocation::Memory => {
            let disk = RamDisk::new(host.alloc());
            let (_, ended) = serve_agents(host, options, log, disk);
            ended
        }
    }
}
