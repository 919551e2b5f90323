//! A local executor of OCF resource agents: reads commands, one JSON object a line, and replies to each.
#![tactic(auto)]

ghost use Rattle.std.specs.Prelude.{◌≡◌, ◌<◌, map, option_map, string_bytes};
ghost use Rattle.std.specs.Process.{exit_status};
ghost use Rattle.exec_host.specs.Asked.{system_of};
ghost use Rattle.exec_host.specs.Places.{at_log};
ghost use Rattle.exec_host.specs.Requests.{Allows, IsAskedFor};
ghost use Rattle.exec_program.specs.Starts.{status_of_end};
ghost use Rattle.ocfexec.specs.Ends.{EndsWith};

mod arguments;
mod asked_agent;
mod errors;
mod guarded;
mod host;
mod log;
mod metadata;
mod moment;
mod once;
mod reasons;
mod stack;

use arguments::{arguments_of, named_journal};
use diagnostics::{FirstError, report, report_cause};
use exec_faults::Fault;
use exec_host::Host;
use exec_program::program;
use growth::Grows;
use host::SystemHost;
use host_system::System;
use stack::grow_stack;
use std::alloc::Global;
use std::mem;
use std::process::ExitCode;

fn main(rt: HostRuntime) -> ExitCode {
    let system = System::new(&rt);
    let code = match start(&system) {
        Ok(code) => code,
        Err(fault) => ended_by(&system, Err(fault)),
    };
    // the shell that sends signals ends when this process does
    mem::forget(system);
    code
}

// Does what the arguments of the command line ask for, and gives the exit status. The fault is that they cannot be read, or that the stack
// finds no memory.
fn start(system: &System<'_>) -> Result<ExitCode, Fault> {
    grow_stack(system.host().alloc()).map_err(|_| Fault::Memory)?;
    let arguments = arguments_of(system.host())?;
    let named = named_journal(system.host())?;
    let named = match &named {
        Some(directory) => Some(directory.as_str()),
        None => None,
    };
    let (unread, unwritten) = (FirstError::none(), FirstError::none());
    let mut host = SystemHost::new(system, &unread, &unwritten);
    Ok(run(&mut host, system, named, arguments.as_slice()))
}

// Does what these arguments ask for, where the environment names this directory for a journal, and gives the exit status of how it ended.
fn run<H: Host>(
    host: &mut H,
    system: &System<'_>,
    named: Option<&str>,
    arguments: &[String],
) -> ExitCode
    requires may { Allows H.may (IsAskedFor H.asked (option_map (λ s. s.now) named) (map string_bytes arguments.now)) }
    requires next { H.stage host.old < at_log }
    ensures ends { EndsWith (system_of H.asked H.Files.view H.Agents.view H.Source.gives H.Reader.view H.Writer.contents
        H.Ticker.asked ⟦<Global as Grows>⟧.refuses)
        (option_map (λ s. s.now) named.entry) (map string_bytes arguments.now) result }
{
    let ended = program(host, named, arguments);
    ended_by(system, ended)
}

// Reports the fault that ended the program, if one did, and gives the exit status of this end.
fn ended_by(system: &System<'_>, ended: Result<u8, Fault>) -> ExitCode
    ensures status { exit_status result ≡ status_of_end ended }
{
    if let Err(fault) = ended {
        report_end(system, fault);
    }
    exit_code(ended)
}

// Reports the fault that ended the program on standard error.
fn report_end(system: &System<'_>, fault: Fault) {
    match fault {
        // reported where it happened; `NotWell` and `NoExecutor` by the status that was printed
        Fault::Usage
        | Fault::Log
        | Fault::NotOpened
        | Fault::NotWell
        | Fault::NoExecutor
        | Fault::Disk
        | Fault::InputOrOutput => {}
        Fault::Damaged(damage) => report_cause(system, fault, damage.cause),
        _ => report(system, fault),
    }
}

fn exit_code(ended: Result<u8, Fault>) -> ExitCode
    ensures { exit_status result ≡ status_of_end ended }
{
    match ended {
        Ok(status) => ExitCode::from(status),
        Err(fault) => ExitCode::from(fault.status()),
    }
}
