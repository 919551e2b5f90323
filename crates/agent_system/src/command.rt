//! The command that is spawned for an invocation.
ghost use Rattle.std.specs.Prelude.{◌≡◌, ◌++◌, ◌∷◌, [], ℕ, List, IfOk, OnOk, None, Some, bytes_eq, codes, if◌then◌else◌, true};
ghost use Rattle.std.specs.Process.{SameDir, SameEnv, SameProgramAndArgs, clears_env, command_args, command_dir, command_program};
ghost use Rattle.std.specs.Process.{command_var, var_after};
ghost use Rattle.agent_system.specs.Commands.{Asks, AsksBy, leader_of};

use crate::leading::Leading;
use growth::{Refused, granted};
use ocf_env::{Invocation, Text};
use std::alloc::{Allocator, Global};
use std::process::{Command, Stdio};

// Each agent runs in this directory, so that it keeps no other from being unmounted.
const DIRECTORY: &str = "/";

#[tactic(auto, using(growth::specs::Refused::refuses))]
fn push_argument(command: &mut Command, argument: &str) -> Result<(), Refused>
    ensures program { OnOk result (command_program command.new ≡ command_program command.old) }
    ensures arguments { OnOk result (command_args command.new
        ≡ command_args command.old ++ argument.now ∷ []) }
    ensures environment { OnOk result (SameEnv command.old command.new) }
    ensures directory { OnOk result (SameDir command.old command.new) }
{
    // TRUSTED: a command allocates by itself, and fails only where that is refused.
    granted(command.arg(argument))?;
    Ok(())
}

fn push_arguments<L: Allocator>(command: &mut Command, arguments: &[Text<L>]) -> Result<(), Refused>
    ensures program { OnOk result (command_program command.new ≡ command_program command.old) }
    ensures arguments { OnOk result (command_args command.new
        ≡ command_args command.old ++ arguments.now) }
    ensures environment { OnOk result (SameEnv command.old command.new) }
    ensures directory { OnOk result (SameDir command.old command.new) }
{
    for argument in arguments {
        push_argument(command, argument.as_str())?;
    }
    Ok(())
}

#[tactic(auto, using(growth::specs::Refused::refuses))]
fn set_variable(command: &mut Command, name: &str, value: &str) -> Result<(), Refused>
    ensures call { OnOk result (SameProgramAndArgs command.old command.new) }
    ensures variables { OnOk result ((k : List ℕ)
        → command_var command.new k
        ≡ (if bytes_eq name.now k then Some (Some value.now) else command_var command.old k)) }
    ensures cleared { OnOk result (clears_env command.new ≡ clears_env command.old) }
    ensures directory { OnOk result (SameDir command.old command.new) }
{
    // TRUSTED: a command allocates by itself, and fails only where that is refused.
    granted(command.env(name, value))?;
    Ok(())
}

fn push_variables<L: Allocator>(
    command: &mut Command,
    variables: &[(Text<L>, Text<L>)],
) -> Result<(), Refused>
    ensures call { OnOk result (SameProgramAndArgs command.old command.new) }
    ensures variables { OnOk result ((name : List ℕ)
        → command_var command.new name
        ≡ var_after Some Some name (command_var command.old name) variables.now) }
    ensures cleared { OnOk result (clears_env command.new ≡ clears_env command.old) }
    ensures directory { OnOk result (SameDir command.old command.new) }
{
    for (name, value) in variables {
        set_variable(command, name.as_str(), value.as_str())?;
    }
    Ok(())
}

#[tactic(auto, using(growth::specs::Refused::refuses))]
fn new_command(alloc: Global, program: &str) -> Result<Command, Refused>
    ensures program { IfOk result (λ c. command_program c ≡ program.now) }
    ensures arguments { IfOk result (λ c. command_args c ≡ []) }
    ensures variables { IfOk result (λ c. (name : List ℕ) → command_var c name ≡ None) }
{
    // TRUSTED: a command allocates by itself, and fails only where that is refused.
    granted(Command::new(alloc, program))
}

#[tactic(auto, using(growth::specs::Refused::refuses))]
fn set_directory(command: &mut Command) -> Result<(), Refused>
    ensures call { OnOk result (SameProgramAndArgs command.old command.new) }
    ensures environment { OnOk result (SameEnv command.old command.new) }
    ensures directory { OnOk result (command_dir command.new ≡ Some (codes "/")) }
{
    // TRUSTED: a command allocates by itself, and fails only where that is refused.
    granted(command.current_dir(DIRECTORY))?;
    Ok(())
}

// A command with neither arguments nor variables.
fn bare(alloc: Global, program: &str) -> Result<Command, Refused>
    ensures program { IfOk result (λ c. command_program c ≡ program.now) }
    ensures arguments { IfOk result (λ c. command_args c ≡ []) }
    ensures variables { IfOk result (λ c. (name : List ℕ) → command_var c name ≡ None) }
    ensures cleared { IfOk result (λ c. clears_env c ≡ true) }
    ensures directory { IfOk result (λ c. command_dir c ≡ Some (codes "/")) }
{
    let mut command = new_command(alloc, program)?;
    command.env_clear();
    set_directory(&mut command)?;
    Ok(command)
}

/// Sets where a command writes its standard output and its standard error.
pub fn write_to(command: &mut Command, output: Stdio, errors: Stdio)
    ensures call { SameProgramAndArgs command.old command.new }
    ensures environment { SameEnv command.old command.new }
    ensures directory { SameDir command.old command.new }
{
    command.stdout(output);
    command.stderr(errors);
}

// Connects the standard streams of a command to `/dev/null`.
fn silence(command: &mut Command)
    ensures call { SameProgramAndArgs command.old command.new }
    ensures environment { SameEnv command.old command.new }
    ensures directory { SameDir command.old command.new }
{
    command.stdin(Stdio::null());
    command.stdout(Stdio::null());
    command.stderr(Stdio::null());
}

// Completes a command with the arguments of an invocation, its variables and no others, and standard streams that are connected to
// `/dev/null`.
fn complete<L: Allocator>(command: &mut Command, invocation: &Invocation<L>) -> Result<(), Refused>
    ensures program { OnOk result (command_program command.new ≡ command_program command.old) }
    ensures arguments { OnOk result (command_args command.new
        ≡ command_args command.old ++ invocation.now.arguments) }
    ensures variables { OnOk result ((name : List ℕ)
        → command_var command.new name
        ≡ var_after Some Some name (command_var command.old name) invocation.now.environment) }
    ensures cleared { OnOk result (clears_env command.new ≡ clears_env command.old) }
    ensures directory { OnOk result (SameDir command.old command.new) }
{
    push_arguments(command, invocation.arguments())?;
    push_variables(command, invocation.environment())?;
    silence(command);
    Ok(())
}

/// The command of an invocation: its program with its arguments, its variables and no others, in the root directory, with its
/// standard streams connected to `/dev/null`.
pub fn command_of<L: Allocator>(
    alloc: Global,
    invocation: &Invocation<L>,
) -> Result<Command, Refused>
    ensures asks { IfOk result (λ c. Asks c invocation.now) }
{
    let mut command = bare(alloc, invocation.program())?;
    complete(&mut command, invocation)?;
    Ok(command)
}

// The command of an invocation that this leader makes.
fn led<L: Allocator>(
    alloc: Global,
    leader: &str,
    invocation: &Invocation<L>,
) -> Result<Command, Refused>
    ensures asks { IfOk result (λ c. AsksBy (Some leader.now) c invocation.now) }
{
    let mut command = bare(alloc, leader)?;
    push_argument(&mut command, invocation.program())?;
    complete(&mut command, invocation)?;
    Ok(command)
}

/// The command of an invocation, made by a leader, if there is one. The standard input of the launcher is a pipe, on which it waits for
/// a byte; the other streams are connected to `/dev/null`.
pub fn command_by<B: Allocator, L: Allocator>(
    alloc: Global,
    leading: &Leading<B>,
    invocation: &Invocation<L>,
) -> Result<Command, Refused>
    ensures asks { IfOk result (λ c. AsksBy (leader_of leading.now) c invocation.now) }
{
    match leading {
        Leading::Nothing => command_of(alloc, invocation),
        Leading::Setsid(path) => led(alloc, path.as_str(), invocation),
        Leading::Launcher(path) => {
            let mut command = led(alloc, path.as_str(), invocation)?;
            command.stdin(Stdio::piped());
            Ok(command)
        }
    }
}
