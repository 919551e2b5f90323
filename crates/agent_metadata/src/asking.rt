//! Asks one agent something that is no run.
ghost use Rattle.std.specs.Prelude.{IfOk, OnErr, OnOk};
ghost use Rattle.agent_metadata.specs.Asking.{EndsOne, IsAlone, IsIdle, IsRefused, RunsOne, SendsNone};
ghost use Rattle.agent_system.specs.Commands.{leader_of};

use agent_system::{AgentSystem, How, Whose, check_program};
use ocf_env::Invocation;
use process_ends::end_agent;
use std::alloc::Allocator;
use std::io::{self, Eprint};
use std::rt::Clock;

/// Gives up and ends the one agent that lives, with all that belongs to it. What lives on is named on standard error.
pub fn end_one<R: AgentSystem + Clock + Eprint, A: Allocator + Copy>(
    rt: &mut R,
    alloc: A,
    child: R::Child,
    name: &str,
)
    requires alone { IsAlone (R.view rt.old).sights (R.process_of child) }
    ensures ended { EndsOne (R.view rt.old) (R.view rt.new) (R.process_of child) }
{
    end_agent(rt, alloc, child, name);
}

/// Spawns an agent for something that is no run, and lets it run. One that cannot be let run is ended, with all that belongs to it; what
/// lives on is named on standard error.
pub fn ask_agent<R: AgentSystem + Clock + Eprint, A: Allocator + Copy, L: Allocator, B: Allocator>(
    rt: &mut R,
    alloc: A,
    whose: &Whose,
    invocation: &Invocation<L>,
    how: How<'_, B>,
    name: &str,
) -> io::Result<R::Child>
    requires idle { IsIdle (R.view rt.old).sights }
    ensures asked { IfOk result (λ child. RunsOne (leader_of how.entry.leading.now)
        invocation.now (R.view rt.old) (R.view rt.new) (R.process_of child)) }
    ensures alone { IfOk result
        (λ child. IsAlone (R.view rt.new).sights (R.process_of child)) }
    ensures quiet { OnOk result (SendsNone (R.view rt.old) (R.view rt.new)) }
    ensures refused { OnErr result (IsRefused (leader_of how.entry.leading.now) invocation.now
        (R.view rt.old) (R.view rt.new)) }
{
    check_program(rt, alloc, how.leading, invocation)?;
    let mut child = rt.ask(whose, invocation, how)?;
    match rt.let_run(&mut child) {
        Ok(()) => Ok(child),
        Err(error) => {
            end_one(rt, alloc, child, name);
            Err(error)
        }
    }
}
