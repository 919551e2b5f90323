//! Runs an action once.
ghost use Rattle.std.specs.Prelude.{◌≡◌, [], IfOk, OnErr, OnOk};
ghost use Rattle.agent_metadata.specs.Asking.{AsksNone, EndsOne, IsAlone, IsIdle, IsRefused, OnlyPolls, RunsOne, SendsNone};
ghost use Rattle.agent_system.specs.Commands.{leader_of};
ghost use Rattle.exec_once.specs.Ends.{EndsAs, IsLeft};
ghost use Rattle.exec_once.specs.Runs.{IsKilledAt, IsRunBy};

use crate::call::{OnceCall, What, invocation_of};
use crate::ending::{OnceEnd, end_now};
use agent_metadata::{ask_agent, end_one};
use agent_system::{AgentSystem, How, Leading, Whose};
use ocf_env::{Invocation, Site};
use ocf_types::RunId;
use pauses::{Deadline, Pauses};
use std::alloc::{Allocator, Global};
use std::io::{self, Eprint};
use std::process::Stdio;
use std::rt::Clock;

/// Where agents are, and how they are spawned.
#[derive(Drop)]
pub struct OnceSite<'a, S: Allocator> {
    pub site: &'a Site<S>,
    pub leading: &'a Leading,
}

// Whose the agent's process is. Metadata are of no run, and have the first one.
fn whose(call: &OnceCall) -> Whose {
    let run = match (call.what, RunId::new(1)) {
        (What::Action(running), _) => running.run,
        (What::MetaData, Some(run)) => run,
        (What::MetaData, None) => unreachable!(),
    };
    Whose {
        run,
        id: call.id.copied(),
    }
}

// Spawns the agent and lets it run, with this program's standard output and standard error for its own.
fn asked<R: AgentSystem + Clock + Eprint>(
    rt: &mut R,
    alloc: Global,
    leading: &Leading,
    call: &OnceCall,
    invocation: &Invocation,
) -> io::Result<R::Child>
    requires idle { IsIdle (R.view rt.old).sights }
    ensures asked { IfOk result (λ child. RunsOne (leader_of leading.now) invocation.now
        (R.view rt.old) (R.view rt.new) (R.process_of child)) }
    ensures alone { IfOk result
        (λ child. IsAlone (R.view rt.new).sights (R.process_of child)) }
    ensures quiet { OnOk result (SendsNone (R.view rt.old) (R.view rt.new)) }
    ensures refused { OnErr result (IsRefused (leader_of leading.now) invocation.now
        (R.view rt.old) (R.view rt.new)) }
{
    let how = How {
        leading,
        output: Stdio::inherit(),
        errors: Stdio::inherit(),
    };
    ask_agent(rt, alloc, &whose(call), invocation, how, "the agent")
}

// Polls an agent until it has ended or its time is up: nothing is left of the deadline, or of these pauses, which are all that come in
// between.
fn await_end<R: AgentSystem + Clock>(
    rt: &mut R,
    child: &mut R::Child,
    deadline: Deadline,
    pauses: &mut Pauses,
) -> OnceEnd
    requires alone { IsAlone (R.view rt.old).sights (R.process_of child.old) }
    ensures same { R.process_of child.new ≡ R.process_of child.old }
    ensures polls { OnlyPolls (R.view rt.old) (R.view rt.new) }
    ensures ended { EndsAs (R.view rt.new) (R.process_of child.new) result }
    ensures left { IsLeft (R.view rt.new) (R.process_of child.new) result }
{
    loop {
        if let Some(end) = end_now(rt, child, deadline.left(rt)) {
            return end;
        }
        if !pauses.pause(rt) {
            return end_now(rt, child, 0).unwrap_or(OnceEnd::TimedOut);
        }
    }
}

// Ends an agent of which no status came, with all that belongs to it. If it lives on, that is reported on standard error.
fn end_left<R: AgentSystem + Clock + Eprint>(
    rt: &mut R,
    alloc: Global,
    child: R::Child,
    end: OnceEnd,
)
    requires left { IsLeft (R.view rt.old) (R.process_of child) end }
    ensures none { AsksNone (R.view rt.old) (R.view rt.new) }
    ensures polled { (R.view rt.new).polled ≡ (R.view rt.old).polled }
    ensures live { (R.view rt.new).sights.live ≡ [] }
    ensures killed { IsKilledAt (R.view rt.old) (R.view rt.new) (R.process_of child) end }
{
    match end {
        OnceEnd::TimedOut | OnceEnd::Lost => end_one(rt, alloc, child, "the agent"),
        OnceEnd::Exited(_) | OnceEnd::Signaled(_) | OnceEnd::NotStarted => {}
    }
}

/// Runs an action, and waits for its end for at most this many milliseconds; then the agent is killed, with its process group and all its
/// descendants. The agent's standard input is empty, and its output goes to this program's. If it is not spawned, the cause is reported
/// on standard error.
pub fn run_once<R: AgentSystem + Clock + Eprint, S: Allocator>(
    rt: &mut R,
    alloc: Global,
    at: &OnceSite<'_, S>,
    call: &OnceCall,
    millis: u32,
) -> OnceEnd
    requires idle { IsIdle (R.view rt.old).sights }
    ensures run { IsRunBy (leader_of at.now.leading.now) at.now.site.now call.now
        (R.view rt.old) (R.view rt.new) result }
    ensures live { (R.view rt.new).sights.live ≡ [] }
{
    let Ok(invocation) = invocation_of(alloc, at.site, call) else {
        let _ = rt.eprintln("ocfexec: no memory to start the agent");
        return OnceEnd::NotStarted;
    };
    match asked(rt, alloc, at.leading, call, &invocation) {
        Ok(mut child) => {
            let deadline = Deadline::after(rt, millis);
            let mut pauses = Pauses::within(millis);
            let end = await_end(rt, &mut child, deadline, &mut pauses);
            end_left(rt, alloc, child, end);
            end
        }
        Err(error) => {
            let _ = rt.eprintln(format_args!("ocfexec: the agent was not started: {error}"));
            OnceEnd::NotStarted
        }
    }
}
