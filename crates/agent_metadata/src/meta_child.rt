//! An agent that is asked for its metadata.
ghost use Rattle.std.specs.Prelude.{◌≡◌, ◌≢◌, ◌<◌, ◌≤◌, true, false, IfErr, IfOk, IfSome, IsTrue, None, Ok, OnErr, OnOk, Some, vec_len};
ghost use Rattle.std.specs.Io.KnownBytes.{IsAtEnd};
ghost use Rattle.agent_metadata.specs.Asking.{AsksFor, EndsOne, IsAlone, IsIdle, IsRefused, OnlyPolls, RunsOne, SendsNone};
ghost use Rattle.agent_metadata.specs.Codes.{CountsAs};
ghost use Rattle.agent_metadata.specs.MetaCalls.{IsMetaCall};
ghost use Rattle.agent_metadata.specs.MetaChildren.{HasNone, IfAnswered, PollsTo, asked_of, asked_process, left_of};
ghost use Rattle.agent_metadata.specs.MetaOutputs.{KeepsAll};
ghost use Rattle.agent_metadata.specs.MetaRuns.{IsAnswerOf, IsCodeNow, IsStop, PollsBy, StartFails};
ghost use Rattle.agent_system.specs.Commands.{leader_of};
ghost use Rattle.ocf_types.specs.Limits.{metadata_limit};
ghost use Rattle.ocf_types.specs.declared.outcome.MetaFault.TheVariants.{Failed, Limit, TooLong};

use crate::asking::{ask_agent, end_one};
use crate::meta_output::{MetaOutput, Progress};
use agent_system::{AgentSystem, How, Leading, Waited, Whose, end_of, name_text, refused};
use child_model::Poll;
use growth::{Grows, Refused};
use ocf_env::{Invocation, Site, launch_meta};
use ocf_types::{AgentType, MetaFault, Provider, RscId, RunId, StartFault};
use pauses::{Deadline, Pauses};
use std::alloc::Allocator;
use std::io::{self, Eprint, Read};
use std::process::{ExitStatus, Stdio};
use std::rt::Clock;

/// An agent that was asked for its metadata and has not answered yet. It cannot be dropped: it is polled until it answers, or
/// given up.
pub struct MetaChild<R: AgentSystem, A: Allocator> {
    child: R::Child,
    stdout: Option<R::Output>,
    output: MetaOutput<A>,
    progress: Progress,
    // When the agent must have answered; `None` where it has no limit.
    deadline: Option<Deadline>,
}

/// The result of a poll of an agent that is asked for its metadata.
pub enum MetaPoll<R: AgentSystem, A: Allocator> {
    /// It has not answered yet.
    Waits(MetaChild<R, A>),
    /// Its metadata, or why it has none.
    Answered(Result<Vec<u8, A>, MetaFault>),
}

/// The agent that is asked for its metadata, and how it is spawned.
#[derive(Drop)]
pub struct MetaCall<'a, S: Allocator> {
    pub site: &'a Site<S>,
    pub provider: &'a Provider,
    pub agent: &'a AgentType,
    pub leading: &'a Leading,
}

// The invocation that asks an agent for its metadata.
fn invocation_of<A: Grows, S: Allocator>(
    alloc: A,
    call: &MetaCall<'_, S>,
) -> Result<Invocation<A>, Refused<A>>
    ensures call { IfOk result
        (IsMetaCall call.now.site.now call.now.provider.now call.now.agent.now) }
{
    launch_meta(alloc, call.site, call.provider, call.agent)
}

// Whose an agent's process is that is asked for its metadata: no action's and no resource's.
fn whose() -> Whose {
    match (RunId::new(1), RscId::new(b"meta-data")) {
        (Some(run), Ok(id)) => Whose { run, id },
        _ => unreachable!(),
    }
}

// Spawns the agent with a pipe for its output, and lets it run.
fn asked<R: AgentSystem + Clock + Eprint, A: Grows>(
    rt: &mut R,
    alloc: A,
    leading: &Leading,
    invocation: &Invocation<A>,
) -> io::Result<R::Child>
    requires idle { IsIdle (R.view rt.old).sights }
    ensures asked { IfOk result (λ child. RunsOne (leader_of leading.now) invocation.now
        (R.view rt.old) (R.view rt.new) (R.process_of child)) }
    ensures alone { IfOk result
        (λ child. IsAlone (R.view rt.new).sights (R.process_of child)) }
    ensures quiet { OnOk result (SendsNone (R.view rt.old) (R.view rt.new)) }
    ensures refused { OnErr result (IsRefused (leader_of leading.now) invocation.now
        (R.view rt.old) (R.view rt.new)) }
{
    let how = How {
        leading,
        output: Stdio::piped(),
        errors: Stdio::null(),
    };
    ask_agent(rt, alloc, &whose(), invocation, how, "meta-data")
}

// Why the agent was not spawned.
fn refused_meta<R: Eprint, S: Allocator>(
    rt: &R,
    call: &MetaCall<'_, S>,
    error: &io::Error,
) -> StartFault {
    let provider = name_text(call.provider.as_bytes());
    let agent = name_text(call.agent.as_bytes());
    refused(rt, format_args!("meta-data of {provider}:{agent}"), error)
}

// The exit code that an agent counts as having ended with: 1 where a signal ended it.
fn code_of(status: ExitStatus) -> u8
    ensures { CountsAs status result }
{
    match end_of(status) {
        Poll::Exited(code) => code,
        _ => 1,
    }
}

// The exit code of an agent, if it has ended.
fn exit_code<R: AgentSystem>(rt: &mut R, child: &mut R::Child) -> Result<Option<u8>, MetaFault>
    requires alone { IsAlone (R.view rt.old).sights (R.process_of child.old) }
    ensures same { R.process_of child.new ≡ R.process_of child.old }
    ensures polls { OnlyPolls (R.view rt.old) (R.view rt.new) }
    ensures ended { IsCodeNow (R.view rt.new) (R.process_of child.new) result }
    ensures failed { IfErr result (λ fault. fault ≡ MetaFault.Read) }
{
    match rt.poll(child) {
        Ok(None) => Ok(None),
        Ok(Some(status)) => Ok(Some(code_of(status))),
        Err(_) => Err(MetaFault::Read),
    }
}

// The exit code of an agent once it and its output have ended, or why the wait for it is over. It has `left` milliseconds left.
fn code_now<R: AgentSystem>(
    rt: &mut R,
    child: &mut R::Child,
    progress: Progress,
    left: u32,
) -> Result<Option<u8>, MetaFault>
    requires alone { IsAlone (R.view rt.old).sights (R.process_of child.old) }
    ensures limit { result ≡ Ok None → 0 < left }
    ensures late { result ≡ Err Limit → left ≡ 0 }
    ensures read { IfOk result (λ ended. IfSome ended (λ code. progress ≡ Progress.Ended)) }
    ensures same { R.process_of child.new ≡ R.process_of child.old }
    ensures polls { OnlyPolls (R.view rt.old) (R.view rt.new) }
    ensures ended { IsCodeNow (R.view rt.new) (R.process_of child.new) result }
    ensures failed { IfErr result IsStop }
{
    let code = match progress {
        Progress::Open => None,
        Progress::Ended => exit_code(rt, child)?,
        Progress::Failed => return Err(MetaFault::Read),
    };
    if code.is_none() && left == 0 {
        return Err(MetaFault::Limit);
    }
    Ok(code)
}

// The metadata of an agent with this output and this exit code, or why it has none.
fn answer_of<A: Allocator>(output: MetaOutput<A>, code: u8) -> Result<Vec<u8, A>, MetaFault>
    ensures given { IfOk result (λ metadata. (code ≡ 0) × (output.is_whole ≡ true)
        × (metadata.items ≡ output.bytes.items)) }
    ensures code { 0 < code → result ≡ Err (Failed code) }
    ensures too_long { code ≡ 0 → output.is_whole ≡ false → result ≡ Err TooLong }
    ensures ended { IsAnswerOf code result }
{
    match (code, output.is_whole) {
        (1.., _) => Err(MetaFault::Failed(code)),
        (0, true) => Ok(output.bytes),
        (0, false) => Err(MetaFault::TooLong),
    }
}

// Reads the bytes that a stream has ready, if there is a stream.
fn read_from<S: Read + Waited, A: Allocator>(
    stream: &mut Option<S>,
    output: &mut MetaOutput<A>,
) -> Progress
    ensures kept { KeepsAll (left_of S.remaining stream.old) (left_of S.remaining stream.new)
        output.old output.new }
    ensures ended { result ≡ Progress.Ended → IsAtEnd (left_of S.remaining stream.new) }
{
    match stream {
        Some(stream) => output.read_ready(stream),
        None => Progress::Failed,
    }
}

impl<R: AgentSystem + Clock + Eprint, A: Grows> MetaChild<R, A> {
    /// Asks an agent for its metadata. It has `limit` milliseconds, or as long as it takes where there is no limit. All memory for
    /// the metadata is taken here. Errors come in this order: memory is refused, for the metadata or for the invocation; the system
    /// does not spawn the agent, or does not let it run, and then it was ended with all its descendants.
    pub fn start<S: Allocator>(
        rt: &mut R,
        alloc: A,
        call: &MetaCall<'_, S>,
        limit: Option<u32>,
    ) -> Result<MetaChild<R, A>, MetaFault>
        requires idle { IsIdle (R.view rt.old).sights }
        ensures none { IfOk result (λ child. HasNone (asked_of R.Output.remaining child)) }
        ensures asked { IfOk result (λ child. AsksFor (leader_of call.now.leading.now)
            (IsMetaCall call.now.site.now call.now.provider.now call.now.agent.now)
            (R.view rt.old) (R.view rt.new) (asked_process R.process_of child)) }
        ensures alone { IfOk result
            (λ child. IsAlone (R.view rt.new).sights (asked_process R.process_of child)) }
        ensures quiet { OnOk result (SendsNone (R.view rt.old) (R.view rt.new)) }
        ensures refused { IfErr result (StartFails (leader_of call.now.leading.now)
            (IsMetaCall call.now.site.now call.now.provider.now call.now.agent.now)
            (R.view rt.old) (R.view rt.new)) }
        ensures memory { IfErr result (λ fault. fault ≡ MetaFault.Memory → IsTrue A.refuses) }
    {
        let Ok(output) = MetaOutput::new(alloc) else {
            return Err(MetaFault::Memory);
        };
        let Ok(invocation) = invocation_of(alloc, call) else {
            return Err(MetaFault::Memory);
        };
        let deadline = limit.map(|millis| Deadline::after(rt, millis));
        match asked(rt, alloc, call.leading, &invocation) {
            Ok(mut child) => Ok(MetaChild {
                stdout: rt.take_output(&mut child),
                child,
                output,
                progress: Progress::Open,
                deadline,
            }),
            Err(error) => Err(MetaFault::NotStarted(refused_meta(rt, call, &error))),
        }
    }

    /// Returns the answer if there is one, without waiting for it. The agent has answered once it has ended and no other process
    /// holds its output. Errors come in this order: its output or its end cannot be read, or does not come in time, and then the
    /// agent was ended with all its descendants; its exit code was not 0; it wrote too much.
    pub fn poll(mut self, rt: &mut R, alloc: A) -> MetaPoll<R, A>
        requires alone { IsAlone (R.view rt.old).sights (asked_process R.process_of self) }
        ensures length { IfAnswered result
            (λ answer. IfOk answer (λ metadata. vec_len metadata ≤ metadata_limit)) }
        ensures failed { IfAnswered result (λ answer. IfErr answer (λ fault. fault ≢ Failed 0)) }
        ensures polls { PollsTo R.Output.remaining self result }
        ensures ended { PollsBy R.process_of (R.view rt.old) (R.view rt.new)
            (asked_process R.process_of self) result }
    {
        self.progress = read_from(&mut self.stdout, &mut self.output);
        let left = self.left(rt);
        match code_now(rt, &mut self.child, self.progress, left) {
            Ok(None) => MetaPoll::Waits(self),
            Ok(Some(code)) => MetaPoll::Answered(answer_of(self.into_output(), code)),
            Err(fault) => {
                self.give_up(rt, alloc);
                MetaPoll::Answered(Err(fault))
            }
        }
    }

    // What was read of its output.
    fn into_output(self) -> MetaOutput<A>
        ensures { result ≡ self.output }
    {
        let MetaChild {
            child: _,
            stdout: _,
            output,
            progress: _,
            deadline: _,
        } = self;
        output
    }

    // How many milliseconds the agent has left: `u32::MAX` where it has no limit.
    fn left(&self, clock: &impl Clock) -> u32 {
        match self.deadline {
            Some(deadline) => deadline.left(clock),
            None => u32::MAX,
        }
    }

    /// Waits until a poll may find more: for output, up to the limit, or for one pause once the output has ended.
    pub fn wait(&self, clock: &impl Clock, pauses: &mut Pauses) {
        match (&self.stdout, self.progress) {
            (Some(stdout), Progress::Open) => {
                stdout.is_ready(self.left(clock));
            }
            _ => {
                pauses.pause(clock);
            }
        }
    }

    /// Gives the agent up and ends it with all its descendants. An agent that lives on is named on standard error.
    pub fn give_up(self, rt: &mut R, alloc: A)
        requires alone { IsAlone (R.view rt.old).sights (asked_process R.process_of self) }
        ensures ended { EndsOne (R.view rt.old) (R.view rt.new) (asked_process R.process_of self) }
    {
        let MetaChild {
            child,
            stdout: _,
            output: _,
            progress: _,
            deadline: _,
        } = self;
        end_one(rt, alloc, child, "meta-data");
    }
}
