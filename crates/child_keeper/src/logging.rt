//! What is written to the log of agents, and on standard error, about their ends.
use crate::agents::Agent;
use crate::moments::millis_since;
use agent_logs::{Begun, Ended, Log, LoggedEnd, Uncopied};
use agent_system::{name_text, refused};
use ocf_env::{Invocation, Launch};
use ocf_types::StartFault;
use std::alloc::Allocator;
use std::io::{self, Eprint};
use std::rt::Clock;

/// The name of the action of an invocation: its last argument.
pub fn action_of<L: Allocator>(invocation: &Invocation<L>) -> &str {
    match invocation.arguments().last() {
        Some(action) => action.as_str(),
        None => "",
    }
}

/// The begin of a launch.
pub fn begun_of<L: Allocator>(launch: &Launch<L>) -> Begun<'_> {
    Begun {
        call: launch.call,
        run: launch.run,
        action: action_of(&launch.invocation),
        timeout: launch.timeout,
    }
}

/// Writes to the log that an agent has ended.
pub fn log_end<R: Clock + Eprint, C: Drop>(rt: &R, log: &Log, agent: &Agent<C>, end: LoggedEnd) {
    let ended = Ended {
        run: agent.process.run,
        end,
        millis: millis_since(rt, agent.spawned_at),
    };
    log.end(rt, &agent.process.id, &agent.uncopied, ended);
}

/// Writes to the log that an agent was not started, and, where its result does not record the cause, on standard error why.
pub fn log_refused<R: Clock + Eprint, L: Allocator>(
    rt: &R,
    log: &Log,
    launch: &Launch<L>,
    error: &io::Error,
) -> StartFault {
    let (run, id) = (launch.run.get(), name_text(launch.id.as_bytes()));
    let fault = refused(rt, format_args!("run {run} of {id}"), error);
    let ended = Ended {
        run: launch.run,
        end: LoggedEnd::Refused(fault),
        millis: 0,
    };
    log.end(rt, &launch.id, &Uncopied::none(), ended);
    fault
}

/// Reports on standard error which signal ended an agent, since its result does not record that.
pub fn report_signaled<R: Eprint, C: Drop>(rt: &R, agent: &Agent<C>, signal: u8) {
    let (run, id) = (
        agent.process.run.get(),
        name_text(agent.process.id.as_bytes()),
    );
    let _ = rt.eprintln(format_args!("ocfexec: run {run} of {id} was ended by signal {signal}"));
}
