//! Executors that spawn nothing, and a registration by one.
use disk_model::Disk;
use executor::{Executor, OpenError};
use ocf_env::{Site, Text};
use ocf_model::{Refusal, Reply, ReplyOf};
use ocf_types::{AgentType, CommandOf, Params, Provider, Registration, Request, RequestOf, RscId};
use std::alloc::Global;
use std::collections::VecDeque;
use test_support::{Script, Scripted};

/// Agent processes for an executor that spawns nothing: their book has no capacity.
pub fn no_children(alloc: Global) -> Option<Scripted> {
    let script = Script {
        starts: VecDeque::new(alloc),
        polls: VecDeque::new(alloc),
        kills: VecDeque::new(alloc),
        holds: VecDeque::new(alloc),
    };
    Scripted::new(alloc, script, 0).ok()
}

/// Empty agent paths: there are no agents.
pub fn nowhere(alloc: Global) -> Site {
    let (root, path) = (String::new(alloc), String::new(alloc));
    Site::new(Text::new(root), Text::new(path), None)
}

/// The end of an attempt to register a resource.
#[derive(Clone, Copy, PartialEq)]
pub enum Reached {
    NotOpened(OpenError),
    Refused(Refusal),
    Acknowledged,
}

/// The request to register a Dummy of the provider pacemaker.
pub fn registration(alloc: Global, name: &str) -> Option<Request> {
    Some(RequestOf::Command(CommandOf::Register(Registration {
        id: RscId::new(name.as_bytes()).ok()?,
        provider: Provider::new(b"pacemaker").ok()?,
        agent: AgentType::new(b"Dummy").ok()?,
        params: Params::new(alloc),
    })))
}

/// The end of a request with this reply.
pub fn end_of(reply: &Reply) -> Reached {
    match reply {
        ReplyOf::Refused(refusal) => Reached::Refused(*refusal),
        _ => Reached::Acknowledged,
    }
}

// Sends an executor a request at moment 0, and closes it.
fn taken<D: Disk + Drop>(mut executor: Executor<D, Scripted>, request: Request) -> (Reached, D) {
    let reached = end_of(&executor.command(0, request));
    (reached, executor.close().0)
}

/// Opens an executor on a disk, registers a resource at moment 0, and closes it.
pub fn register<D: Disk + Drop>(alloc: Global, disk: D, name: &str) -> Option<(Reached, D)> {
    let (children, request) = (no_children(alloc)?, registration(alloc, name)?);
    Some(
        match Executor::open(alloc, disk, children, nowhere(alloc), 0) {
            Ok((executor, _report)) => taken(executor, request),
            Err(fault) => (Reached::NotOpened(fault.why), fault.disk),
        },
    )
}
