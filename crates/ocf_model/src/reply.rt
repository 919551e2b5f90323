//! Replies to requests, and ends of turns and tidies.

use crate::items::Items;
use crate::refusal::Refusal;
use arrayvec::ArrayVec;
use ocf_types::{
    AgentType, CallId, Ended, OpKey, Params, Provider, QUEUE_LIMIT, RECURRING_LIMIT, Recur, RscId,
    Running,
};
use std::alloc::Global;

/// The agent, the parameters and the operations of a resource. `P` is the type of parameters.
#[derive(Drop)]
pub struct InfoOf<P> {
    pub id: RscId,
    pub provider: Provider,
    pub agent: AgentType,
    pub params: P,
    /// The call ids of the queued actions, in order.
    pub queued: ArrayVec<CallId, { QUEUE_LIMIT }>,
    pub running: Option<Running>,
    pub recurring: ArrayVec<Recur, { RECURRING_LIMIT }>,
    /// The last result that failed.
    pub failed: Option<Ended>,
}

/// How a turn ended.
#[derive(Clone, Copy, PartialEq, Eq)]
pub enum TurnEnd {
    /// Every running action was polled, and every action that could begin has begun.
    Done,
    /// The executor was closed; nothing was done.
    Closed,
    /// The book of agent processes has too little capacity; nothing was done.
    BookFull,
    /// All run numbers are used up.
    RunsSpent,
    /// The journal has no space for another begin.
    Full,
    /// A launch ran out of memory.
    Memory,
    /// The journal's device failed; the executor is closed.
    Disk,
}

/// How a tidy of the journal ended.
#[derive(Clone, Copy)]
pub enum TidyEnd {
    /// The state is now the snapshot of the other part.
    Done,
    /// The executor was closed before; nothing was done.
    Closed,
    /// The epoch is the greatest one; nothing was done.
    EpochSpent,
    /// The device failed; the executor is closed.
    Disk,
}

/// The reply to a request or a turn. `P` is the type of parameters, `I` that of the list of ids, `H` that of results.
#[derive(Drop)]
pub enum ReplyOf<P, I, H> {
    /// The request was refused, and changed nothing.
    Refused(Refusal),
    /// The command's event is recorded.
    Done,
    /// The operation was accepted, under this call id and key.
    Accepted { call: CallId, key: OpKey },
    /// The ids of all resources, in order of registration.
    List(I),
    Info(InfoOf<P>),
    /// The last results, oldest first.
    History(H),
    /// The end of a turn.
    Turn(TurnEnd),
}

/// An info whose parameters are in memory of the allocator.
pub type Info<A = Global> = InfoOf<Params<A>>;

/// A reply whose lists are in memory of the allocator.
pub type Reply<A = Global> = ReplyOf<Params<A>, Items<RscId, A>, Items<Ended, A>>;
