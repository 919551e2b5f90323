//! Commands and questions. `P` is the type of parameters.
use crate::action::{Check, Task};
use crate::event::Registration;
use crate::numbers::{CallId, Millis};
use crate::params::Params;
use crate::rsc_id::RscId;
use std::alloc::Global;

/// A change that an administrator or a cluster manager asks for.
#[derive(Drop)]
pub enum CommandOf<P> {
    /// Register a resource.
    Register(Registration<P>),
    /// Remove a resource.
    Unregister(RscId),
    /// Replace all parameters of a resource.
    SetParams {
        id: RscId,
        params: P,
    },
    /// Run an action once.
    Exec {
        id: RscId,
        task: Task,
        timeout: Millis,
    },
    /// Run a monitor again and again.
    Recur {
        id: RscId,
        interval: Millis,
        timeout: Millis,
        check: Check,
    },
    /// Remove the recurring monitor of an interval.
    Cancel {
        id: RscId,
        interval: Millis,
    },
    /// Forget the results of a resource.
    Forget(RscId),
    /// Take an action out of the queue.
    Withdraw {
        id: RscId,
        call: CallId,
    },
}

/// A query, which changes nothing.
#[derive(Drop)]
pub enum Question {
    /// The ids of all resources.
    List,
    /// The agent, the parameters and the operations of a resource.
    Info(RscId),
    /// The last results of a resource.
    History(RscId),
}

/// A request to the executor.
#[derive(Drop)]
pub enum RequestOf<P> {
    Command(CommandOf<P>),
    Question(Question),
}

/// A command whose parameters are in memory of the allocator.
pub type Command<A = Global> = CommandOf<Params<A>>;

/// A request whose parameters are in memory of the allocator.
pub type Request<A = Global> = RequestOf<Params<A>>;
