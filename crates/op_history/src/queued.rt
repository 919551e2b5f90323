//! A queued action.
ghost use Rattle.std.specs.Prelude.{◌≡◌, ◌≤◌, length};

use arrayvec::ArrayVec;
use ocf_types::{CallId, Check, Millis, Op, QUEUE_LIMIT, Task};
use std::marker::Model;

/// A queued action, which contracts see as the action.
#[derive(Drop)]
pub(crate) struct Queued {
    op: Op,
}

impl Model for Queued {
    ghost use Rattle.ocf_types.specs.declared.operation.Op.{Op};

    ghost Value = { Op };

    ghost view = { λ q. q.op };
}

impl Queued {
    pub(crate) fn new(op: Op) -> Queued
        ensures { result ≡ op }
    {
        Queued { op }
    }

    /// The action.
    pub(crate) fn op(&self) -> Op
        ensures { result ≡ self.now }
    {
        self.op
    }
}

/// Fills the unused entries of the queue, which contracts do not see.
impl Default for Queued {
    fn default() -> Queued {
        let (Some(call), Some(timeout)) = (CallId::new(1), Millis::new(1)) else {
            unreachable!()
        };
        Queued {
            op: Op {
                call,
                task: Task::monitor(Check::plain()),
                timeout,
            },
        }
    }
}

/// The queue of these actions, in order.
pub(crate) fn queue_of(ops: &[Op]) -> ArrayVec<Queued, { QUEUE_LIMIT }>
    requires { length ops.now ≤ QUEUE_LIMIT }
    ensures { result.items ≡ ops.now }
{
    let mut queue = ArrayVec::new();
    for op in ops {
        queue.push(Queued::new(*op));
    }
    queue
}
