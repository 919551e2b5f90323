//! The input that a session has read and not answered yet.
ghost use Rattle.std.specs.Prelude.{IfOk};
ghost use Rattle.exec_session.specs.Pending.{IsClear};

use crate::gathered::Gathered;
use crate::held::Held;
use exec_lines::LineBuffer;
use growth::Refused;
use std::alloc::Global;
use std::marker::Model;

/// The input that a session has read and not answered yet.
#[derive(Drop)]
pub struct Pending {
    /// The part of the next line that was read; empty while a line is held.
    pub buffer: LineBuffer,
    /// The commands before it.
    pub gathered: Gathered,
    /// The line after those commands, if one is held.
    pub held: Option<Held>,
}

impl Pending {
    // Empty. Reserves all memory that is needed later.
    fn new(alloc: Global) -> Result<Pending, Refused>
        ensures clear { IfOk result IsClear }
    {
        let buffer = LineBuffer::new(alloc)?;
        let gathered = Gathered::new(alloc)?;
        Ok(Pending {
            buffer,
            gathered,
            held: None,
        })
    }
}

/// Empty buffers for the lines of a session. They are made before the opening, so that no memory is refused after it.
#[derive(Drop)]
pub struct LineRoom {
    pending: Pending,
}

impl Model for LineRoom {
    ghost use Rattle.exec_session.specs.Pending.{IsClear};
    ghost use Rattle.exec_session.specs.declared.pending.Pending.{Pending};

    ghost Value = { Pending };

    ghost view = { λ r. r.pending };

    ghost invariant = { λ r. IsClear r.pending };
}

impl LineRoom {
    /// Reserves all memory that the lines of a session need.
    pub fn new(alloc: Global) -> Result<LineRoom, Refused> {
        let pending = Pending::new(alloc)?;
        Ok(LineRoom { pending })
    }

    /// The input of a session that begins: empty.
    pub(crate) fn into_pending(self) -> Pending
        ensures { IsClear result }
    {
        let LineRoom { pending } = self;
        pending
    }
}
