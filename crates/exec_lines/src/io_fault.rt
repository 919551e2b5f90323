//! Why a session ends before its input does.
ghost use Rattle.std.specs.Prelude.{◌≡◌};
ghost use Rattle.exec_lines.specs.declared.io_fault.IoFault.TheVariants.{InputOrOutput, Memory};

use growth::{Grows, Refused};
use std::io;

/// Why a session ends before its input does.
#[derive(Drop)]
pub enum IoFault {
    /// Standard input or output failed, or nobody reads what is written.
    InputOrOutput,
    /// Memory for a reply or a notice was refused.
    Memory,
}

impl From<io::Error> for IoFault {
    ghost from_gives = { λ _ stopped. stopped ≡ InputOrOutput };

    fn from(_: io::Error) -> IoFault {
        IoFault::InputOrOutput
    }
}

impl<A: Grows> From<Refused<A>> for IoFault {
    ghost from_gives = { λ _ stopped. stopped ≡ Memory };

    fn from(_: Refused<A>) -> IoFault {
        IoFault::Memory
    }
}
