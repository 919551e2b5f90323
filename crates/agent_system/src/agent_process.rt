//! The process of an agent.
ghost use Rattle.std.specs.Prelude.{◌≡◌};

use ocf_types::{RscId, RunId};

/// The process of an agent: whose it is, and which.
#[derive(Drop)]
pub struct AgentProcess {
    /// The run of its action.
    pub run: RunId,
    /// The resource.
    pub id: RscId,
    /// Its number. Its process group has the same, if it leads one. POSIX, setsid.
    pub pid: u32,
    /// When it started, in clock ticks after the system's boot; `None` where that could not be read. Linux, proc(5), stat, field 22.
    pub start: Option<u64>,
}

impl AgentProcess {
    /// A copy. It takes no memory.
    pub fn copied(&self) -> AgentProcess
        ensures { result ≡ self.now }
    {
        AgentProcess {
            run: self.run,
            id: self.id.copied(),
            pid: self.pid,
            start: self.start,
        }
    }
}

/// The run and the resource that an agent's process stands for.
#[derive(Drop)]
pub struct Whose {
    pub run: RunId,
    pub id: RscId,
}
