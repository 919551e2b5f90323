//! The end of an action that was run once.
ghost use Rattle.std.specs.Prelude.{◌≡◌, ◌<◌, IfNone, Some, pos, unwrap_or};
ghost use Rattle.agent_metadata.specs.Asking.{IsAlone, OnlyPolls};
ghost use Rattle.agent_system.specs.Ends.{signal_of};
ghost use Rattle.exec_once.specs.Ends.{EndsAs, IsLeft, ReportsStatus, once_status};
ghost use Rattle.exec_once.specs.declared.ending.OnceEnd.TheVariants.{TimedOut};

use agent_system::AgentSystem;
use std::os::unix::process::ExitStatusExt;
use std::process::ExitStatus;

/// How an action ended that was run once.
#[derive(Clone, Copy)]
pub enum OnceEnd {
    /// Its agent exited with this code.
    Exited(u8),
    /// This signal ended its agent.
    Signaled(u8),
    /// Its timeout passed before it ended.
    TimedOut,
    /// The system did not report how it ended.
    Lost,
    /// Its agent was not spawned.
    NotStarted,
}

impl OnceEnd {
    /// The exit status that reports it, as timeout(1) and a shell do.
    pub fn status(self) -> u8
        ensures { result ≡ once_status self }
    {
        match self {
            OnceEnd::Exited(code) => code,
            OnceEnd::Signaled(signal) => 128 + signal % 128,
            OnceEnd::TimedOut => 124,
            OnceEnd::Lost | OnceEnd::NotStarted => 125,
        }
    }
}

// The number of the signal that ended an agent, 0 where the system names none.
fn signal_of(status: ExitStatus) -> u8
    ensures { pos result ≡ signal_of status }
{
    (status.signal().unwrap_or(0).cast_unsigned() % 256) as u8
}

// How an agent ended, by the status that the system reports.
fn end_of(status: ExitStatus) -> OnceEnd
    ensures { ReportsStatus status result }
{
    match status.code() {
        Some(code) => OnceEnd::Exited((code.cast_unsigned() % 256) as u8),
        None => OnceEnd::Signaled(signal_of(status)),
    }
}

/// How an agent that has this many milliseconds left has ended: `None` if it is to be polled again.
pub fn end_now<R: AgentSystem>(rt: &mut R, child: &mut R::Child, left: u32) -> Option<OnceEnd>
    requires alone { IsAlone (R.view rt.old).sights (R.process_of child.old) }
    ensures same { R.process_of child.new ≡ R.process_of child.old }
    ensures polls { OnlyPolls (R.view rt.old) (R.view rt.new) }
    ensures ended { EndsAs (R.view rt.new) (R.process_of child.new) (unwrap_or result TimedOut) }
    ensures left { IsLeft (R.view rt.new) (R.process_of child.new) (unwrap_or result TimedOut) }
    ensures timeout { result ≡ Some TimedOut → left ≡ 0 }
    ensures none { IfNone result (0 < left) }
{
    match rt.poll(child) {
        Ok(Some(status)) => Some(end_of(status)),
        Ok(None) if left > 0 => None,
        Ok(None) => Some(OnceEnd::TimedOut),
        Err(_) => Some(OnceEnd::Lost),
    }
}
