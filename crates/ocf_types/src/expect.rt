//! Exit codes that a monitor is expected to end with.
ghost use Rattle.std.specs.Prelude.{◌≡◌, ◌≢◌, IfSome, IfNone};
ghost use Rattle.ocf_types.specs.Expected.{expect_code, expect_of_code};
ghost use Rattle.ocf_types.specs.declared.expect.Expect.{Expect};

/// The finding that is expected of a monitor. OCF Resource Agent API 1.1, exit codes.
#[derive(Clone, Copy, PartialEq, Eq)]
pub enum Expect {
    /// 0, OCF_SUCCESS: it runs.
    Success,
    /// 7, OCF_NOT_RUNNING: it is cleanly stopped.
    NotRunning,
    /// 8, OCF_RUNNING_PROMOTED: it runs in the promoted role.
    RunningPromoted,
}

impl Expect {
    /// The expectation of this exit code; `None` for every code except 0, 7 and 8.
    pub fn from_code(code: u64) -> Option<Expect>
        ensures value { result ≡ expect_of_code code }
        ensures found { IfSome result (λ expect. code ≡ expect_code expect) }
        ensures none { IfNone result ((expect : Expect) → code ≢ expect_code expect) }
    {
        match code {
            0 => Some(Expect::Success),
            7 => Some(Expect::NotRunning),
            8 => Some(Expect::RunningPromoted),
            _ => None,
        }
    }

    /// The exit code: 0, 7 or 8.
    pub fn code(self) -> u8
        ensures { result ≡ expect_code self }
    {
        match self {
            Expect::Success => 0,
            Expect::NotRunning => 7,
            Expect::RunningPromoted => 8,
        }
    }
}
