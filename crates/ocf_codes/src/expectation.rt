//! Expected exit codes, and outcomes that are failures.
ghost use Rattle.std.specs.Prelude.{◌≡◌};
ghost use Rattle.ocf_types.specs.Expected.{has_failed, is_expected};
ghost use Rattle.ocf_types.specs.Expected.{is_failure};

use ocf_types::{Action, Expect, Notice, Outcome};

/// Whether this exit code is expected of an action with this expectation. A monitor may also report the expected state as
/// degraded; every other action is to succeed. OCF Resource Agent API 1.1 and Pacemaker Administration, exit codes.
pub fn expected(action: Action, expect: Expect, code: u8) -> bool
    ensures { result ≡ is_expected action expect code }
{
    match (action, expect) {
        (Action::Monitor, Expect::Success) => matches!(code, 0 | 190),
        (Action::Monitor, Expect::NotRunning) => code == 7,
        (Action::Monitor, Expect::RunningPromoted) => matches!(code, 8 | 191),
        _ => code == 0,
    }
}

/// Whether this outcome of an action with this expectation is a failure: its exit code is not expected, or there is none. An
/// interrupted, dropped or cancelled action has not failed.
pub fn failed(action: Action, expect: Expect, outcome: Outcome) -> bool
    ensures { result ≡ has_failed action expect outcome }
{
    let row = outcome.row();
    match row.failed {
        Some(failed) => failed,
        None => !expected(action, expect, row.code),
    }
}

/// Whether the result of a notice is a failure, by what was expected of its action.
pub fn is_failure(notice: &Notice) -> bool
    ensures { result ≡ is_failure notice.now }
{
    failed(notice.result.action, notice.expect, notice.result.outcome)
}
