//! The runs, results and notices of operations.
ghost use Rattle.std.specs.Prelude.{◌≡◌};
ghost use Rattle.ocf_model.specs.Notices.{drop_notice, run_notice};
ghost use Rattle.ocf_model.specs.Resource.{run_of_op, run_of_monitor, ended_of, dropped_of, cancelled_of, failed_of};

use ocf_codes::failed;
use ocf_types::{Ended, Moment, Notice, Op, Outcome, Recur, RscId, RunId, Running, Task};

/// The run of a queued action that begins at that moment.
pub(crate) fn run_of_op(op: Op, run: RunId, at: Moment) -> Running
    ensures { result ≡ run_of_op run at op }
{
    Running {
        call: op.call,
        run,
        task: op.task,
        timeout: op.timeout,
        interval: 0,
        since: at,
    }
}

/// The run of a recurring monitor that begins at that moment.
pub(crate) fn run_of_monitor(monitor: Recur, run: RunId, at: Moment) -> Running
    ensures { result ≡ run_of_monitor run at monitor }
{
    Running {
        call: monitor.call,
        run,
        task: Task::monitor(monitor.check),
        timeout: monitor.timeout,
        interval: monitor.interval.get(),
        since: at,
    }
}

/// The result of a run that ended at that moment.
pub(crate) fn ended_of(running: Running, outcome: Outcome, at: Moment) -> Ended
    ensures { result ≡ ended_of outcome at running }
{
    Ended {
        call: running.call,
        run: running.run.get(),
        action: running.task.action(),
        interval: running.interval,
        since: running.since,
        at,
        outcome,
    }
}

/// The result of a run that ended at that moment, if it is a failure.
pub(crate) fn failed_of(running: Running, outcome: Outcome, at: Moment) -> Option<Ended>
    ensures { result ≡ failed_of outcome at running }
{
    let task = running.task;
    if !failed(task.action(), task.check().expect, outcome) {
        return None;
    }
    Some(ended_of(running, outcome, at))
}

/// The result of a queued action that is dropped at that moment: it has run number 0.
pub(crate) fn dropped_of(op: Op, at: Moment) -> Ended
    ensures { result ≡ dropped_of at op }
{
    Ended {
        call: op.call,
        run: 0,
        action: op.task.action(),
        interval: 0,
        since: at,
        at,
        outcome: Outcome::Dropped,
    }
}

/// The result of a queued action that is withdrawn at that moment: it has run number 0.
pub(crate) fn cancelled_of(op: Op, at: Moment) -> Ended
    ensures { result ≡ cancelled_of at op }
{
    Ended {
        outcome: Outcome::Cancelled,
        ..dropped_of(op, at)
    }
}

/// The notice of a resource's run that ended at that moment.
pub fn run_notice(id: RscId, running: Running, outcome: Outcome, at: Moment) -> Notice
    ensures { result ≡ run_notice id outcome at running }
{
    let check = running.task.check();
    Notice {
        id,
        result: ended_of(running, outcome, at),
        expect: check.expect,
    }
}

/// The notice of a resource's queued action that is dropped at that moment.
pub fn drop_notice(id: RscId, op: Op, at: Moment) -> Notice
    ensures { result ≡ drop_notice id at op }
{
    let check = op.task.check();
    Notice {
        id,
        result: dropped_of(op, at),
        expect: check.expect,
    }
}
