//! The reasons that agents give for failures.
ghost use Rattle.std.specs.Prelude.{◌<◌, length};

use crate::message::Message;
use exec_state::State;
use growth::push;
use ocf_codes::is_failure;
use ocf_env::Text;
use ocf_model::StateView;
use ocf_types::RscId;
use resource_status::RunReason;
use std::alloc::Global;

/// A run that failed.
#[derive(Clone, Copy)]
pub struct FailedRun<'a> {
    /// The resource of its action.
    pub id: &'a RscId,
    /// The run number; 0 if it never began.
    pub run: u64,
    /// The oldest run that has not ended by now.
    pub oldest: Option<u64>,
}

/// The reasons that agents give for failures.
pub trait Reasons {
    /// The last reason that the agent gave in this run, if it is known.
    fn reason_of(&self, failed: &FailedRun) -> Option<Text>;
}

/// No reasons.
#[derive(Clone, Copy)]
pub struct NoReasons;

impl Reasons for NoReasons {
    fn reason_of(&self, _: &FailedRun) -> Option<Text> {
        None
    }
}

// The oldest run that has not ended, by this state.
fn oldest_run(state: &State) -> Option<u64> {
    let mut oldest: Option<u64> = None;
    for index in 0..state.len() {
        if let Some(running) = state.running_at(index) {
            let run = running.run.get();
            oldest = Some(oldest.unwrap_or(run).min(run));
        }
    }
    oldest
}

/// The reasons of a source, for an executor in this state.
#[derive(Clone, Copy)]
pub(crate) struct Asking<'a, R> {
    alloc: Global,
    source: &'a R,
    state: &'a State,
    oldest: Option<u64>,
}

impl<'a, R: Reasons> Asking<'a, R> {
    pub(crate) fn new(alloc: Global, source: &'a R, state: &'a State) -> Asking<'a, R> {
        Asking {
            alloc,
            source,
            state,
            oldest: oldest_run(state),
        }
    }

    // Adds the reason for the failure of a run, if it is known. One for which memory is refused is left out.
    fn add(&self, reasons: &mut Vec<RunReason>, id: &RscId, run: u64) {
        let failed = FailedRun {
            id,
            run,
            oldest: self.oldest,
        };
        if let Some(text) = self.source.reason_of(&failed) {
            let _pushed = push(reasons, RunReason { run, text });
        }
    }

    // Adds the reason for the last failure of a resource, if it has one and the reason is known.
    fn add_last(&self, reasons: &mut Vec<RunReason>, index: usize)
        requires { index < length self.now.state.now.state.resources }
    {
        if let Some(failed) = self.state.failed_at(index) {
            self.add(reasons, self.state.id_at(index), failed.run);
        }
    }

    /// The reasons of the failures that a message reports, as far as they are known.
    pub(crate) fn of_message(&self, what: &Message) -> Vec<RunReason> {
        let mut reasons = Vec::new(self.alloc);
        let Message::Notices(turn) = what else {
            return reasons;
        };
        for notice in turn.notices {
            if is_failure(notice) {
                self.add(&mut reasons, &notice.id, notice.result.run);
            }
        }
        reasons
    }

    /// The reasons of the last failures of all resources, as far as they are known.
    pub(crate) fn of_resources(&self) -> Vec<RunReason> {
        let mut reasons = Vec::new(self.alloc);
        for index in 0..self.state.len() {
            self.add_last(&mut reasons, index);
        }
        reasons
    }
}
