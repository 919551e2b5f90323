//! The codes of outcomes, and their names.
ghost use Rattle.std.specs.Prelude.{◌≡◌};
ghost use Rattle.ocf_types.specs.Outcomes.{outcome_code};
ghost use Rattle.ocf_codes.specs.ExitCodes.{name_read};

use crate::exit_code::{name, read_code};
use ocf_types::Outcome;

/// The exit code of an outcome: the agent's own if it exited. If no process was spawned, it is OCF_ERR_INSTALLED for a missing
/// file and OCF_ERR_PERM for one that may not be executed; every other outcome is OCF_ERR_GENERIC. OCF Resource Agent API 1.1,
/// exit codes.
pub fn code_of(outcome: Outcome) -> u8
    ensures { result ≡ outcome_code outcome }
{
    outcome.row().code
}

/// The name of the exit code of an outcome.
pub fn name_of(outcome: Outcome) -> &'static str
    ensures { result.now ≡ name_read (outcome_code outcome) }
{
    name(read_code(code_of(outcome)))
}
