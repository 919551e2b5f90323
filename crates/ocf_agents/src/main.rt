//! The OCF resource agents `Dummy` and `Stateful`, each of which keeps a state file and nothing else. One program is both:
//! `OCF_RESOURCE_TYPE` names the agent, and the last argument its action.
#![tactic(auto)]

ghost use Rattle.std.specs.Prelude.{◌≡◌, ℕ};
ghost use Rattle.ocf_codes.specs.ExitCodes.{code_read};

mod agent;
mod call;
mod laws;
mod run;
mod state_file;
mod table;

use ocf_codes::Code;
use std::process::ExitCode;

fn main(rt: HostRuntime) -> ExitCode {
    ExitCode::from(number_of(run::run(&rt)))
}

// The exit status of a code. OCF Resource Agent API 1.1, exit codes.
fn number_of(code: Code) -> u8
    ensures { (n : ℕ) → code ≡ code_read n → result ≡ n }
{
    match code {
        Code::Success => 0,
        Code::Generic => 1,
        Code::Args => 2,
        Code::Unimplemented => 3,
        Code::Perm => 4,
        Code::Installed => 5,
        Code::Configured => 6,
        Code::NotRunning => 7,
        Code::RunningPromoted => 8,
        Code::FailedPromoted => 9,
        Code::Degraded => 190,
        Code::DegradedPromoted => 191,
        Code::Other(number) => number,
    }
}
