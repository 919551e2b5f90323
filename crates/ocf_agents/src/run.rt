//! From the arguments and the environment to an exit code.
ghost use Rattle.std.specs.Prelude.{◌≡◌, ◌⊎◌, IfOk};
ghost use Rattle.ocf_agents.specs.declared.table.Held.{Held};
ghost use Rattle.ocf_agents.specs.Table.{code_for};

use crate::agent::Agent;
use crate::call::{Call, read_call};
use crate::state_file::{carry_out, look};
use crate::table::{asks_role, code_for, deed_for};
use ocf_codes::Code;
use ocf_types::Action;
use std::env::{self, VarError};
use std::io::{self, ErrorKind};
use std::rt::{Env, Files};

/// Does what the last argument and the environment ask for, and returns the exit code: OCF_ERR_GENERIC if a system call fails.
pub fn run<R: Env + Files + Print + AllocGlobal>(rt: &R) -> Code {
    match answer(rt) {
        Ok(code) | Err(code) => code,
    }
}

// The exit code, as an error if the arguments ask for no call.
fn answer<R: Env + Files + Print + AllocGlobal>(rt: &R) -> Result<Code, Code> {
    let word = last_word(rt)?;
    let kind = variable(rt, "OCF_RESOURCE_TYPE")?;
    let state = variable(rt, "OCF_RESKEY_state")?;
    let call = read_call(
        word.as_ref().map(|text| text.as_str()),
        kind.as_ref().map(|text| text.as_str()),
        state.as_ref().map(|text| text.as_str()),
    )?;
    Ok(match call {
        Call::Metadata(agent) => code_of(Code::Success, rt.println(agent.metadata())),
        Call::Act(agent, action, path) => act(rt, agent, action, path),
    })
}

// The last argument after the program's name: OCF_ERR_ARGS if the arguments are not UTF-8.
fn last_word<R: Env + AllocGlobal>(rt: &R) -> Result<Option<String>, Code> {
    match env::args(rt) {
        Ok(words) => Ok(words.skip(1).last()),
        Err(error) if error.kind() == ErrorKind::InvalidData => Err(Code::Args),
        Err(_) => Err(Code::Generic),
    }
}

// A variable of the environment: `None` also if it is not UTF-8, since it then names no agent and no file.
fn variable<R: Env + AllocGlobal>(rt: &R, name: &str) -> Result<Option<String>, Code> {
    match env::var(rt, name) {
        Ok(text) => Ok(Some(text)),
        Err(VarError::NotPresent | VarError::NotUnicode) => Ok(None),
        Err(VarError::OutOfMemory) => Err(Code::Generic),
    }
}

fn code_of(code: Code, done: io::Result<()>) -> Code {
    match done {
        Ok(()) => code,
        Err(_) => Code::Generic,
    }
}

/// Runs an action on a state file, and returns its exit code: that for the content of the file, or OCF_ERR_GENERIC if a call on the
/// file failed.
pub fn act<R: Files + AllocGlobal>(rt: &R, agent: Agent, action: Action, path: &str) -> Code
    ensures { (result ≡ Code.Generic) ⊎ ((held : Held) × (result ≡ code_for agent action held)) }
{
    match try_act(rt, agent, action, path) {
        Ok(code) => code,
        Err(_) => Code::Generic,
    }
}

fn try_act<R: Files + AllocGlobal>(
    rt: &R,
    agent: Agent,
    action: Action,
    path: &str,
) -> io::Result<Code>
    ensures { IfOk result (λ code. (held : Held) × (code ≡ code_for agent action held)) }
{
    let held = look(rt, path, asks_role(agent, action))?;
    carry_out(rt, path, deed_for(agent, action, held))?;
    Ok(code_for(agent, action, held))
}
