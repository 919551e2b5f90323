//! Lines that are held: turns go on, and no further line is read, until such a line can be answered.
ghost use Rattle.std.specs.Prelude.{◌≡◌, Ok, IfErr, IfOk};
ghost use Rattle.exec_session.specs.Held.{MayAnswerAtOnce, asks};

use exec_commands::Line;
use ocf_model::Refusal;
use ocf_types::{AgentType, Provider};
use session_machine::Mode;

/// A line that is not answered as soon as it is read.
#[derive(Drop)]
pub enum Held {
    /// It asks for an agent's metadata, which may take this many milliseconds; without a limit, as long as it needs.
    Metadata {
        provider: Provider,
        agent: AgentType,
        limit: Option<u32>,
    },
    /// It asks for the orderly end of the session.
    Leave,
}

/// The line, if the session holds it in this mode; any other is given back.
pub fn held_in(mode: Mode, line: Result<Line, Refusal>) -> Result<Held, Result<Line, Refusal>>
    ensures held { IfOk result (λ held. line ≡ Ok (asks held)) }
    ensures serves { IfOk result (λ _. mode ≡ Mode.Serve) }
    ensures same { IfErr result (λ other. other ≡ line) }
    ensures at_once { IfErr result (λ other. MayAnswerAtOnce mode other) }
{
    if mode == Mode::Run {
        return Err(line);
    }
    match line {
        Ok(
            Line::Meta {
                provider,
                agent,
                limit,
            },
        ) => Ok(Held::Metadata {
            provider,
            agent,
            limit,
        }),
        Ok(Line::Leave) => Ok(Held::Leave),
        Ok(line) => Err(Ok(line)),
        Err(refusal) => Err(Err(refusal)),
    }
}
