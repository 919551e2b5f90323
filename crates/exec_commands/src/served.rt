//! Reads the JSON value of a line of a `serve` session.
ghost use Rattle.std.specs.Prelude.{◌≡◌, ◌≢◌, Ok, Err, IfOk, IfErr, IsTrue};
ghost use Rattle.serde_json.specs.View.{view};
ghost use Rattle.ocf_model.specs.declared.refusal.Refusal.TheVariants.{Memory};
ghost use Rattle.exec_commands.specs.Lines.{served_line_of, served_meta_in};
ghost use Rattle.exec_commands.specs.Served.{known_line, refused_line, served_line, tagged_line};

use crate::blame::{about_line, unknown_key};
use crate::key::Key;
use crate::keys::{number_or, text_at};
use crate::line::Line;
use crate::read::line_of;
use crate::refused::{About, LineRefusal};
use crate::tag::is_mistagged;
use crate::values::{agent_type, limit, provider};
use growth::{Grows, Refused, text_of};
use ocf_env::Text;
use ocf_model::Refusal;
use serde_json::Value;
use std::alloc::Global;

// There is always a limit: turns go on while the agent runs.
fn served_meta_in(line: &Value) -> Result<Line, Refusal>
    ensures value { result ≡ served_meta_in (view line.now) }
    ensures memory { IfErr result (λ e. e ≢ Memory) }
{
    let provider_text = text_at(line, "provider")?;
    let agent_text = text_at(line, "type")?;
    let number = number_or(line, "limit", 30_000)?;
    let provider = provider(provider_text)?;
    let agent = agent_type(agent_text)?;
    let limit = Some(limit(number)?);
    Ok(Line::Meta {
        provider,
        agent,
        limit,
    })
}

fn served_line_of(alloc: Global, value: &Value) -> Result<Line, Refusal>
    ensures ok { IfOk result (λ l. served_line_of (view value.now) ≡ Ok l) }
    ensures err { IfErr result (λ e. e ≢ Memory → served_line_of (view value.now) ≡ Err e) }
    ensures memory { IfErr result (λ e. e ≡ Memory → IsTrue ⟦<Global as Grows>⟧.refuses) }
{
    match text_at(value, "op")? {
        "leave" => Ok(Line::Leave),
        "version" => Ok(Line::Version),
        "status" => Ok(Line::Status),
        "meta" => served_meta_in(value),
        _ => line_of(alloc, value),
    }
}

/// A line that is refused.
pub fn refused_line(why: Refusal, about: About) -> Line
    ensures { result ≡ refused_line why about }
{
    Line::Refused(LineRefusal { why, about })
}

// This line, or its refusal if its key `tag` holds no tag.
fn tagged_line(value: &Value, line: Line) -> Line
    ensures { result ≡ tagged_line (view value.now) line }
{
    if is_mistagged(value) {
        return refused_line(Refusal::BadValue, About::Key(Key::Tag));
    }
    line
}

// The same, or the refusal of a key that its operation does not have.
fn known_line(alloc: Global, value: &Value, line: Line) -> Result<Line, Refused>
    ensures line { IfOk result (λ l. l ≡ known_line (view value.now) line) }
{
    match unknown_key(value) {
        Some(name) => {
            let name = Text::new(text_of(alloc, name)?);
            Ok(refused_line(Refusal::BadValue, About::Unknown(name)))
        }
        None => Ok(tagged_line(value, line)),
    }
}

/// The line of a JSON value.
pub fn served_line(alloc: Global, value: &Value) -> Result<Line, Refused>
    ensures line { IfOk result (λ l. l ≡ served_line (view value.now)) }
{
    match served_line_of(alloc, value) {
        Ok(line) => known_line(alloc, value, line),
        Err(Refusal::Memory) => Err(Refused::known()),
        Err(why) => Ok(refused_line(why, about_line(alloc, why, value)?)),
    }
}
