//! Reads the lines of a `serve` session, in which no key may occur twice.
ghost use Rattle.std.specs.Prelude.{◌≡◌, true, false, None, Some, Ok, IfOk, IfErr, IsTrue};
ghost use Rattle.serde_json.specs.View.{view};
ghost use Rattle.ocf_model.specs.declared.refusal.Refusal.TheVariants.{Memory};
ghost use Rattle.exec_commands.specs.Lines.{value_of};
ghost use Rattle.exec_commands.specs.Served.{IsServedAs, line_in, served_line};
ghost use Rattle.exec_commands.specs.Tags.{IsTaggedAs, tag_of};
ghost use Rattle.exec_commands.specs.Twice.{HasKeyTwice};

use crate::counts::has_key_twice;
use crate::line::{Line, Served};
use crate::read::value_of;
use crate::refused::About;
use crate::served::{refused_line, served_line};
use crate::tag::tag_of;
use growth::{Grows, Refused};
use json::{Error, Scratch, Value};
use ocf_model::Refusal;
use std::alloc::Global;
use std::str;

// Whether a line that is no value here is a JSON text in which an object has a key twice.
#[tactic(auto, using(growth::specs::Refused::refuses))]
fn text_has_key_twice(alloc: Global, bytes: &[u8]) -> Result<bool, Refused>
    ensures yes { result ≡ Ok true → HasKeyTwice bytes.now }
    ensures no { result ≡ Ok false → ¬ (HasKeyTwice bytes.now) }
{
    let Ok(text) = str::from_utf8(bytes) else {
        return Ok(false);
    };
    let mut scratch = Scratch::new(alloc);
    match Value::parse_strict(alloc, text, &mut scratch) {
        Ok(_) | Err(Error::Invalid | Error::TooLong) => Ok(false),
        Err(Error::DuplicateKey) => Ok(true),
        // TRUSTED: it is lack of memory only where the memory that the value takes is refused.
        Err(Error::OutOfMemory) => Err(Refused::known()),
    }
}

// Whether an object has a key twice in the line with this value.
fn value_has_key_twice(bytes: &[u8], value: &serde_json::Value) -> bool
    requires { value_of bytes.now ≡ Some (view value.now) }
    ensures yes { result ≡ true → HasKeyTwice bytes.now }
    ensures no { result ≡ false → ¬ (HasKeyTwice bytes.now) }
{
    has_key_twice(bytes, value)
}

// A line that has no tag.
fn untagged(line: Line) -> Served
    ensures line { result.line ≡ line }
    ensures tag { result.tag ≡ None }
{
    Served { line, tag: None }
}

// The line of a value in which no key occurs twice.
fn served_value(alloc: Global, value: &serde_json::Value) -> Result<Served, Refused>
    ensures line { IfOk result (λ s. s.line ≡ served_line (view value.now)) }
    ensures tag { IfOk result (λ s. s.tag ≡ tag_of (view value.now)) }
{
    let line = served_line(alloc, value)?;
    let tag = tag_of(value);
    Ok(Served { line, tag })
}

// The line of bytes without a value. A key may occur twice in JSON that is nested too deep, or has too great a number.
fn served_unread(alloc: Global, bytes: &[u8]) -> Result<Served, Refused>
    requires { value_of bytes.now ≡ None }
    ensures served { IfOk result (λ s. IsServedAs bytes.now (Ok s.line)) }
    ensures tag { IfOk result (λ s. IsTaggedAs bytes.now s.tag) }
{
    if text_has_key_twice(alloc, bytes)? {
        return Ok(untagged(refused_line(Refusal::Syntax, About::Twice)));
    }
    Ok(untagged(refused_line(Refusal::Syntax, About::Whole)))
}

// The line of these bytes, in which a key may occur twice.
fn line_of_bytes(alloc: Global, bytes: &[u8]) -> Result<Served, Refused>
    ensures served { IfOk result (λ s. IsServedAs bytes.now (Ok s.line)) }
    ensures tag { IfOk result (λ s. IsTaggedAs bytes.now s.tag) }
{
    match value_of(alloc, bytes) {
        Ok(value) => {
            if value_has_key_twice(bytes, &value) {
                return Ok(untagged(refused_line(Refusal::Syntax, About::Twice)));
            }
            served_value(alloc, &value)
        }
        Err(Refusal::Memory) => Err(Refused::known()),
        Err(_) => served_unread(alloc, bytes),
    }
}

/// Reads a line of a `serve` session: its request, or why it is refused and for which key. It may ask the session to end. A request
/// for metadata has 30,000 milliseconds if it names no limit. A line is refused if an object in it has a key twice, or if it has a
/// key that its operation does not have. The tag is also returned for a refused line, unless a key occurs twice in it. Fails only if
/// the allocator refused memory.
pub fn read_strictly(alloc: Global, bytes: &[u8]) -> Result<Served, Refusal>
    ensures served { IsServedAs bytes.now (line_in result) }
    ensures tag { IfOk result (λ s. IsTaggedAs bytes.now s.tag) }
    ensures memory { IfErr result (λ e. (e ≡ Memory) × IsTrue ⟦<Global as Grows>⟧.refuses) }
{
    match line_of_bytes(alloc, bytes) {
        Ok(served) => Ok(served),
        Err(_) => Err(Refusal::Memory),
    }
}
