//! Which key of a refused line is at fault.
ghost use Rattle.std.specs.Prelude.{◌≡◌, false, true, option_and_then, option_map, codes, IfOk};
ghost use Rattle.std.specs.Option.{option_map_or};
ghost use Rattle.ocf_types.specs.Names.{is_provider, is_rsc_id};
ghost use Rattle.serde_json.specs.Find.{as_str, get};
ghost use Rattle.serde_json.specs.View.{members_view, view};
ghost use Rattle.exec_commands.specs.Blame.{about_line, about_operation, is_action, is_at_fault, is_between, is_expect, is_level, is_misnamed, is_mistyped};
ghost use Rattle.exec_commands.specs.Blame.{is_of_monitor, is_outside, key_at_fault, unknown_in, unknown_key};
ghost use Rattle.exec_commands.specs.Tags.{tag_in};

use crate::key::Key;
use crate::range::Range;
use crate::refused::About;
use crate::rules::{KeyRule, is_known, rules_in};
use crate::tag::{Tag, tag_in};
use crate::values::{provider, rsc_id};
use growth::{Refused, text_of};
use ocf_env::Text;
use ocf_model::Refusal;
use ocf_types::{Action, Expect, Level};
use serde_json::{Map, Value};
use std::alloc::Global;

fn is_mistyped(range: Range, found: &Value) -> bool
    ensures { result ≡ is_mistyped range (view found.now) }
{
    match range {
        Range::Number { .. } | Range::Level | Range::Expect => found.as_u64().is_none(),
        Range::Params => true,
        Range::Operation | Range::Id | Range::Name | Range::Action => found.as_str().is_none(),
        Range::Tag => false,
    }
}

fn is_id(found: &Value) -> bool
    ensures { result ≡ option_map_or is_rsc_id (as_str (view found.now)) false }
{
    match found.as_str() {
        Some(text) => rsc_id(text).is_ok(),
        None => false,
    }
}

fn is_name(found: &Value) -> bool
    ensures { result ≡ option_map_or is_provider (as_str (view found.now)) false }
{
    match found.as_str() {
        Some(text) => provider(text).is_ok(),
        None => false,
    }
}

fn is_misnamed(range: Range, found: &Value) -> bool
    ensures { result ≡ is_misnamed range (view found.now) }
{
    match range {
        Range::Id => !is_id(found),
        Range::Name => !is_name(found),
        Range::Params => true,
        _ => false,
    }
}

fn is_action(found: &Value) -> bool
    ensures { result ≡ is_action (view found.now) }
{
    match found.as_str() {
        Some(word) => Action::named(word).is_some(),
        None => false,
    }
}

fn is_between(from: u64, to: u64, found: &Value) -> bool
    ensures { result ≡ is_between from to (view found.now) }
{
    match found.as_u64() {
        Some(number) => from <= number && number <= to,
        None => false,
    }
}

// Whether the line names no action other than a monitor.
fn is_of_monitor(line: &Value) -> bool
    ensures { result ≡ is_of_monitor (view line.now) }
{
    match line.get("action") {
        Some(found) => match found.as_str() {
            Some(word) => word == "monitor",
            None => false,
        },
        None => true,
    }
}

fn is_level(line: &Value, found: &Value) -> bool
    ensures { result ≡ is_level (view line.now) (view found.now) }
{
    match found.as_u64() {
        Some(number) => Level::numbered(number).is_some() && (number == 0 || is_of_monitor(line)),
        None => false,
    }
}

fn is_expect(line: &Value, found: &Value) -> bool
    ensures { result ≡ is_expect (view line.now) (view found.now) }
{
    match found.as_u64() {
        Some(number) => Expect::from_code(number).is_some() && (number == 0 || is_of_monitor(line)),
        None => false,
    }
}

fn is_outside(range: Range, line: &Value, found: &Value) -> bool
    ensures { result ≡ is_outside range (view line.now) (view found.now) }
{
    match range {
        Range::Number { from, to } => !is_between(from, to, found),
        Range::Level => !is_level(line, found),
        Range::Expect => !is_expect(line, found),
        Range::Action => !is_action(found),
        Range::Params => true,
        Range::Tag => tag_in(found).is_none(),
        _ => false,
    }
}

fn is_at_fault(why: Refusal, line: &Value, rule: KeyRule) -> bool
    ensures { result ≡ is_at_fault why (view line.now) rule }
{
    let range = rule.key().range();
    match (line.get(rule.key().word()), why) {
        (Some(found), Refusal::Syntax) => is_mistyped(range, found),
        (Some(found), Refusal::BadName) => is_misnamed(range, found),
        (Some(found), Refusal::BadValue) => is_outside(range, line, found),
        (None, Refusal::Syntax) => rule.is_needed(),
        _ => false,
    }
}

fn key_at_fault(why: Refusal, rules: &[KeyRule], line: &Value) -> Option<Key>
    ensures { result ≡ key_at_fault why rules.now (view line.now) }
{
    let rule = rules.iter().find(|rule| is_at_fault(why, line, **rule))?;
    Some(rule.key())
}

// The word under `op`, if it is a text of at most 64 bytes.
fn short_word(line: &Value) -> Option<Tag>
    ensures { result ≡ option_and_then tag_in (get (codes "op") (view line.now)) }
{
    match line.get("op") {
        Some(found) => tag_in(found),
        None => None,
    }
}

// The subject of a line that names no operation: its word, if that is short.
fn about_operation(alloc: Global, line: &Value) -> Result<About, Refused>
    ensures about { IfOk result (λ a. a ≡ about_operation (view line.now)) }
{
    match short_word(line) {
        Some(word) => Ok(About::Operation(Text::new(text_of(alloc, word.as_str())?))),
        None => Ok(About::Key(Key::Op)),
    }
}

/// The subject of a line's refusal: the first key at fault for this reason, or else the whole line; the operation if it names none.
pub fn about_line(alloc: Global, why: Refusal, line: &Value) -> Result<About, Refused>
    ensures about { IfOk result (λ a. a ≡ about_line why (view line.now)) }
{
    match rules_in(line) {
        Some(rules) => match key_at_fault(why, rules, line) {
            Some(key) => Ok(About::Key(key)),
            None => Ok(About::Whole),
        },
        None => about_operation(alloc, line),
    }
}

fn unknown_in<'a>(rules: &[KeyRule], object: &'a Map<String, Value>) -> Option<&'a str>
    ensures { option_map (λ name. name.now) result
        ≡ unknown_in rules.now (members_view object.now.entries) }
{
    for (name, _member) in object.iter() {
        if !is_known(rules, name.as_str()) {
            return Some(name.as_str());
        }
    }
    None
}

/// The first key of a line that its operation does not have, if any.
pub fn unknown_key(line: &Value) -> Option<&str>
    ensures { option_map (λ name. name.now) result ≡ unknown_key (view line.now) }
{
    match (rules_in(line), line.as_object()) {
        (Some(rules), Some(object)) => unknown_in(rules, object),
        _ => None,
    }
}
