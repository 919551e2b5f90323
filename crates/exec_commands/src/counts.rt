//! Counts of keys: a JSON text has a colon outside its strings for each, and a value has a member for each that differs.
ghost use Rattle.std.specs.Prelude.{◌≡◌, ◌+◌, ◌<◌, ◌&&◌, ◌==◌, true, false, IsSomeAnd, MatchOption};
ghost use Rattle.json.specs.Json.{document};
ghost use Rattle.json.specs.Lex.{class, between, lex};
ghost use Rattle.json.specs.Strict.{HasUniqueKeys};
ghost use Rattle.serde_json.specs.Read.{read};
ghost use Rattle.serde_json.specs.View.{view, items_view, members_view};
ghost use Rattle.exec_commands.specs.KeyCounts.{colons, is_outside, mode_of, next_mode, members_in, members_in_items, members_in_members};

use serde_json::{Map, Value};

// Where a byte of a text stands.
#[derive(Clone, Copy, Drop)]
enum Place {
    Between,
    Word,
    String,
    Escape,
}

// Where the byte after this one stands.
fn after(place: Place, byte: u8) -> Place
    ensures { mode_of result ≡ next_mode (mode_of place) (class byte) }
{
    match (place, byte) {
        (Place::Escape, _) => Place::String,
        (Place::String, b'"') => Place::Between,
        (Place::String, b'\\') => Place::Escape,
        (Place::String, _) => Place::String,
        (Place::Between, b'"') => Place::String,
        (_, b'{' | b'}' | b'[' | b']' | b':' | b',') => Place::Between,
        (_, b' ' | b'\t' | b'\n' | b'\r') => Place::Between,
        (_, _) => Place::Word,
    }
}

// Whether a byte is a colon outside strings.
fn is_colon(place: Place, byte: u8) -> bool
    ensures { result ≡ is_outside (mode_of place) && (byte == 58) }
{
    matches!(place, Place::Between | Place::Word) && byte == b':'
}

// The colons outside strings.
fn colons_in(text: &[u8]) -> usize
    ensures { result ≡ colons (lex between text.now) }
{
    let mut place = Place::Between;
    let mut colons = 0;
    for &byte in text {
        if is_colon(place, byte) {
            colons += 1;
        }
        place = after(place, byte);
    }
    colons
}

// What is left of these keys if each member of a value takes one; `None` if they are too few.
#[cycle(keys_left)]
fn keys_left(keys: usize, value: &Value) -> Option<usize>
    ensures { MatchOption result (keys < members_in (view value.now))
        (λ left. left + members_in (view value.now) ≡ keys) }
{
    match value {
        Value::Array(items) => left_by_items(keys, items),
        Value::Object(members) => left_by_members(keys, members),
        _ => Some(keys),
    }
}

#[cycle(keys_left)]
fn left_by_items(keys: usize, items: &Vec<Value>) -> Option<usize>
    ensures { MatchOption result (keys < members_in_items (items_view items.now.items))
        (λ left. left + members_in_items (items_view items.now.items) ≡ keys) }
{
    let mut left = keys;
    for item in items {
        left = keys_left(left, item)?;
    }
    Some(left)
}

#[cycle(keys_left)]
fn left_by_members(keys: usize, members: &Map<String, Value>) -> Option<usize>
    ensures { MatchOption result (keys < members_in_members (members_view members.now.entries))
        (λ left. left + members_in_members (members_view members.now.entries) ≡ keys) }
{
    let mut left = keys;
    for (_key, member) in members.iter() {
        left = keys_left(left.checked_sub(1)?, member)?;
    }
    Some(left)
}

/// Whether an object of a JSON text has a key twice, at whatever depth, after unescaping. The value is what was read of the text, and
/// keeps one member of each key of an object. It allocates nothing.
pub fn has_key_twice(text: &[u8], value: &Value) -> bool
    requires { read text.now ≡ Some (view value.now) }
    ensures yes { result ≡ true → IsSomeAnd (document text.now) (λ j. ¬ (HasUniqueKeys j)) }
    ensures no { result ≡ false → IsSomeAnd (document text.now) HasUniqueKeys }
{
    match keys_left(colons_in(text), value) {
        Some(left) => left > 0,
        None => true,
    }
}
