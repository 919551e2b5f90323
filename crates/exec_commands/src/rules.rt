//! Which keys the lines of an operation have.
ghost use Rattle.std.specs.Prelude.{◌≡◌, option_map};
ghost use Rattle.exec_commands.specs.Rules.{is_known, is_needed, is_of_service, is_one_of, key_in, rules_in, rules_named, rules_of};
ghost use Rattle.serde_json.specs.View.{view};

use crate::key::Key;
use crate::operation::{Operation, operation_named};
use serde_json::Value;

/// A key of an operation's lines, besides `op` and `tag`.
#[derive(Clone, Copy)]
pub enum KeyRule {
    /// It is required.
    Needed(Key),
    /// It is optional.
    Free(Key),
}

impl KeyRule {
    /// The key.
    pub fn key(self) -> Key
        ensures { result ≡ key_in self }
    {
        match self {
            KeyRule::Needed(key) | KeyRule::Free(key) => key,
        }
    }

    /// Whether it is required.
    pub fn is_needed(self) -> bool
        ensures { result ≡ is_needed self }
    {
        match self {
            KeyRule::Needed(_) => true,
            KeyRule::Free(_) => false,
        }
    }
}

const REGISTER: &[KeyRule] = &[
    KeyRule::Needed(Key::Id),
    KeyRule::Needed(Key::Provider),
    KeyRule::Needed(Key::Type),
    KeyRule::Free(Key::Params),
];

const EXEC: &[KeyRule] = &[
    KeyRule::Needed(Key::Id),
    KeyRule::Needed(Key::Action),
    KeyRule::Free(Key::Timeout),
    KeyRule::Free(Key::Level),
    KeyRule::Free(Key::Expect),
];

const RECUR: &[KeyRule] = &[
    KeyRule::Needed(Key::Id),
    KeyRule::Needed(Key::Interval),
    KeyRule::Free(Key::Timeout),
    KeyRule::Free(Key::Level),
    KeyRule::Free(Key::Expect),
];

const META: &[KeyRule] = &[
    KeyRule::Needed(Key::Provider),
    KeyRule::Needed(Key::Type),
    KeyRule::Free(Key::Limit),
];

fn rules_of(operation: Operation) -> &'static [KeyRule]
    ensures { result.now ≡ rules_of operation }
{
    match operation {
        Operation::Register => REGISTER,
        Operation::Unregister | Operation::Forget | Operation::Info | Operation::History => {
            &[KeyRule::Needed(Key::Id)]
        }
        Operation::SetParams => &[KeyRule::Needed(Key::Id), KeyRule::Needed(Key::Params)],
        Operation::Exec => EXEC,
        Operation::Recur => RECUR,
        Operation::Cancel => &[KeyRule::Needed(Key::Id), KeyRule::Needed(Key::Interval)],
        Operation::Withdraw => &[KeyRule::Needed(Key::Id), KeyRule::Needed(Key::Call)],
        Operation::Drain => &[KeyRule::Free(Key::Limit)],
        Operation::Watch => &[KeyRule::Needed(Key::WatchLimit)],
        Operation::Meta => META,
        Operation::List | Operation::Tidy => &[],
    }
}

// Whether the word names an operation of `serve` sessions alone. The lines of these have no keys of their own.
fn is_of_service(word: &str) -> bool
    ensures { result ≡ is_of_service word.now }
{
    word == "leave" || word == "version" || word == "status"
}

fn rules_named(word: &str) -> Option<&'static [KeyRule]>
    ensures { option_map (λ rules. rules.now) result ≡ rules_named word.now }
{
    if is_of_service(word) {
        return Some(&[]);
    }
    match operation_named(word) {
        Some(operation) => Some(rules_of(operation)),
        None => None,
    }
}

/// The keys of the line's operation, in the order in which they are checked; `None` if the line names no operation.
pub fn rules_in(line: &Value) -> Option<&'static [KeyRule]>
    ensures { option_map (λ rules. rules.now) result ≡ rules_in (view line.now) }
{
    match line.get("op") {
        Some(found) => match found.as_str() {
            Some(word) => rules_named(word),
            None => None,
        },
        None => None,
    }
}

fn is_one_of(rules: &[KeyRule], name: &str) -> bool
    ensures { result ≡ is_one_of rules.now name.now }
{
    rules.iter().any(|rule| name == rule.key().word())
}

/// Whether a key is `op`, `tag` or one of these.
pub fn is_known(rules: &[KeyRule], name: &str) -> bool
    ensures { result ≡ is_known rules.now name.now }
{
    name == "op" || name == "tag" || is_one_of(rules, name)
}
