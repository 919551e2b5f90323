//! The message of a refusal.
ghost use Rattle.std.specs.Prelude.{◌≡◌, ◌++◌, codes, OnOk, string_bytes};
ghost use Rattle.exec_commands.specs.LineKeys.{key_word, range_of, range_text};
ghost use Rattle.exec_commands.specs.Messages.{hint_text, key_text, message_of, operation_text, refusal_text};

use crate::key::Key;
use crate::refused::About;
use growth::{Refused, push_text};
use ocf_model::Refusal;
use ocf_types::Action;

// The messages of refusals that are about no single key, each by the name of its refusal.
pub const SYNTAX: &str = "a line must be one JSON object of at most 131072 bytes";

pub const UNKNOWN_OP: &str = "there is no such operation";

pub const BAD_NAME: &str = "a name has other letters, or is longer, than one may be";

pub const BAD_VALUE: &str = "a value is outside its range";

pub const UNKNOWN_RESOURCE: &str = "no resource of this id is registered";

pub const EXISTS: &str = "a resource of this id is registered already";

pub const RECURS: &str = "this resource has a recurring monitor of this interval already";

pub const BUSY: &str = "an action of this resource is queued or running";

pub const QUEUE_FULL: &str = "32 actions of this resource are queued, which is the limit";

pub const RECURRING_FULL: &str = "this resource has 8 recurring monitors, which is the limit";

pub const NO_SUCH_RECURRING: &str = "this resource has no recurring monitor of this interval";

pub const NOT_QUEUED: &str = "no action of this call is queued for this resource";

pub const TOO_MANY_RESOURCES: &str = "256 resources are registered, which is the limit";

pub const TOO_LARGE: &str = "the parameters are too large: their event has more than 16384 bytes";

pub const CALLS_SPENT: &str = "the last call id, 9007199254740991, is spent";

pub const JOURNAL_FULL: &str = "the journal is full; a tidy frees space";

pub const MEMORY: &str = "there was not enough memory; nothing was done";

pub const DISK: &str = "the journal's device failed, and the executor is closed";

pub const CLOSED: &str = "the executor is closed";

// The messages about a key that occurs twice, and about one that the operation does not have.
pub const KEY_TWICE: &str = "an object of the line has a key twice";

pub const NO_SUCH_KEY: &str = "this operation has no such key";

// What stands between a key and what it may hold, before a word that names no operation, before what else to write, and around an
// action in an example.
pub const MUST_BE: &str = " must be ";

pub const NO_OPERATION: &str = "there is no operation ";

pub const ELSE: &str = "; ";

pub const EXAMPLE_HEAD: &str = "; use {\"op\":\"exec\",\"action\":\"";

pub const EXAMPLE_TAIL: &str = "\",..}";

// The message of a refusal that is about no single key.
fn refusal_text(why: Refusal) -> &'static str
    ensures { result.now ≡ refusal_text why }
{
    match why {
        Refusal::Syntax => SYNTAX,
        Refusal::UnknownOp => UNKNOWN_OP,
        Refusal::BadName => BAD_NAME,
        Refusal::BadValue => BAD_VALUE,
        Refusal::UnknownResource => UNKNOWN_RESOURCE,
        Refusal::Exists => EXISTS,
        Refusal::Recurs => RECURS,
        Refusal::Busy => BUSY,
        Refusal::QueueFull => QUEUE_FULL,
        Refusal::RecurringFull => RECURRING_FULL,
        Refusal::NoSuchRecurring => NO_SUCH_RECURRING,
        Refusal::NotQueued => NOT_QUEUED,
        Refusal::TooManyResources => TOO_MANY_RESOURCES,
        Refusal::TooLarge => TOO_LARGE,
        Refusal::CallsSpent => CALLS_SPENT,
        Refusal::JournalFull => JOURNAL_FULL,
        Refusal::Memory => MEMORY,
        Refusal::Disk => DISK,
        Refusal::Closed => CLOSED,
    }
}

// Appends what a key may hold.
fn add_key(text: &mut String, key: Key) -> Result<(), Refused>
    ensures text { OnOk result (string_bytes text.new ≡ string_bytes text.old ++ key_text key) }
{
    push_text(text, key.word())?;
    push_text(text, MUST_BE)?;
    key.range().add_to(text)
}

// Appends what to write in place of a word that names no operation: an action is the value of another key.
fn add_hint(text: &mut String, word: &str) -> Result<(), Refused>
    ensures text { OnOk result (string_bytes text.new ≡ string_bytes text.old ++ hint_text word.now) }
{
    if Action::named(word).is_some() {
        push_text(text, EXAMPLE_HEAD)?;
        push_text(text, word)?;
        push_text(text, EXAMPLE_TAIL)
    } else {
        push_text(text, ELSE)?;
        add_key(text, Key::Op)
    }
}

// Appends that a word names no operation.
fn add_operation(text: &mut String, word: &str) -> Result<(), Refused>
    ensures text { OnOk result (string_bytes text.new ≡ string_bytes text.old ++ operation_text word.now) }
{
    push_text(text, NO_OPERATION)?;
    push_text(text, word)?;
    add_hint(text, word)
}

/// Appends the message of a refusal: what the key at fault may hold, or else a message for the kind of refusal. After an error a part of
/// it may have been appended.
pub fn add_message(text: &mut String, why: Refusal, about: &About) -> Result<(), Refused>
    ensures text { OnOk result (string_bytes text.new ≡ string_bytes text.old ++ message_of why about.now) }
{
    match about {
        About::Whole => push_text(text, refusal_text(why)),
        About::Twice => push_text(text, KEY_TWICE),
        About::Key(key) => add_key(text, *key),
        About::Unknown(_) => push_text(text, NO_SUCH_KEY),
        About::Operation(word) => add_operation(text, word.as_str()),
    }
}
