//! The values that keys may hold.
ghost use Rattle.std.specs.Prelude.{◌≡◌, ◌++◌, decimal, OnOk, string_bytes};
ghost use Rattle.exec_commands.specs.LineKeys.{range_text};

use growth::{Refused, push_text};
use itoa::Buffer;

/// The longest limit that a line may name, a day in milliseconds.
pub const LONGEST_LIMIT: u64 = 86_400_000;

/// The values that a key may hold.
#[derive(Clone, Copy)]
pub enum Range {
    /// The name of an operation.
    Operation,
    /// The id of a resource.
    Id,
    /// A provider, or an agent's type.
    Name,
    /// Parameters.
    Params,
    /// The name of an action.
    Action,
    /// The level of a monitor.
    Level,
    /// The expected exit code of a monitor.
    Expect,
    /// A tag: a client's text, in UTF-8.
    Tag,
    /// A number in this range, with both bounds included.
    Number { from: u64, to: u64 },
}

// What keys may hold, each a part of a sentence; and what stands before the bounds of a number.
pub const AN_OPERATION: &str =
    "one of register, unregister, params, exec, recur, cancel, withdraw, forget, list, info, history, drain, watch, meta, tidy, status, version and leave";

pub const AN_ID: &str =
    "a text of 1 to 64 letters, digits, '_', '-', '.' and ':', but not '.' or '..'";

pub const A_NAME: &str = "a text of 1 to 64 letters, digits, '_', '-' and '.', but not '.' or '..'";

pub const PARAMETERS: &str =
    "an object of at most 64 texts of 1024 bytes, no NUL, by names of 1 to 64 letters, digits and '_', no digit first";

pub const AN_ACTION: &str = "start, stop, monitor, promote, demote, reload-agent or validate-all";

pub const A_LEVEL: &str = "the number 0, 10 or 20, and 0 where the action is no monitor";

pub const AN_EXIT_CODE: &str = "the number 0, 7 or 8, and 0 where the action is no monitor";

pub const A_TAG: &str = "a text of at most 64 bytes";

pub const NUMBER_FROM: &str = "a number from ";

pub const NUMBER_TO: &str = " to ";

// Appends a number in decimal digits.
fn add_number(text: &mut String, number: u64) -> Result<(), Refused>
    ensures text { OnOk result (string_bytes text.new ≡ string_bytes text.old ++ decimal number) }
{
    let mut buffer = Buffer::new();
    push_text(text, buffer.format(number))
}

// Appends the bounds of a number, as a part of a sentence.
fn add_numbers(text: &mut String, from: u64, to: u64) -> Result<(), Refused>
    ensures text { OnOk result (string_bytes text.new
        ≡ string_bytes text.old ++ range_text (Range.Number from to)) }
{
    push_text(text, NUMBER_FROM)?;
    add_number(text, from)?;
    push_text(text, NUMBER_TO)?;
    add_number(text, to)
}

impl Range {
    /// Appends the range, as a part of a sentence.
    pub fn add_to(self, text: &mut String) -> Result<(), Refused>
        ensures text { OnOk result (string_bytes text.new ≡ string_bytes text.old ++ range_text self) }
    {
        match self {
            Range::Operation => push_text(text, AN_OPERATION),
            Range::Id => push_text(text, AN_ID),
            Range::Name => push_text(text, A_NAME),
            Range::Params => push_text(text, PARAMETERS),
            Range::Action => push_text(text, AN_ACTION),
            Range::Level => push_text(text, A_LEVEL),
            Range::Expect => push_text(text, AN_EXIT_CODE),
            Range::Tag => push_text(text, A_TAG),
            Range::Number { from, to } => add_numbers(text, from, to),
        }
    }
}
