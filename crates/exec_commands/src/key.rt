//! The keys of lines, and the range of each.
ghost use Rattle.std.specs.Prelude.{◌≡◌};
ghost use Rattle.exec_commands.specs.LineKeys.{key_word, range_of};

use crate::range::{LONGEST_LIMIT, Range};
use ocf_types::NUM_MAX;

/// A key of a line.
#[derive(Clone, Copy)]
pub enum Key {
    Op,
    Id,
    Provider,
    Type,
    Params,
    Action,
    Timeout,
    Level,
    Expect,
    Interval,
    Call,
    /// The limit of a drain, or of a request for metadata.
    Limit,
    /// The limit of a watch.
    WatchLimit,
    /// The client's text that the reply and the notices repeat.
    Tag,
}

const MILLIS: Range = Range::Number {
    from: 1,
    to: u32::MAX as u64,
};

impl Key {
    /// The name of the key in a line.
    pub fn word(self) -> &'static str
        ensures { result.now ≡ key_word self }
    {
        match self {
            Key::Op => "op",
            Key::Id => "id",
            Key::Provider => "provider",
            Key::Type => "type",
            Key::Params => "params",
            Key::Action => "action",
            Key::Timeout => "timeout",
            Key::Level => "level",
            Key::Expect => "expect",
            Key::Interval => "interval",
            Key::Call => "call",
            Key::Limit | Key::WatchLimit => "limit",
            Key::Tag => "tag",
        }
    }

    /// The values that the key may hold.
    pub fn range(self) -> Range
        ensures { result ≡ range_of self }
    {
        match self {
            Key::Op => Range::Operation,
            Key::Id => Range::Id,
            Key::Provider | Key::Type => Range::Name,
            Key::Params => Range::Params,
            Key::Action => Range::Action,
            Key::Level => Range::Level,
            Key::Expect => Range::Expect,
            Key::Tag => Range::Tag,
            Key::Timeout | Key::Interval | Key::WatchLimit => MILLIS,
            Key::Call => Range::Number {
                from: 1,
                to: NUM_MAX,
            },
            Key::Limit => Range::Number {
                from: 0,
                to: LONGEST_LIMIT,
            },
        }
    }
}
