//! Tags: texts by which a client matches replies and notices with its lines.
ghost use Rattle.std.specs.Prelude.{◌≡◌, option_map};
ghost use Rattle.serde_json.specs.View.{view};
ghost use Rattle.exec_commands.specs.Tags.{is_mistagged, short_text, tag_in, tag_of};

use arrayvec::ArrayString;
use serde_json::Value;
use std::marker::Model;

/// The greatest length of a tag, in bytes of UTF-8.
pub const TAG_LIMIT: usize = 64;

/// A text of at most 64 bytes of UTF-8 in a client's line, which the reply and the notices repeat. It allocates nothing.
#[derive(Drop)]
pub struct Tag {
    text: ArrayString<{ TAG_LIMIT }>,
}

impl Model for Tag {
    ghost use Rattle.std.specs.Prelude.{List, ℕ};

    ghost Value = { List ℕ };

    ghost view = { λ t. t.text.bytes };
}

impl Tag {
    /// The tag with this text; `None` if it has more than 64 bytes.
    pub fn new(text: &str) -> Option<Self>
        ensures { result ≡ short_text text.now }
    {
        match ArrayString::from(text) {
            Ok(text) => Some(Tag { text }),
            Err(_) => None,
        }
    }

    /// The text.
    pub fn as_str(&self) -> &str
        ensures { result.now ≡ self.now }
    {
        self.text.as_str()
    }
}

/// The tag that this JSON value is, if it is one.
pub fn tag_in(found: &Value) -> Option<Tag>
    ensures { result ≡ tag_in (view found.now) }
{
    match found.as_str() {
        Some(text) => Tag::new(text),
        None => None,
    }
}

/// The tag of a line, if it has one.
pub fn tag_of(line: &Value) -> Option<Tag>
    ensures { result ≡ tag_of (view line.now) }
{
    match line.get("tag") {
        Some(found) => tag_in(found),
        None => None,
    }
}

/// Whether the key `tag` of a line holds anything but a tag.
pub fn is_mistagged(line: &Value) -> bool
    ensures { result ≡ is_mistagged (view line.now) }
{
    match line.get("tag") {
        Some(found) => tag_in(found).is_none(),
        None => false,
    }
}
