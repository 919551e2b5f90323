//! Growths of strings.
ghost use Rattle.std.specs.Prelude.{◌≡◌, ◌++◌, if◌then◌else◌, is_ok, IfOk, string_bytes};

use crate::{Grows, Refused};

/// Appends the text to the string, which is unchanged if the growth is refused.
pub fn push_text<A: Grows>(string: &mut String<A>, text: &str) -> Result<(), Refused<A>>
    ensures bytes { string_bytes string.new
        ≡ (if is_ok result then string_bytes string.old ++ text.now else string_bytes string.old) }
{
    A::reserve_text(string, text)?;
    if string.push_str(text).is_err() {
        unreachable!()
    }
    Ok(())
}

/// A string of that text.
pub fn text_of<A: Grows>(alloc: A, text: &str) -> Result<String<A>, Refused<A>>
    ensures ok { IfOk result (λ t. string_bytes t ≡ text.now) }
{
    let mut string = String::new(alloc);
    push_text(&mut string, text)?;
    Ok(string)
}
