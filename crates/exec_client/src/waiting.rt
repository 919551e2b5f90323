//! The lines that wait for replies.
ghost use Rattle.std.specs.Prelude.{◌≡◌, ◌+◌, ◌≤◌, drop, vec_len};
ghost use Rattle.exec_client.specs.Tags.{first_tag};
ghost use Rattle.exec_client.specs.Waiting.{count_of, lines_in};

use exec_commands::Tag;

/// The tag of a line that waits for its reply, and the number of lines without a tag that were read between the tag before it and this one.
#[derive(Drop)]
pub(crate) struct Waiting {
    pub(crate) before: u64,
    pub(crate) tag: Tag,
}

/// Removes the oldest line and returns its tag. After the tagged lines and those between them, `after` lines without a tag wait.
pub(crate) fn take_first(waiting: &mut Vec<Waiting>, after: &mut u64) -> Option<Tag>
    ensures tag { result ≡ first_tag (lines_in waiting.old.items after.old) }
    ensures lines { lines_in waiting.new.items after.new ≡ drop 1 (lines_in waiting.old.items after.old) }
    ensures room { vec_len waiting.new + count_of result ≤ vec_len waiting.old }
{
    if waiting.is_empty() {
        *after = after.saturating_sub(1);
        return None;
    }
    if waiting[0].before > 0 {
        waiting[0].before -= 1;
        return None;
    }
    let Waiting { tag, .. } = waiting.remove(0);
    Some(tag)
}
