//! The entries in the bytes of the file.
ghost use Rattle.std.specs.Prelude.{◌≡◌, ◌≢◌, ◌+◌, ◌*◌, ◌<◌, IfNone, IfOk, IfSome, length, take};
ghost use Rattle.agents_file.specs.Contents.{AreKept, slot_line};
ghost use Rattle.agents_file.specs.Entries.{IsHead, head_line};
ghost use Rattle.agents_file.specs.declared.head.Head.{Head};

use crate::entry::{AgentEntry, entry_of};
use crate::head::{Head, head_of};
use crate::line::LINE_LEN;
use crate::slots::SLOTS;
use std::alloc::{AllocError, Allocator};

/// The length of the file, in bytes: a head, and a line for each slot.
pub(crate) const FILE_LEN: usize = LINE_LEN * (SLOTS + 1);

/// An entry that was found in the file, with the number of its slot, from 0.
#[derive(Drop)]
pub struct Kept {
    pub slot: usize,
    pub entry: AgentEntry,
}

/// The offset of the line of a slot.
pub(crate) fn offset_of(slot: usize) -> usize
    requires { slot < SLOTS }
    ensures { result ≡ 256 * (slot + 1) }
{
    LINE_LEN * (slot + 1)
}

// The line of a slot.
fn line_at(bytes: &[u8], slot: usize) -> &[u8]
    requires whole { length bytes.now ≡ FILE_LEN }
    requires slot { slot < SLOTS }
    ensures { result.now ≡ slot_line slot bytes.now }
{
    let (_, lines) = bytes.split_at(offset_of(slot));
    let (line, _) = lines.split_at(LINE_LEN);
    line
}

// The entries in the slots of a file with these bytes, in order. A line that is no entry's is left out.
fn entries_in<A: Allocator>(alloc: A, bytes: &[u8]) -> Result<Vec<Kept, A>, AllocError>
    requires whole { length bytes.now ≡ FILE_LEN }
    ensures kept { IfOk result (λ kept. AreKept SLOTS bytes.now kept.items) }
{
    let mut kept = Vec::new(alloc);
    for slot in 0..SLOTS {
        if let Some(entry) = entry_of(line_at(bytes, slot)) {
            kept.push(Kept { slot, entry })?;
        }
    }
    Ok(kept)
}

/// The head and the entries of the file.
#[derive(Drop)]
pub(crate) struct Contents<A: Allocator> {
    pub head: Head,
    pub entries: Vec<Kept, A>,
}

/// The head and the entries of a file with these bytes; `None` for another length, or where the first line is no head's.
pub(crate) fn contents_of<A: Allocator>(
    alloc: A,
    bytes: &[u8],
) -> Result<Option<Contents<A>>, AllocError>
    ensures head { IfOk result
        (λ found. IfSome found (λ c. take 256 bytes.now ≡ head_line c.head)) }
    ensures entries { IfOk result
        (λ found. IfSome found (λ c. AreKept SLOTS bytes.now c.entries.items)) }
    ensures none { IfOk result (λ found. IfNone found (length bytes.now ≡ FILE_LEN
        → (h : Head) → IsHead h → take 256 bytes.now ≢ head_line h)) }
{
    if bytes.len() != FILE_LEN {
        return Ok(None);
    }
    let (line, _) = bytes.split_at(LINE_LEN);
    let Some(head) = head_of(line) else {
        return Ok(None);
    };
    let entries = entries_in(alloc, bytes)?;
    Ok(Some(Contents { head, entries }))
}
