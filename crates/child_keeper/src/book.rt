//! The book of answers and their log.
ghost use Rattle.std.specs.Prelude.{◌≡◌, ◌+◌, ◌<◌, ◌≤◌, ◌++◌, [], ◌∷◌, IfOk, IsTrue, OnErr, length, vec_len};
ghost use Rattle.std.specs.Vec.{vec_capacity};

use crate::Entry;
use growth::{GROWTH_LIMIT, Grows, with_capacity};
use past::Past;
use std::alloc::{AllocError, Allocator};

/// The answers since the book was last cleared, in order, and how many more fit. The log of answers (not the agents' [`Log`]
/// of `agent_logs`) exists only in contracts, and has all answers ever given.
#[derive(Drop)]
pub struct Book<A: Allocator> {
    pub entries: Vec<Entry, A>,
    pub room: usize,
    pub log: Past<Entry>,
    pub ghost fits: { vec_len entries + room ≤ vec_capacity entries },
}

impl<A: Grows> Book<A> {
    /// An empty book for this many entries. It fails where memory is refused, and for more than [`GROWTH_LIMIT`] entries.
    pub fn new(alloc: A, room: usize) -> Result<Book<A>, AllocError>
        ensures empty { IfOk result (λ b. b.entries.items ≡ []) }
        ensures no_log { IfOk result (λ b. b.log.items ≡ []) }
        ensures room { IfOk result (λ b. b.room ≡ room) }
        ensures memory { OnErr result (room ≤ GROWTH_LIMIT → IsTrue A.refuses) }
    {
        if room > GROWTH_LIMIT {
            return Err(AllocError);
        }
        let entries = with_capacity(alloc, room)?;
        let log = Past::new();
        Ok(Book { entries, room, log })
    }
}

impl<A: Allocator> Book<A> {
    /// Adds an entry. It takes no memory.
    pub fn note(&mut self, entry: Entry)
        requires room { 0 < self.old.room }
        ensures noted { self.new.entries.items ≡ self.old.entries.items ++ entry ∷ [] }
        ensures logged { self.new.log.items ≡ self.old.log.items ++ entry ∷ [] }
        ensures room { self.new.room + 1 ≡ self.old.room }
    {
        self.room -= 1;
        self.log.note(&entry);
        self.entries.push_reserved(entry);
    }

    /// Removes all entries, which makes their capacity free again. The log does not change.
    pub fn clear(&mut self)
        ensures entries { self.new.entries.items ≡ [] }
        ensures log { self.new.log ≡ self.old.log }
        ensures room { self.new.room ≡ self.old.room + length self.old.entries.items }
    {
        self.room += self.entries.len();
        self.entries.clear();
    }
}
