//! Growths of memory. Allocators are asked for memory only here, so contracts see each refusal.
ghost use Rattle.std.specs.Prelude.{◌≡◌, ◌+◌, ◌≤◌, [], Bool, IfOk, IsErr, IsOk, Ok, IsTrue, OnOk, length, vec_capacity, vec_len, string_bytes, string_capacity, string_len};
ghost use Rattle.indexmap.specs.IndexMap.{IsUnchanged, KeepsRoom, spare};
ghost use Rattle.growth.specs.Refused.{refuses_here};

use circular_buffer::HeapCircularBuffer;
use indexmap::IndexMap;
use std::alloc::{AllocError, Allocator, Global};
use std::error::Error;
use std::fmt::{self, Display, Formatter};
use std::hash::{BuildHasher, Hash};
use std::io;
use std::marker::PhantomData;

/// The greatest number of elements that a growth may request, unless it is for the elements of a given list or text.
pub const GROWTH_LIMIT: usize = 16_777_216;

/// A growth that an allocator of this type refused. Only this crate makes one.
#[derive(Drop)]
#[derive_where(PartialEq, Eq, Debug)]
pub struct Refused<A: Grows = Global> {
    alloc: PhantomData<A>,
    pub ghost refused: { IsTrue A.refuses },
}

impl<A: Grows> Refused<A> {
    /// A refusal that is known, and whose value was not kept. Where a body knows of none, this cannot be called.
    pub fn known() -> Self
        requires refuses { IsTrue A.refuses }
    {
        Refused { alloc: PhantomData }
    }

    /// Lemma: the allocator refuses growths.
    pub fn lemma_refuses(&self)
        ensures refuses { IsTrue A.refuses }
    {}
}

impl<A: Grows> Display for Refused<A> {
    fn fmt<W: fmt::Write>(&self, f: &mut Formatter<W>) -> fmt::Result {
        f.write_str("out of memory")
    }
}

impl<A: Grows> Error for Refused<A> {}

impl<A: Grows> From<Refused<A>> for AllocError {
    ghost use Rattle.std.specs.Prelude.{⊤};

    ghost from_gives = { λ _ _. ⊤ };

    fn from(_: Refused<A>) -> AllocError {
        AllocError
    }
}

impl<A: Grows> From<Refused<A>> for io::Error {
    ghost use Rattle.std.specs.Prelude.{⊤};

    ghost from_gives = { λ _ _. ⊤ };

    fn from(_: Refused<A>) -> io::Error {
        io::Error::from(AllocError)
    }
}

/// The answer of a call that allocates by itself. Who calls it shows that an error is a refusal of this allocator.
pub fn granted<T, A: Grows>(answer: Result<T, AllocError>) -> Result<T, Refused<A>>
    requires refused { IsErr answer → IsTrue A.refuses }
    ensures ok { (v : T) → answer ≡ Ok v → result ≡ Ok v }
    ensures err { IsErr answer → IsErr result }
{
    match answer {
        Ok(value) => Ok(value),
        Err(_) => Err(Refused::known()),
    }
}

/// An allocator whose refusals contracts see. [`Grows::refuses`] says that it refuses growths, and a [`Refused`] shows it. So a function
/// that is generic over the allocator, and whose contract says `IsTrue A.refuses` for lack of memory, reports lack of memory only if a
/// growth was refused.
///
/// The flag belongs to the type and not to a moment. Beside [`Refused`], and what makes one, no `requires`, invariant or ghost field may
/// say that it is true, since a body could then show it without a refusal.
pub trait Grows: Allocator + Copy {
    /// Whether it refuses growths.
    ghost refuses: { Bool };

    /// Reserves capacity for that many more elements.
    fn reserve<T>(vec: &mut Vec<T, Self>, additional: usize) -> Result<(), Refused<Self>>
        requires limit { additional ≤ GROWTH_LIMIT }
        ensures items { vec.new.items ≡ vec.old.items }
        ensures len { vec_len vec.new ≡ vec_len vec.old }
        ensures capacity { vec_capacity vec.old ≤ vec_capacity vec.new }
        ensures ok { OnOk result (vec_len vec.new + additional ≤ vec_capacity vec.new) }
        ensures succeeds { vec_len vec.old + additional ≤ vec_capacity vec.old → IsOk result };

    /// Reserves capacity for as many more elements as the list has.
    fn reserve_for<T, U>(vec: &mut Vec<T, Self>, list: &[U]) -> Result<(), Refused<Self>>
        ensures items { vec.new.items ≡ vec.old.items }
        ensures len { vec_len vec.new ≡ vec_len vec.old }
        ensures capacity { vec_capacity vec.old ≤ vec_capacity vec.new }
        ensures ok { OnOk result (vec_len vec.new + length list.now ≤ vec_capacity vec.new) }
        ensures succeeds { vec_len vec.old + length list.now ≤ vec_capacity vec.old → IsOk result };

    /// Reserves capacity for appending the text.
    fn reserve_text(string: &mut String<Self>, text: &str) -> Result<(), Refused<Self>>
        ensures bytes { string_bytes string.new ≡ string_bytes string.old }
        ensures len { string_len string.new ≡ string_len string.old }
        ensures capacity { string_capacity string.old ≤ string_capacity string.new }
        ensures ok { OnOk result (string_len string.new + length text.now ≤ string_capacity string.new) }
        ensures succeeds { string_len string.old + length text.now ≤ string_capacity string.old
            → IsOk result };

    /// Reserves capacity for that many more entries.
    fn reserve_entries<K: Hash + Eq, V, S: BuildHasher>(
        map: &mut IndexMap<K, V, S, Self>,
        additional: usize,
    ) -> Result<(), Refused<Self>>
        requires limit { additional ≤ GROWTH_LIMIT }
        ensures entries { IsUnchanged map.old map.new }
        ensures ok { OnOk result (additional ≤ spare map.new) }
        ensures succeeds { additional ≤ spare map.old → IsOk result }
        ensures room { KeepsRoom map.old map.new };

    /// An empty ring of that capacity.
    fn ring<T>(alloc: Self, capacity: usize) -> Result<HeapCircularBuffer<T, Self>, Refused<Self>>
        requires limit { capacity ≤ GROWTH_LIMIT }
        ensures none { IfOk result (λ r. r.items ≡ []) }
        ensures capacity { IfOk result (λ r. r.capacity ≡ capacity) };
}

// The answer of a growth: a failed one was refused.
#[tactic(auto, using(crate::specs::Refused::refuses))]
fn grown<T, A: Allocator + Copy>(answer: Result<T, AllocError>) -> Result<T, Refused<A>>
    ensures ok { (v : T) → answer ≡ Ok v → result ≡ Ok v }
    ensures err { IsErr answer → IsErr result }
{
    match answer {
        Ok(value) => Ok(value),
        Err(_) => Err(Refused { alloc: PhantomData }),
    }
}

impl<A: Allocator + Copy> Grows for A {
    ghost refuses = { refuses_here };

    fn reserve<T>(vec: &mut Vec<T, Self>, additional: usize) -> Result<(), Refused<Self>> {
        grown(vec.reserve(additional))
    }

    fn reserve_for<T, U>(vec: &mut Vec<T, Self>, list: &[U]) -> Result<(), Refused<Self>> {
        grown(vec.reserve(list.len()))
    }

    fn reserve_text(string: &mut String<Self>, text: &str) -> Result<(), Refused<Self>> {
        grown(string.reserve(text.len()))
    }

    fn reserve_entries<K: Hash + Eq, V, S: BuildHasher>(
        map: &mut IndexMap<K, V, S, Self>,
        additional: usize,
    ) -> Result<(), Refused<Self>> {
        grown(map.reserve(additional))
    }

    fn ring<T>(alloc: Self, capacity: usize) -> Result<HeapCircularBuffer<T, Self>, Refused<Self>> {
        grown(HeapCircularBuffer::with_capacity(alloc, capacity))
    }
}
