//! Growths of vectors.
ghost use Rattle.std.specs.Prelude.{◌≡◌, ◌≤◌, ◌-◌, ◌++◌, ◌∷◌, [], if◌then◌else◌, is_ok, replicate, IfOk, OnOk, vec_capacity, vec_len};

use crate::{GROWTH_LIMIT, Grows, Refused};

/// An empty vector of at least that capacity.
pub fn with_capacity<T: Drop, A: Grows>(alloc: A, capacity: usize) -> Result<Vec<T, A>, Refused<A>>
    requires limit { capacity ≤ GROWTH_LIMIT }
    ensures items { IfOk result (λ v. v.items ≡ []) }
    ensures capacity { IfOk result (λ v. capacity ≤ vec_capacity v) }
{
    let mut vec = Vec::new(alloc);
    A::reserve(&mut vec, capacity)?;
    Ok(vec)
}

/// Appends the value to the vector, which is unchanged if the growth is refused.
pub fn push<T: Drop, A: Grows>(vec: &mut Vec<T, A>, value: T) -> Result<(), Refused<A>>
    ensures items { vec.new.items
        ≡ (if is_ok result then vec.old.items ++ value ∷ [] else vec.old.items) }
    ensures capacity { vec_capacity vec.old ≤ vec_capacity vec.new }
{
    A::reserve(vec, 1)?;
    vec.push_reserved(value);
    Ok(())
}

/// Appends the list to the vector, which is unchanged if the growth is refused.
pub fn append<T: Copy, A: Grows>(vec: &mut Vec<T, A>, list: &[T]) -> Result<(), Refused<A>>
    ensures items { vec.new.items
        ≡ (if is_ok result then vec.old.items ++ list.now else vec.old.items) }
    ensures capacity { vec_capacity vec.old ≤ vec_capacity vec.new }
{
    A::reserve_for(vec, list)?;
    if vec.extend_from_slice(list).is_err() {
        unreachable!()
    }
    Ok(())
}

/// A vector of that list.
pub fn vec_of<T: Copy, A: Grows>(alloc: A, list: &[T]) -> Result<Vec<T, A>, Refused<A>>
    ensures items { IfOk result (λ v. v.items ≡ list.now) }
{
    let mut vec = Vec::new(alloc);
    append(&mut vec, list)?;
    Ok(vec)
}

/// Appends copies of the value until the vector has that length; none if it is that long already.
pub fn fill<T: Copy, A: Grows>(vec: &mut Vec<T, A>, len: usize, value: T) -> Result<(), Refused<A>>
    requires limit { len ≤ GROWTH_LIMIT }
    ensures items { OnOk result
        (vec.new.items ≡ vec.old.items ++ replicate (len - vec_len vec.old) value) }
{
    let more = len.saturating_sub(vec.len());
    A::reserve(vec, more)?;
    for _ in 0..more {
        vec.push_reserved(value);
    }
    Ok(())
}
