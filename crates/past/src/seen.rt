//! A value as it was, for contracts alone.
ghost use Rattle.std.specs.Prelude.{◌≡◌};
ghost use Rattle.std.specs.Borrow.{ftrue};

use std::marker::{Model, PhantomData};

/// A value as it was at some moment. Contracts read it as `value`.
///
/// It takes no memory when the program runs. So `of` does nothing then, and is proved by hand.
#[derive(Drop)]
pub struct Seen<T> {
    of: PhantomData<T>,
    pub ghost value: { T },
}

impl<T> Model for Seen<T> {
    ghost also_owns = { λ _. ftrue };
}

impl<T> Seen<T> {
    /// The value as it is now.
    pub fn of(value: &T) -> Seen<T>
        ensures { result.value ≡ value.now }
    {
        Seen { of: PhantomData }
    }
}
