//! A list of past items that only contracts read.
ghost use Rattle.std.specs.Prelude.{◌≡◌, List, [], ◌∷◌, ◌++◌};
ghost use Rattle.std.specs.Borrow.{ftrue};

use std::marker::{Model, PhantomData};

/// The past items, oldest first. Contracts read them as `items`.
///
/// A running program keeps none of them. So the bodies of `new` and `with` do nothing, and are proved by hand.
#[derive(Drop)]
pub struct Past<T> {
    of: PhantomData<T>,
    pub ghost items: { List T },
}

impl<T> Model for Past<T> {
    ghost also_owns = { λ _. ftrue };
}

impl<T> Past<T> {
    /// The empty list.
    pub fn new() -> Past<T>
        ensures { result.items ≡ [] }
    {
        Past { of: PhantomData }
    }

    /// The list with this item at its end.
    fn with(&self, item: &T) -> Past<T>
        ensures { result.items ≡ self.now.items ++ item.now ∷ [] }
    {
        Past { of: PhantomData }
    }

    /// Appends this item.
    pub fn note(&mut self, item: &T)
        ensures { self.new.items ≡ self.old.items ++ item.now ∷ [] }
    {
        *self = self.with(item);
    }
}
