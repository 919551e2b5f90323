//! Lists in memory of an allocator.
ghost use Rattle.std.specs.Prelude.{◌≡◌};

use std::alloc::{Allocator, Global};
use std::marker::Model;

/// A list that contracts see as its items, without the memory that holds them.
#[derive(Drop)]
pub struct Items<T: Drop, A: Allocator = Global> {
    items: Vec<T, A>,
}

impl<T: Drop, A: Allocator> Model for Items<T, A> {
    ghost use Rattle.std.specs.Prelude.{List};

    ghost Value = { List T };

    ghost view = { λ i. i.items.items };
}

impl<T: Drop, A: Allocator> Items<T, A> {
    /// The list of these items.
    pub fn new(items: Vec<T, A>) -> Self
        ensures { result ≡ items.items }
    {
        Items { items }
    }

    /// The items in order.
    pub fn as_slice(&self) -> &[T]
        ensures { result.now ≡ self.now }
    {
        self.items.as_slice()
    }
}
