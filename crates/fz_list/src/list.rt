//! Lists of items.
ghost use Rattle.std.specs.Prelude.{◌≡◌, ◌↔◌, [], List as Items, length, IsTrue};

use std::marker::Model;

/// A list of items, which a contract sees as exactly that.
#[derive(Drop)]
pub struct List<T> {
    items: Vec<T>,
}

impl<T> Model for List<T> {
    ghost Value = { Items T };

    ghost view = { λ l. l.items.items };
}

impl<T> List<T> {
    /// The items of a vector, which is not copied.
    pub fn new(items: Vec<T>) -> List<T>
        ensures { result ≡ items.items }
    {
        List { items }
    }

    /// The vector that the list was made from.
    pub fn into_vec(self) -> Vec<T>
        ensures { result.items ≡ self }
    {
        let List { items } = self;
        items
    }

    pub fn as_slice(&self) -> &[T]
        ensures { result.now ≡ self.now }
    {
        self.items.as_slice()
    }

    pub fn len(&self) -> usize
        ensures { result ≡ length self.now }
    {
        self.items.len()
    }

    pub fn is_empty(&self) -> bool
        ensures { IsTrue result ↔ (self.now ≡ []) }
    {
        self.items.is_empty()
    }
}
