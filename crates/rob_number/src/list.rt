//! Lists that contracts see as the list of their items.

ghost use Rattle.std.specs.Prelude.{◌≡◌, [], ◌∷◌, ◌++◌, drop, OnOk, OnErr};

use crate::memory::Memory;
use std::alloc::Global;
use std::marker::Model;

/// A list that grows at its end. Contracts see the plain list of its items, in order.
#[derive(Debug, Drop)]
pub struct List<T> {
    items: Vec<T>,
}

impl<T> Model for List<T> {
    ghost use Rattle.std.specs.Prelude.{List as Items};
    ghost use Rattle.std.specs.Coded.{coded_list};

    ghost Value = { Items T };

    ghost coded = { coded_list T.code };

    ghost view = { λ list. list.items.items };
}

impl<T> List<T> {
    /// The empty list. It takes no memory.
    pub fn new(alloc: Global) -> List<T>
        ensures empty { result ≡ [] }
    {
        List {
            items: Vec::new(alloc),
        }
    }

    /// The items, in order, counted from 0.
    pub fn items(&self) -> &[T]
        ensures list { result.now ≡ self.now }
    {
        self.items.as_slice()
    }
}

impl<T: Drop> List<T> {
    /// Appends an item. Where memory is refused the item is dropped.
    pub fn push(&mut self, item: T) -> Result<(), Memory>
        ensures appended { OnOk result (self.new ≡ self.old ++ item ∷ []) }
        ensures unchanged { OnErr result (self.new ≡ self.old) }
    {
        self.items.push(item)?;
        Ok(())
    }
}

impl<T> From<Vec<T>> for List<T> {
    ghost from_gives = { λ items list. list ≡ items.items };

    fn from(items: Vec<T>) -> List<T> {
        List { items }
    }
}

/// Removes the first item, if there is one.
pub fn remove_first<T: Drop>(items: &mut Vec<T>)
    ensures left { items.new.items ≡ drop 1 items.old.items }
{
    if items.is_empty() {
        return;
    }
    items.remove(0);
}
