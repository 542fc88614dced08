ghost use Rattle.std.specs.Prelude.{◌≡◌, [], ◌∷◌, ◌++◌, OnOk, OnErr};

use crate::Memory;
use std::alloc::Global;
use std::marker::Model;

/// A list that grows at its end. Contracts see it as the list of its items.
#[derive(Debug, Drop)]
pub struct ListOf<T> {
    entries: Vec<T>,
}

impl<T> Model for ListOf<T> {
    ghost use Rattle.std.specs.Prelude.{List};

    ghost Value = { List T };

    ghost view = { λ list. list.entries.items };
}

impl<T> ListOf<T> {
    /// An empty list; it takes no memory.
    pub fn new(alloc: Global) -> Self
        ensures { result ≡ [] }
    {
        ListOf {
            entries: Vec::new(alloc),
        }
    }

    /// The items, in order.
    pub fn items(&self) -> &[T]
        ensures { result.now ≡ self.now }
    {
        self.entries.as_slice()
    }
}

impl<T: Drop> ListOf<T> {
    /// Appends the item. After `Memory` the list is as before.
    pub fn push(&mut self, item: T) -> Result<(), Memory>
        ensures ok { OnOk result (self.new ≡ self.old ++ item ∷ []) }
        ensures err { OnErr result (self.new ≡ self.old) }
    {
        self.entries.push(item)?;
        Ok(())
    }
}

/// Bytes, as a text, a name or a line.
pub type Bytes = ListOf<u8>;

impl ListOf<u8> {
    /// Appends all bytes of the piece. After `Memory` the list is as before.
    pub fn append(&mut self, piece: &[u8]) -> Result<(), Memory>
        ensures ok { OnOk result (self.new ≡ self.old ++ piece.now) }
        ensures err { OnErr result (self.new ≡ self.old) }
    {
        self.entries.extend_from_slice(piece)?;
        Ok(())
    }
}
