// One list type for all plural types, which contracts see as its list.
ghost use Rattle.std.specs.Prelude.{◌≡◌, [], ◌∷◌, ◌++◌, List, OnOk, OnErr};

use crate::NoMemory;
use std::alloc::Global;
use std::marker::Model;

/// A list of items on the heap. Contracts see it as the list itself.
#[derive(Debug, Drop)]
pub struct Listed<T> {
    items: Vec<T>,
}

/// A list of bytes.
pub type Bytes = Listed<u8>;

impl<T> Model for Listed<T> {
    ghost Value = { List T };

    ghost view = { λ s. s.items.items };
}

impl<T> Listed<T> {
    /// The empty list, which takes memory as it grows.
    pub fn new(alloc: Global) -> Self
        ensures { result ≡ [] }
    {
        Listed {
            items: Vec::new(alloc),
        }
    }

    /// The items of a vector, in its order. Takes no memory.
    pub fn from_vec(items: Vec<T>) -> Self
        ensures { result ≡ items.items }
    {
        Listed { items }
    }

    /// The items in order.
    pub fn items(&self) -> &[T]
        ensures { result.now ≡ self.now }
    {
        &self.items
    }
}

impl<T: Drop> Listed<T> {
    /// Adds an item at the end. Where memory runs out the list stays as it was.
    pub fn push(&mut self, item: T) -> Result<(), NoMemory>
        ensures ok { OnOk result (self.new ≡ self.old ++ item ∷ []) }
        ensures err { OnErr result (self.new ≡ self.old) }
    {
        match self.items.push(item) {
            Ok(()) => Ok(()),
            Err(_) => Err(NoMemory),
        }
    }
}

impl<T: PartialEq> PartialEq for Listed<T> {
    ghost use Rattle.std.proofs.Common.{rules};
    ghost use Rattle.std.specs.Cmp.Rules.{comparing};
    ghost use Rattle.std.specs.Cmp.Lexicographic.{pointwise};

    ghost eq = { pointwise T.eq };

    ghost laws = { Prim.search (comparing, rules, T.PartialEq.laws) };

    fn eq(&self, other: &Self) -> bool {
        self.items() == other.items()
    }
}
