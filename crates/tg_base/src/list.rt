//! A list that contracts see as a list.

ghost use Rattle.std.specs.Cmp.Lexicographic.{pointwise, lists_per, lists_equiv};
ghost use Rattle.std.specs.Prelude.{◌≡◌, ◌<◌, ◌≤◌, ◌+◌, ◌++◌, ◌==◌, [], ◌∷◌, length, insert, remove, slice_get, OnOk, OnErr};

use crate::fault::NoMemory;
use std::alloc::Global;
use std::marker::Model;

/// A list over a `Vec`, whose growth is refused as [`NoMemory`].
#[derive(Clone, Drop)]
pub struct List<T> {
    items: Vec<T>,
}

impl<T> Model for List<T> {
    ghost use Rattle.std.specs.Prelude.{List};

    ghost Value = { List T };

    ghost view = { λ s. s.items.items };
}

impl<T> List<T> {
    /// The empty list. It takes no memory.
    pub fn new(alloc: Global) -> Self
        ensures { result ≡ [] }
    {
        List {
            items: Vec::new(alloc),
        }
    }

    /// The list of a vector's items.
    pub fn from_vec(items: Vec<T>) -> Self
        ensures { result ≡ items.items }
    {
        List { items }
    }

    /// How many items there are.
    pub fn len(&self) -> usize
        ensures { result ≡ length self.now }
    {
        self.items.len()
    }

    /// Whether there is none.
    pub fn is_empty(&self) -> bool
        ensures { result ≡ (length self.now == 0) }
    {
        self.items.is_empty()
    }

    /// Puts an item last. An `Err` changes nothing.
    pub fn push(&mut self, x: T) -> Result<(), NoMemory>
    where
        T: Drop,
        ensures ok { OnOk result (self.new ≡ self.old ++ x ∷ []) }
        ensures err { OnErr result (self.new ≡ self.old) }
    {
        self.items.push(x)?;
        Ok(())
    }

    /// Puts copies of items last. An `Err` changes nothing.
    pub fn extend(&mut self, xs: &[T]) -> Result<(), NoMemory>
    where
        T: Copy,
        ensures ok { OnOk result (self.new ≡ self.old ++ xs.now) }
        ensures err { OnErr result (self.new ≡ self.old) }
    {
        self.items.extend_from_slice(xs)?;
        Ok(())
    }

    /// The items.
    pub fn as_slice(&self) -> &[T]
        ensures { result.now ≡ self.now }
    {
        self.items.as_slice()
    }

    /// Puts an item at a place. An `Err` changes nothing.
    pub fn insert(&mut self, at: usize, x: T) -> Result<(), NoMemory>
    where
        T: Drop,
        requires { at ≤ length self.old }
        ensures ok { OnOk result (self.new ≡ insert self.old at x) }
        ensures err { OnErr result (self.new ≡ self.old) }
    {
        self.items.insert(at, x)?;
        Ok(())
    }

    /// Takes the item at a place out; the others keep their order. It takes no memory.
    pub fn remove(&mut self, at: usize) -> T
        requires { at < length self.old }
        ensures value { slice_get self.old at ≡ Some result }
        ensures rest { self.new ≡ remove self.old at }
    {
        self.items.remove(at)
    }
}

impl<T: PartialEq> PartialEq for List<T> {
    ghost eq = { λ v w. pointwise T.eq v w };

    ghost laws = { lists_per T.laws };

    fn eq(&self, other: &Self) -> bool {
        self.as_slice() == other.as_slice()
    }
}

impl<T: Eq> Eq for List<T> {
    ghost laws = { lists_equiv T.Eq.laws };
}
