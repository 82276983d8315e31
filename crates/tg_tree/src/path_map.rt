//! Values by path, found by a hash and seen in the paths' order.

ghost use Rattle.std.specs.Prelude.{◌≡◌, ◌==◌, [], length, is_some, None, IfOk, OnOk};
ghost use Rattle.std.specs.Option.{option_copied};
ghost use Rattle.std.specs.Map.{lookup, remove_entry};
ghost use Rattle.std.specs.BTreeMap.{insert_entry};
ghost use Rattle.tg_tree.specs.Paths.{by_bytes, same};
ghost use Rattle.tg_tree.specs.Links.{Rising};

use crate::key::Key;
use indexmap::IndexMap;
use std::alloc::Global;
use std::collections::BTreeMap;
use std::marker::Model;
use tg_base::NoMemory;

/// Values by path. To find one, or to put or remove it, takes the same time however many there are.
#[derive(Drop)]
pub struct PathMap<V> {
    by_path: IndexMap<Key, V>,
}

impl<V> Model for PathMap<V> {
    ghost use Rattle.std.specs.Prelude.{ℕ, List};
    ghost use Rattle.tg_tree.specs.Links.{risen};

    ghost Value = { List (List ℕ × V) };

    ghost view = { λ m. risen m.by_path.entries };
}

/// What can be copied.
pub trait Copied: Sized + Drop {
    /// An equal value. An `Err` is want of memory.
    fn copied(&self) -> Result<Self, NoMemory>
        ensures { IfOk result (λ c. c ≡ self.now) };
}

impl Copied for () {
    fn copied(&self) -> Result<(), NoMemory> {
        Ok(())
    }
}

impl<V> PathMap<V> {
    /// The map of no path.
    pub fn new(alloc: Global) -> PathMap<V>
        ensures { result ≡ [] }
    {
        PathMap {
            by_path: IndexMap::new(alloc),
        }
    }

    /// How many paths there are.
    pub fn len(&self) -> usize
        ensures { result ≡ length self.now }
    {
        self.by_path.len()
    }

    /// Whether there is no path.
    pub fn is_empty(&self) -> bool
        ensures { result ≡ (length self.now == 0) }
    {
        self.len() == 0
    }

    /// Whether a path is there.
    pub fn contains_key(&self, key: &Key) -> bool
        ensures { result ≡ is_some (lookup (same key.now) self.now) }
    {
        self.by_path.contains_key(key)
    }

    /// The value of a path.
    pub fn get(&self, key: &Key) -> Option<&V>
        ensures { option_copied result ≡ lookup (same key.now) self.now }
    {
        self.by_path.get(key)
    }

    /// Gives a path a value. An `Err` is want of memory.
    pub fn insert(&mut self, key: Key, value: V) -> Result<(), NoMemory>
    where
        V: Drop,
        ensures put { OnOk result (self.new ≡ insert_entry by_bytes self.old key value) }
        // The paths rise.
        ensures rising { Rising self.old }
    {
        self.by_path.insert(key, value)?;
        Ok(())
    }

    /// Takes out a path, and gives its value. It takes no memory.
    pub fn remove(&mut self, key: &Key) -> Option<V>
        ensures rest { self.new ≡ remove_entry (same key.now) self.old }
        ensures value { result ≡ lookup (same key.now) self.old }
        ensures gone { lookup (same key.now) self.new ≡ None }
    {
        self.by_path.swap_remove(key)
    }
}

// Puts a copy of an entry. An `Err` is want of memory.
fn put_copy<V: Copied>(ordered: &mut BTreeMap<Key, V>, key: &Key, value: &V) -> Result<(), NoMemory>
    ensures { OnOk result (ordered.new.entries ≡ insert_entry by_bytes ordered.old.entries key.now value.now) }
{
    ordered.insert(key.copy()?, value.copied()?)?;
    Ok(())
}

impl<V: Copied> PathMap<V> {
    /// A copy in order. An `Err` is want of memory.
    pub fn in_order(&self, alloc: Global) -> Result<BTreeMap<Key, V>, NoMemory>
        ensures { IfOk result (λ m. m.entries ≡ self.now) }
    {
        let by_path = &self.by_path;
        let mut ordered = BTreeMap::new(alloc);
        let len = by_path.len();
        for taken in 0..len {
            let (key, value) = by_path.get_index(len - 1 - taken).unwrap();
            put_copy(&mut ordered, key, value)?;
        }
        Ok(ordered)
    }
}
