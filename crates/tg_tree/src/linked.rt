//! The nodes of a tree in tables: what each path holds, and the children of each.

ghost use Rattle.std.specs.Prelude.{◌≡◌, true, [], length, None, Some, IfOk, OnOk};
ghost use Rattle.std.specs.Option.{option_copied};
ghost use Rattle.std.specs.Map.{lookup, set_value, remove_entry};
ghost use Rattle.std.specs.BTreeMap.{insert_entry};
ghost use Rattle.tg_tree.specs.Paths.{by_bytes, same};
ghost use Rattle.tg_tree.specs.Trees.{is_there, has_child};
ghost use Rattle.tg_tree.specs.Links.{set_at, children_of, IsAdopted, IsReleased};

use crate::key::Key;
use crate::path_map::{Copied, PathMap};
use std::alloc::Global;
use std::collections::BTreeMap;
use std::marker::Model;
use tg_base::NoMemory;
use tg_kind::Text;

/// Paths.
type PathSet = PathMap<()>;

impl Copied for Option<Text> {
    fn copied(&self) -> Result<Option<Text>, NoMemory> {
        match self {
            None => Ok(None),
            Some(text) => Ok(Some(text.copy()?)),
        }
    }
}

/// A text or nothing, by path, with the children of each path that has any.
pub struct Nodes {
    held: PathMap<Option<Text>>,
    children: PathMap<PathSet>,
}

// By hand, since a derived drop is proved anew wherever a value is dropped.
impl Drop for Nodes {
    fn drop(self) {
        let Nodes {
            held: _,
            children: _,
        } = self;
    }
}

impl Model for Nodes {
    ghost use Rattle.tg_tree.specs.Trees.{Nodes as Shown};
    ghost use Rattle.tg_tree.specs.Links.{IsLinked};

    ghost Value = { Shown };

    ghost view = { λ n. n.held };

    ghost invariant = { λ n. IsLinked n.held n.children };
}

// Takes out the children of a path. It takes no memory.
fn taken(alloc: Global, children: &mut PathMap<PathSet>, parent: &Key) -> PathSet
    ensures rest { children.new ≡ remove_entry (same parent.now) children.old }
    ensures set { result ≡ set_at children.old parent.now }
    ensures gone { lookup (same parent.now) children.new ≡ None }
{
    match children.remove(parent) {
        None => PathMap::new(alloc),
        Some(siblings) => siblings,
    }
}

// Puts a path, other than the root, among its parent's children. An `Err` is want of memory.
fn adopt(alloc: Global, children: &mut PathMap<PathSet>, key: &Key) -> Result<(), NoMemory>
    ensures { OnOk result (IsAdopted key.now children.old children.new) }
{
    if key.is_root() {
        return Ok(());
    }
    let parent = key.copy()?.parent();
    let mut siblings = taken(alloc, children, &parent);
    siblings.insert(key.copy()?, ())?;
    children.insert(parent, siblings)?;
    Ok(())
}

// Takes a path, other than the root, out of its parent's children. An `Err` is want of memory.
fn release(alloc: Global, children: &mut PathMap<PathSet>, key: &Key) -> Result<(), NoMemory>
    ensures { OnOk result (IsReleased key.now children.old children.new) }
{
    if key.is_root() {
        return Ok(());
    }
    let parent = key.copy()?.parent();
    let mut siblings = taken(alloc, children, &parent);
    siblings.remove(key);
    if siblings.is_empty() {
        return Ok(());
    }
    children.insert(parent, siblings)?;
    Ok(())
}

impl Nodes {
    /// No nodes.
    pub fn new(alloc: Global) -> Nodes
        ensures { result ≡ [] }
    {
        Nodes {
            held: PathMap::new(alloc),
            children: PathMap::new(alloc),
        }
    }

    /// How many nodes there are.
    pub fn len(&self) -> usize
        ensures { result ≡ length self.now }
    {
        self.held.len()
    }

    /// Whether a path is there.
    pub fn contains_key(&self, key: &Key) -> bool
        ensures { result ≡ is_there self.now key.now }
    {
        self.held.contains_key(key)
    }

    /// What a path holds, if it is there.
    pub fn get(&self, key: &Key) -> Option<&Option<Text>>
        ensures { option_copied result ≡ lookup (same key.now) self.now }
    {
        self.held.get(key)
    }

    /// Whether a path has a child. It takes no memory.
    pub fn has_child(&self, key: &Key) -> bool
        ensures { result ≡ has_child self.now key.now }
    {
        match self.children.get(key) {
            None => false,
            Some(paths) => !paths.is_empty(),
        }
    }

    /// The children of a path, in order. An `Err` is want of memory.
    pub fn children(&self, alloc: Global, key: &Key) -> Result<BTreeMap<Key, ()>, NoMemory>
        ensures { IfOk result (λ m. m.entries ≡ children_of key.now self.now) }
    {
        match self.children.get(key) {
            None => Ok(BTreeMap::new(alloc)),
            Some(paths) => Ok(paths.in_order(alloc)?),
        }
    }

    /// A copy in order. An `Err` is want of memory.
    pub fn in_order(&self, alloc: Global) -> Result<BTreeMap<Key, Option<Text>>, NoMemory>
        ensures { IfOk result (λ m. m.entries ≡ self.now) }
    {
        self.held.in_order(alloc)
    }

    /// The nodes with one more. An `Err` is want of memory.
    pub fn add(self, alloc: Global, key: Key, text: Option<Text>) -> Result<Nodes, NoMemory>
        ensures { IfOk result (λ n. n ≡ insert_entry by_bytes self key text) }
    {
        let Nodes {
            mut held,
            mut children,
        } = self;
        adopt(alloc, &mut children, &key)?;
        held.insert(key, text)?;
        Ok(Nodes { held, children })
    }

    /// The nodes after one was given a text. An `Err` is want of memory.
    pub fn put(self, key: Key, text: Text) -> Result<Nodes, NoMemory>
        requires { is_there self key ≡ true }
        ensures { IfOk result (λ n. n ≡ set_value (same key) self (Some text)) }
    {
        let Nodes { mut held, children } = self;
        held.insert(key, Some(text))?;
        Ok(Nodes { held, children })
    }

    /// The nodes without one. An `Err` is want of memory.
    pub fn remove(self, alloc: Global, key: &Key) -> Result<Nodes, NoMemory>
        ensures { IfOk result (λ n. n ≡ remove_entry (same key.now) self) }
    {
        let Nodes {
            mut held,
            mut children,
        } = self;
        release(alloc, &mut children, key)?;
        held.remove(key);
        Ok(Nodes { held, children })
    }
}
