//! The nodes of a tree by path.

ghost use Rattle.std.specs.Prelude.{◌≡◌, ◌≤◌, ◌++◌, ◌∷◌, [], ◌^◌, ◌-◌, List, Option, None, ℕ, true, false, length, IfOk, OnOk};
ghost use Rattle.std.specs.Map.{lookup};
ghost use Rattle.std.specs.BTreeMap.{insert_entry};
ghost use Rattle.tg_codec.specs.Reading.{Gives};
ghost use Rattle.tg_codec.specs.Codec.{only_if, read_many, spell_many};
ghost use Rattle.tg_kind.specs.Texts.{text_format};
ghost use Rattle.tg_kind.specs.Words.{maybe};
ghost use Rattle.tg_tree.specs.Paths.{root, by_bytes, same, parent, last_name, path_format, IsPath};
ghost use Rattle.tg_tree.specs.Growth.{Grown, ArePaths, back, name_of};
ghost use Rattle.tg_tree.specs.Links.{names_of, AllPaths};
ghost use Rattle.tg_tree.specs.Trees.{is_there, is_child, is_next, node_format, after_node, count_format, nodes_format, created, stored, deleted, children, held};

use crate::key::Key;
use crate::linked::Nodes;
use crate::path::{Path, path_in};
use crate::path_map::Copied;
use std::alloc::Global;
use std::collections::BTreeMap;
use tg_base::{List, NoMemory};
use tg_codec::{ReadFault, put_text, put_u32, u8_in, u32_in};
use tg_kind::{Text, put_word, text_in};

/// Nodes in order: a text or nothing, by path.
type Ordered = BTreeMap<Key, Option<Text>>;

/// The most nodes that a tree has.
const MOST: usize = 0xffff_ffff;

/// The root with nothing. An `Err` is want of memory.
pub fn fresh(alloc: Global) -> Result<Nodes, NoMemory>
    ensures { IfOk result (λ m. m ≡ (root, None) ∷ []) }
{
    Nodes::new(alloc).add(alloc, Key::root(alloc)?, None)
}

// ---- asks

/// Whether a path is there. An `Err` is want of memory.
pub fn has(nodes: &Nodes, path: &Path) -> Result<bool, NoMemory>
    ensures { IfOk result (λ b. b ≡ is_there nodes.now path.now) }
{
    let key = Key::new(path.copy()?);
    Ok(nodes.contains_key(&key))
}

/// The text that a path holds, if it is there and holds one. An `Err` is want of memory.
pub fn text_at(nodes: &Nodes, path: &Path) -> Result<Option<Text>, NoMemory>
    ensures { IfOk result (λ t. t ≡ held (lookup (same path.now) nodes.now)) }
{
    let key = Key::new(path.copy()?);
    match nodes.get(&key) {
        None => Ok(None),
        Some(held) => Ok(held.copied()?),
    }
}

// Whether a path is a child of another. It takes no memory.
fn is_child(parent: &Key, key: &Key) -> bool
    ensures { result ≡ is_child parent.now key.now }
{
    !key.is_root() && parent.is(key.parent_slice())
}

// What stands behind a path's last slash. An `Err` is want of memory.
fn last_name(alloc: Global, key: &Key) -> Result<Text, NoMemory>
    requires path { IsPath key.now }
    requires other { same root key.now ≡ false }
    ensures { IfOk result (λ t. t ≡ last_name key.now) }
{
    let name = str::from_utf8(key.name_slice()).unwrap();
    Ok(Text::of(alloc, name)?.unwrap())
}

// Puts the last name of a path last, where the path is a child of another. An `Err` is want of memory.
fn put_name(alloc: Global, parent: &Key, key: &Key, names: &mut List<Text>) -> Result<(), NoMemory>
    requires { IsPath key.now }
    ensures { OnOk result (names.new ≡ names.old ++ name_of parent.now key.now) }
{
    if !is_child(parent, key) {
        return Ok(());
    }
    let name = last_name(alloc, key)?;
    names.push(name)
}

// The last names of those paths that are children of another. An `Err` is want of memory.
fn names_of(alloc: Global, parent: &Key, paths: &BTreeMap<Key, ()>) -> Result<List<Text>, NoMemory>
    requires { AllPaths paths.now.entries }
    ensures { IfOk result (λ names. names ≡ names_of parent.now paths.now.entries) }
{
    let mut names = List::new(alloc);
    for (key, _) in paths {
        put_name(alloc, parent, key, &mut names)?;
    }
    Ok(names)
}

/// The last names of a path's children, by bytes. An `Err` is want of memory.
pub fn children(alloc: Global, nodes: &Nodes, path: &Path) -> Result<List<Text>, NoMemory>
    requires { ArePaths nodes.now }
    ensures { IfOk result (λ names. names ≡ children nodes.now path.now) }
{
    let parent = Key::new(path.copy()?);
    if !nodes.contains_key(&parent) {
        return Ok(List::new(alloc));
    }
    let paths = nodes.children(alloc, &parent)?;
    let names = names_of(alloc, &parent, &paths)?;
    Ok(names)
}

// ---- ops

/// The nodes with a new path. An `Err` is want of memory.
pub fn created(alloc: Global, nodes: Nodes, path: &Path, text: &Text) -> Result<Nodes, NoMemory>
    ensures { IfOk result (λ m. m ≡ created nodes path.now text.now) }
{
    let key = Key::new(path.copy()?);
    let parent = Key::new(path.copy()?).parent();
    if nodes.contains_key(&key) || !nodes.contains_key(&parent) || nodes.len() >= MOST {
        return Ok(nodes);
    }
    let nodes = nodes.add(alloc, key, Some(text.copy()?))?;
    Ok(nodes)
}

/// The nodes after a path was given a text. An `Err` is want of memory.
pub fn stored(nodes: Nodes, path: &Path, text: &Text) -> Result<Nodes, NoMemory>
    ensures { IfOk result (λ m. m ≡ stored nodes path.now text.now) }
{
    let key = Key::new(path.copy()?);
    if !nodes.contains_key(&key) {
        return Ok(nodes);
    }
    let nodes = nodes.put(key, text.copy()?)?;
    Ok(nodes)
}

/// The nodes without a path. An `Err` is want of memory.
pub fn deleted(alloc: Global, nodes: Nodes, path: &Path) -> Result<Nodes, NoMemory>
    ensures { IfOk result (λ m. m ≡ deleted nodes path.now) }
{
    let key = Key::new(path.copy()?);
    if key.is_root() || nodes.has_child(&key) {
        return Ok(nodes);
    }
    let nodes = nodes.remove(alloc, &key)?;
    Ok(nodes)
}

// ---- reading

// Whether a path comes next after some nodes, and then it stands behind them. An `Err` is want of memory.
fn is_next(nodes: &Ordered, key: &Key) -> Result<bool, NoMemory>
    ensures next { IfOk result (λ b. b ≡ is_next (back [] nodes.now.entries) key.now) }
    ensures last { IfOk result (λ b. b ≡ true → (t : Option (List ℕ)) → insert_entry by_bytes nodes.now.entries key.now t ≡ nodes.now.entries ++ (key.now, t) ∷ []) }
{
    match nodes.last_key_value() {
        None => Ok(key.is_root()),
        Some((last, _)) => {
            if !last.is_below(key) {
                return Ok(false);
            }
            let parent = key.copy()?.parent();
            Ok(nodes.contains_key(&parent))
        }
    }
}

// The path of a node after some nodes.
fn key_in<'a>(alloc: Global, nodes: &Ordered, bytes: &'a [u8]) -> Result<(Key, &'a [u8]), ReadFault>
    ensures exact { Gives (λ x. (x.0, x.1.now)) result ((only_if (is_next (back [] nodes.now.entries)) path_format).read bytes.now) }
    ensures last { IfOk result (λ x. (t : Option (List ℕ)) → insert_entry by_bytes nodes.now.entries x.0 t ≡ nodes.now.entries ++ (x.0, t) ∷ []) }
{
    let (path, rest) = path_in(alloc, bytes)?;
    let key = Key::new(path);
    if !is_next(nodes, &key)? {
        return Err(ReadFault::Stop { left: bytes.len() });
    }
    Ok((key, rest))
}

fn held_in(alloc: Global, bytes: &[u8]) -> Result<(Option<Text>, &[u8]), ReadFault>
    ensures { Gives (λ x. (x.0, x.1.now)) result ((maybe text_format).read bytes.now) }
{
    let (tag, rest) = u8_in(&[(0, 1)], bytes)?;
    if tag == 0 {
        return Ok((None, rest));
    }
    let (text, rest) = text_in(alloc, rest)?;
    Ok((Some(text), rest))
}

// A node after some nodes.
fn node_in<'a>(
    alloc: Global,
    nodes: &Ordered,
    bytes: &'a [u8],
) -> Result<((Key, Option<Text>), &'a [u8]), ReadFault>
    ensures exact { Gives (λ x. (x.0, x.1.now)) result ((node_format (back [] nodes.now.entries)).read bytes.now) }
    ensures last { IfOk result (λ x. insert_entry by_bytes nodes.now.entries x.0.0 x.0.1 ≡ nodes.now.entries ++ x.0 ∷ []) }
{
    let (key, rest) = key_in(alloc, nodes, bytes)?;
    let (held, rest) = held_in(alloc, rest)?;
    Ok(((key, held), rest))
}

// So many nodes.
fn many_in(alloc: Global, count: u32, bytes: &[u8]) -> Result<(Ordered, &[u8]), ReadFault>
    ensures { Gives (λ x. (x.0.entries, x.1.now)) result (read_many node_format after_node count [] bytes.now) }
{
    let mut nodes = BTreeMap::new(alloc);
    let mut rest = bytes;
    for _ in 0..count {
        let ((key, held), after) = node_in(alloc, &nodes, rest)?;
        nodes.insert(key, held)?;
        rest = after;
    }
    Ok((nodes, rest))
}

// How many nodes.
fn count_in(bytes: &[u8]) -> Result<(u32, &[u8]), ReadFault>
    ensures { Gives (λ x. (x.0, x.1.now)) result (count_format.read bytes.now) }
{
    let (count, rest) = u32_in(&[(0, u64::MAX)], bytes)?;
    if count == 0 {
        return Err(ReadFault::Stop { left: bytes.len() });
    }
    Ok((count, rest))
}

/// Nodes in order, behind their count.
pub fn nodes_in(alloc: Global, bytes: &[u8]) -> Result<(Ordered, &[u8]), ReadFault>
    ensures { Gives (λ x. (x.0.entries, x.1.now)) result (nodes_format.read bytes.now) }
{
    let (count, rest) = count_in(bytes)?;
    let (nodes, rest) = many_in(alloc, count, rest)?;
    Ok((nodes, rest))
}

// ---- writing

fn put_held(held: &Option<Text>, out: &mut List<u8>) -> Result<(), NoMemory>
    ensures { OnOk result (out.new ≡ out.old ++ (maybe text_format).spell held.now) }
{
    match held {
        None => out.push(0),
        Some(text) => {
            out.push(1)?;
            put_word(text, out)
        }
    }
}

fn put_node(key: &Key, held: &Option<Text>, out: &mut List<u8>) -> Result<(), NoMemory>
    requires { IsPath key.now }
    ensures { OnOk result (out.new ≡ out.old ++ (path_format.spell key.now ++ (maybe text_format).spell held.now)) }
{
    put_text(key.as_slice(), out)?;
    put_held(held, out)
}

fn put_many(nodes: &Ordered, out: &mut List<u8>) -> Result<(), NoMemory>
    requires { ArePaths nodes.now.entries }
    ensures { OnOk result (out.new ≡ out.old ++ spell_many node_format after_node [] nodes.now.entries) }
{
    for (key, held) in nodes {
        put_node(key, held, out)?;
    }
    Ok(())
}

// Puts nodes in order last, behind their count.
fn put_ordered(nodes: &Ordered, out: &mut List<u8>) -> Result<(), NoMemory>
    requires paths { ArePaths nodes.now.entries }
    requires few { length nodes.now.entries ≤ 2 ^ 32 - 1 }
    ensures { OnOk result (out.new ≡ out.old ++ nodes_format.spell nodes.now.entries) }
{
    put_u32(nodes.len() as u32, out)?;
    put_many(nodes, out)
}

/// Puts the nodes last, behind their count.
pub fn put_nodes(alloc: Global, nodes: &Nodes, out: &mut List<u8>) -> Result<(), NoMemory>
    requires paths { ArePaths nodes.now }
    requires few { length nodes.now ≤ 2 ^ 32 - 1 }
    ensures { OnOk result (out.new ≡ out.old ++ nodes_format.spell nodes.now) }
{
    let ordered = nodes.in_order(alloc)?;
    put_ordered(&ordered, out)
}

// ---- copies

/// The nodes that stand in this order. An `Err` is want of memory.
pub fn planted(alloc: Global, ordered: Ordered) -> Result<Nodes, NoMemory>
    requires { Grown [] ordered.entries }
    ensures { IfOk result (λ m. m ≡ ordered.entries) }
{
    let mut nodes = Nodes::new(alloc);
    for (key, held) in ordered {
        nodes = nodes.add(alloc, key, held)?;
    }
    Ok(nodes)
}

/// Equal nodes. An `Err` is want of memory.
pub fn copied(alloc: Global, nodes: &Nodes) -> Result<Nodes, NoMemory>
    requires { Grown [] nodes.now }
    ensures { IfOk result (λ m. m ≡ nodes.now) }
{
    let ordered = nodes.in_order(alloc)?;
    let copy = planted(alloc, ordered)?;
    Ok(copy)
}
