//! Trees of paths.

ghost use Rattle.std.specs.Prelude.{◌≡◌, ◌++◌, ◌≤◌, ◌-◌, ◌^◌, true, length, Ok, OnOk};
ghost use Rattle.tg_base.specs.declared.marks.Part.TheVariants as parts;
ghost use Rattle.tg_codec.specs.Reading.{Gives};
ghost use Rattle.tg_codec.specs.Codec.{variant, from_table};
ghost use Rattle.tg_kind.specs.Parts.{part_of};
ghost use Rattle.tg_kind.specs.Texts.{text_format};
ghost use Rattle.tg_tree.specs.Paths.{path_format, IsPath};
ghost use Rattle.tg_tree.specs.Growth.{Grown, ArePaths};
ghost use Rattle.tg_tree.specs.Trees.{is_object, is_state, is_of, first, applied, answered, touched, looked, saved, loaded, state_format, nodes_format, op_format, path_and_text};
ghost use Rattle.tg_tree.specs.declared.tree.TreeOp.TheVariants.{Create, Store, Delete};

use crate::linked::Nodes;
use crate::nodes::{
    children, copied, created, deleted, fresh, has, nodes_in, planted, put_nodes, stored, text_at,
};
use crate::path::{Path, path_in, put_path};
use std::alloc::Global;
use std::marker::Model;
use tg_base::{List, NoMemory, Oid};
use tg_codec::{ReadFault, fixed, u8_in};
use tg_kind::{Key, Kind, KindFault, Scope, Text, in_front, in_whole, put_word, text_in};

/// The tag of trees.
const TAG: u8 = 5;

/// The code of `create`.
const CREATE: u8 = 0x50;

/// The code of `store`.
const STORE: u8 = 0x51;

/// The code of `delete`.
const DELETE: u8 = 0x52;

/// Paths, each with a text or nothing, of which each but `/` has its parent there.
pub struct Tree {
    alloc: Global,
    nodes: Nodes,
}

// By hand, since a derived drop is proved anew wherever a value is dropped.
impl Drop for Tree {
    fn drop(self) {
        let Tree { alloc: _, nodes: _ } = self;
    }
}

impl Model for Tree {
    ghost use Rattle.std.specs.Prelude.{◌≡◌, true};
    ghost use Rattle.tg_tree.specs.Trees.{Nodes as Shown, state_format};

    ghost Value = { Shown };

    ghost view = { λ t. t.nodes };

    ghost invariant = { λ t. state_format.fits t.nodes ≡ true };
}

/// What changes a tree.
#[derive(Drop)]
pub enum TreeOp {
    /// Adds a path with a text. It changes nothing where the path is there or its parent isn't.
    Create { path: Path, text: Text },
    /// The path holds the text. It changes nothing where the path isn't there.
    Store { path: Path, text: Text },
    /// Removes a path. It changes nothing where the path isn't there, is `/`, or has a child.
    Delete { path: Path },
}

/// What looks at a tree.
#[derive(Drop)]
pub enum TreeAsk {
    /// The text that the path holds.
    Data { path: Path },
    /// Whether the path is there.
    Has { path: Path },
    /// The last names of the path's children, by bytes.
    Children { path: Path },
}

/// What an ask of a tree is answered.
#[derive(Drop)]
pub enum TreeAns {
    Data(Option<Text>),
    Has(bool),
    Children(List<Text>),
}

fn tree_in(alloc: Global, bytes: &[u8]) -> Result<(Tree, &[u8]), ReadFault>
    ensures { Gives (λ x. (x.0, x.1.now)) result (state_format.read bytes.now) }
{
    let ((), rest) = fixed(&[TAG], bytes)?;
    let (ordered, rest) = nodes_in(alloc, rest)?;
    let nodes = planted(alloc, ordered)?;
    Ok((Tree { alloc, nodes }, rest))
}

fn pair_in(alloc: Global, bytes: &[u8]) -> Result<((Path, Text), &[u8]), ReadFault>
    ensures { Gives (λ x. (x.0, x.1.now)) result (path_and_text.read bytes.now) }
{
    let (path, rest) = path_in(alloc, bytes)?;
    let (text, rest) = text_in(alloc, rest)?;
    Ok(((path, text), rest))
}

fn op_in(alloc: Global, bytes: &[u8]) -> Result<(TreeOp, &[u8]), ReadFault>
    ensures { Gives (λ x. (x.0, x.1.now)) result (op_format.read bytes.now) }
{
    let (code, rest) = u8_in(&[(80, 82)], bytes)?;
    match code {
        CREATE => {
            let ((path, text), rest) = pair_in(alloc, rest)?;
            Ok((TreeOp::Create { path, text }, rest))
        }
        STORE => {
            let ((path, text), rest) = pair_in(alloc, rest)?;
            Ok((TreeOp::Store { path, text }, rest))
        }
        _ => {
            let (path, rest) = path_in(alloc, rest)?;
            Ok((TreeOp::Delete { path }, rest))
        }
    }
}

// Puts the bytes of an op last. An `Err` is want of memory.
fn put(op: &TreeOp, out: &mut List<u8>) -> Result<(), NoMemory>
    ensures { OnOk result (out.new ≡ out.old ++ op_format.spell op.now) }
{
    match op {
        TreeOp::Create { path, text } => {
            out.push(CREATE)?;
            put_path(path, out)?;
            put_word(text, out)
        }
        TreeOp::Store { path, text } => {
            out.push(STORE)?;
            put_path(path, out)?;
            put_word(text, out)
        }
        TreeOp::Delete { path } => {
            out.push(DELETE)?;
            put_path(path, out)
        }
    }
}

impl Kind for Tree {
    type Op = TreeOp;

    type Ask = TreeAsk;

    type Ans = TreeAns;

    ghost is_object = { is_object };

    ghost is_state = { is_state };

    ghost is_op = { op_format.fits };

    ghost is_of = { is_of };

    ghost first = { first };

    ghost applied = { applied };

    ghost answered = { answered };

    ghost touched = { touched };

    ghost looked = { looked };

    ghost saved = { saved };

    ghost loaded = { loaded };

    ghost spelled = { op_format.spell };

    ghost read = { op_format.read };

    fn fresh(alloc: Global, _oid: Oid, _objects: &[Oid]) -> Result<Tree, NoMemory> {
        let nodes = fresh(alloc)?;
        Ok(Tree { alloc, nodes })
    }

    fn apply(self, op: &TreeOp) -> Result<Tree, NoMemory> {
        let Tree { alloc, nodes } = self;
        match op {
            TreeOp::Create { path, text } => {
                let (_path, _text) = (path.as_str(), text.as_str());
                let nodes = created(alloc, nodes, path, text)?;
                Ok(Tree { alloc, nodes })
            }
            TreeOp::Store { path, text } => {
                let _text = text.as_str();
                let nodes = stored(nodes, path, text)?;
                Ok(Tree { alloc, nodes })
            }
            TreeOp::Delete { path } => {
                let nodes = deleted(alloc, nodes, path)?;
                Ok(Tree { alloc, nodes })
            }
        }
    }

    fn ask(&self, alloc: Global, ask: &TreeAsk) -> Result<TreeAns, NoMemory> {
        match ask {
            TreeAsk::Data { path } => Ok(TreeAns::Data(text_at(&self.nodes, path)?)),
            TreeAsk::Has { path } => Ok(TreeAns::Has(has(&self.nodes, path)?)),
            TreeAsk::Children { path } => {
                Ok(TreeAns::Children(children(alloc, &self.nodes, path)?))
            }
        }
    }

    fn touch(op: &TreeOp) -> Scope<'_> {
        match op {
            TreeOp::Create { path, text } => {
                let _known = text.as_str();
                Scope::One(Key::Text(path.as_str()))
            }
            TreeOp::Store { path, text } => {
                let _known = text.as_str();
                Scope::One(Key::Text(path.as_str()))
            }
            TreeOp::Delete { path } => Scope::One(Key::Text(path.as_str())),
        }
    }

    fn look(ask: &TreeAsk) -> Scope<'_> {
        match ask {
            TreeAsk::Data { path } => Scope::One(Key::Text(path.as_str())),
            TreeAsk::Has { path } => Scope::One(Key::Text(path.as_str())),
            TreeAsk::Children { path: _ } => Scope::All,
        }
    }

    fn save(&self, alloc: Global) -> Result<List<u8>, NoMemory> {
        let mut bytes = List::new(alloc);
        bytes.push(TAG)?;
        put_nodes(alloc, &self.nodes, &mut bytes)?;
        Ok(bytes)
    }

    fn load(alloc: Global, _oid: Oid, bytes: &[u8]) -> Result<Tree, KindFault> {
        in_whole(bytes, tree_in(alloc, bytes))
    }

    fn put_op(alloc: Global, op: &TreeOp, out: &mut List<u8>) -> Result<(), NoMemory> {
        let mut spelling = List::new(alloc);
        put(op, &mut spelling)?;
        out.extend(spelling.as_slice())
    }

    fn get_op(alloc: Global, bytes: &[u8]) -> Result<(TreeOp, usize), KindFault> {
        in_front(bytes, op_in(alloc, bytes))
    }

    fn copy(&self) -> Result<Tree, NoMemory> {
        let alloc = self.alloc;
        let nodes = copied(alloc, &self.nodes)?;
        Ok(Tree { alloc, nodes })
    }

    fn copy_op(op: &TreeOp) -> Result<TreeOp, NoMemory> {
        match op {
            TreeOp::Create { path, text } => Ok(TreeOp::Create {
                path: path.copy()?,
                text: text.copy()?,
            }),
            TreeOp::Store { path, text } => Ok(TreeOp::Store {
                path: path.copy()?,
                text: text.copy()?,
            }),
            TreeOp::Delete { path } => Ok(TreeOp::Delete { path: path.copy()? }),
        }
    }

    fn copy_ask(ask: &TreeAsk) -> Result<TreeAsk, NoMemory> {
        match ask {
            TreeAsk::Data { path } => Ok(TreeAsk::Data { path: path.copy()? }),
            TreeAsk::Has { path } => Ok(TreeAsk::Has { path: path.copy()? }),
            TreeAsk::Children { path } => Ok(TreeAsk::Children { path: path.copy()? }),
        }
    }

    ghost use Rattle.tg_tree.specs.TreeLaws as laws;

    ghost first_is = { laws.first_is };

    ghost applied_is = { laws.applied_is };

    ghost other_kind = { laws.other_kind };

    ghost touched_is = { laws.touched_is };

    ghost apart = { laws.apart };

    ghost loads_saved = { laws.loads_saved };

    ghost loads_only = { laws.loads_only };

    ghost reads_spelled = { laws.reads_spelled };

    ghost reads_only = { laws.reads_only };

    ghost spelled_some = { laws.spelled_some };

    ghost no_front = { laws.no_front_law };
}
