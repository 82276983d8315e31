//! Ops on maps, sets and trees, whose keys come in a scrambled order. An object isn't freed: to free its parts is no op.

ghost use Rattle.std.specs.Prelude.{◌≡◌, ◌<◌, ◌≤◌, IfOk, length, if◌then◌else◌};
ghost use Rattle.tg_tree.specs.Trees.{is_there};
ghost use Rattle.bench_costs.specs.Rows.{setting, including, creating, map_after, set_after, tree_after};
ghost use Rattle.bench_costs.specs.Workloads.{members, got};

use crate::fault::Fault;
use crate::row::{Row, after_ops};
use crate::words::{key, path, scrambled, value};
use std::alloc::Global;
use std::mem;
use tg_base::Oid;
use tg_kind::Kind;
use tg_map::{Map, MapAns, MapAsk, MapOp};
use tg_set::{Set, SetAns, SetAsk, SetOp};
use tg_tree::{Path, Tree, TreeAns, TreeAsk, TreeOp};

const MAP: Oid = Oid(0x0300_0000);

const TREE: Oid = Oid(0x0500_0000);

const SET: Oid = Oid(0x0600_0000);

/// Sets keys.
struct Setting;

impl Row<Map> for Setting {
    ghost op_at = { setting };

    fn op(alloc: Global, count: u32, place: u32) -> Result<MapOp, Fault> {
        let number = scrambled(count, place);
        let key = key(alloc, number)?;
        let value = value(alloc, number)?;
        Ok(MapOp::Set { key, value })
    }
}

/// Includes numbers.
struct Including;

impl Row<Set> for Including {
    ghost op_at = { including };

    fn op(_alloc: Global, count: u32, place: u32) -> Result<SetOp, Fault> {
        let number = u64::from(scrambled(count, place));
        Ok(SetOp::Include { number })
    }
}

/// Creates children of the root.
struct Creating;

impl Row<Tree> for Creating {
    ghost op_at = { creating };

    fn op(alloc: Global, count: u32, place: u32) -> Result<TreeOp, Fault> {
        let number = scrambled(count, place);
        let path = path(alloc, number)?;
        let text = value(alloc, number)?;
        Ok(TreeOp::Create { path, text })
    }
}

/// A map's size after setting so many keys.
pub fn map(alloc: Global, count: u32) -> Result<u64, Fault>
    ensures { IfOk result (λ n. n ≡ length (map_after count)) }
{
    let map = Map::fresh(alloc, MAP, &[])?;
    let map = after_ops::<Map, Setting>(alloc, map, count)?;
    let answer = map.ask(alloc, &MapAsk::Size)?;
    mem::forget(map);
    match answer {
        MapAns::Number(size) => Ok(size),
        _ => unreachable!(),
    }
}

/// How many numbers a set has after including so many.
pub fn set(alloc: Global, count: u32) -> Result<u64, Fault>
    ensures { IfOk result (λ n. n ≡ members (set_after count)) }
{
    let set = Set::fresh(alloc, SET, &[])?;
    let set = after_ops::<Set, Including>(alloc, set, count)?;
    let ask = SetAsk::Count {
        low: 0,
        high: u64::MAX,
    };
    let answer = set.ask(alloc, &ask)?;
    mem::forget(set);
    match answer {
        SetAns::Count(size) => Ok(size),
        _ => unreachable!(),
    }
}

/// How many of so many paths are there after creating them.
pub fn tree(alloc: Global, count: u32) -> Result<u64, Fault>
    ensures { IfOk result (λ n. n ≡ got (tree_after count) count count) }
{
    let tree = Tree::fresh(alloc, TREE, &[])?;
    let tree = after_ops::<Tree, Creating>(alloc, tree, count)?;
    let got = got(alloc, &tree, count)?;
    mem::forget(tree);
    Ok(got)
}

// How many of so many paths, asked for one by one, are there.
fn got(alloc: Global, tree: &Tree, count: u32) -> Result<u64, Fault>
    ensures { IfOk result (λ n. n ≡ got tree.now count count) }
{
    let mut sum: u64 = 0;
    for place in 0..count {
        let path = path(alloc, scrambled(count, place))?;
        let found = found(alloc, tree, path)?;
        sum += found;
    }
    Ok(sum)
}

// 1 where a path is there, and else 0.
fn found(alloc: Global, tree: &Tree, path: Path) -> Result<u64, Fault>
    ensures value { IfOk result (λ n. n ≡ (if is_there tree.now path then 1 else 0)) }
    ensures most { IfOk result (λ n. n ≤ 1) }
{
    match tree.ask(alloc, &TreeAsk::Has { path })? {
        TreeAns::Has(true) => Ok(1),
        TreeAns::Has(false) => Ok(0),
        _ => unreachable!(),
    }
}
