//! What each kind answers once its state was saved and loaded, through functions that know no kind.

ghost use Rattle.std.specs.Prelude.{◌≡◌, true, [], Some, IfOk, pos, codes, string_bytes};
ghost use Rattle.bench_costs.specs.Printed.{shown, yes_or_no};

use crate::fault::Fault;
use crate::words::{path_of, text};
use std::alloc::Global;
use tg_base::{NoMemory, Oid};
use tg_cell::{
    Counter, CounterAns, CounterAsk, CounterOp, Register, RegisterAns, RegisterAsk, RegisterOp,
};
use tg_kind::{Kind, KindFault, Text};
use tg_list::{TextList, TextListAns, TextListAsk, TextListOp};
use tg_map::{Map, MapAns, MapAsk, MapOp};
use tg_set::{Set, SetAns, SetAsk, SetOp};
use tg_tree::{Tree, TreeAns, TreeAsk, TreeOp};

// The state of an object, saved and loaded. What was saved always loads, so that an `Err` is want of memory.
fn reloaded<K: Kind>(alloc: Global, oid: Oid, state: &K) -> Result<K, NoMemory>
    requires state { K.is_state oid state.now ≡ true }
    requires object { K.is_object oid ≡ true }
    ensures { IfOk result (λ s. s ≡ state.now) }
{
    let bytes = state.save(alloc)?;
    match K::load(alloc, oid, bytes.as_slice()) {
        Ok(loaded) => Ok(loaded),
        Err(KindFault::NoMemory) => Err(NoMemory),
        Err(KindFault::BadBytes { at: _ }) => unreachable!(),
    }
}

// The answer to an ask after an op on a new object, whose state was saved and loaded. An `Err` is want of memory.
fn replayed<K: Kind>(alloc: Global, oid: Oid, op: &K::Op, ask: &K::Ask) -> Result<K::Ans, NoMemory>
    requires { K.is_object oid ≡ true }
    ensures { IfOk result (λ a. a ≡ K.answered (K.applied (K.first oid []) op.now) ask.now) }
{
    let _known = K::touch(op);
    let state = K::fresh(alloc, oid, &[])?.apply(op)?;
    let loaded = reloaded(alloc, oid, &state)?;
    loaded.ask(alloc, ask)
}

fn counter(alloc: Global) -> Result<i64, Fault>
    ensures { IfOk result (λ n. n ≡ pos 5) }
{
    let op = CounterOp::Add { by: 5 };
    let ask = CounterAsk::Value;
    let CounterAns::Number(value) = replayed::<Counter>(alloc, Oid(0x0100_0000), &op, &ask)?;
    Ok(value)
}

fn register(alloc: Global) -> Result<Option<Text>, Fault>
    ensures { IfOk result (λ t. t ≡ Some (codes "a")) }
{
    let op = RegisterOp::Write {
        text: text(alloc, "a")?,
    };
    let ask = RegisterAsk::Text;
    let RegisterAns::Held(held) = replayed::<Register>(alloc, Oid(0x0200_0000), &op, &ask)?;
    Ok(held)
}

fn map(alloc: Global) -> Result<Option<Text>, Fault>
    ensures { IfOk result (λ t. t ≡ Some (codes "b")) }
{
    let op = MapOp::Set {
        key: text(alloc, "k")?,
        value: text(alloc, "b")?,
    };
    let ask = MapAsk::Get {
        key: text(alloc, "k")?,
    };
    match replayed::<Map>(alloc, Oid(0x0300_0000), &op, &ask)? {
        MapAns::Value(value) => Ok(value),
        _ => unreachable!(),
    }
}

fn list(alloc: Global) -> Result<Option<Text>, Fault>
    ensures { IfOk result (λ t. t ≡ Some (codes "c")) }
{
    let op = TextListOp::PushBack {
        text: text(alloc, "c")?,
    };
    let ask = TextListAsk::At { at: 0 };
    match replayed::<TextList>(alloc, Oid(0x0400_0000), &op, &ask)? {
        TextListAns::Item(text) => Ok(text),
        _ => unreachable!(),
    }
}

fn tree(alloc: Global) -> Result<Option<Text>, Fault>
    ensures { IfOk result (λ t. t ≡ Some (codes "d")) }
{
    let op = TreeOp::Create {
        path: path_of(alloc, "/p")?,
        text: text(alloc, "d")?,
    };
    let ask = TreeAsk::Data {
        path: path_of(alloc, "/p")?,
    };
    match replayed::<Tree>(alloc, Oid(0x0500_0000), &op, &ask)? {
        TreeAns::Data(data) => Ok(data),
        _ => unreachable!(),
    }
}

fn set(alloc: Global) -> Result<bool, Fault>
    ensures { IfOk result (λ b. b ≡ true) }
{
    let op = SetOp::Include { number: 7 };
    let ask = SetAsk::Member { number: 7 };
    match replayed::<Set>(alloc, Oid(0x0600_0000), &op, &ask)? {
        SetAns::Member(member) => Ok(member),
        _ => unreachable!(),
    }
}

// A text that may be missing, as an answer.
fn shown(alloc: Global, text: Option<Text>) -> Result<String, Fault>
    ensures { IfOk result (λ s. string_bytes s ≡ shown text) }
{
    match text {
        None => Ok(String::from_str(alloc, "none")?),
        Some(text) => {
            let text = text.as_str();
            Ok(format!(in alloc; "some {text}")?)
        }
    }
}

fn yes_or_no(yes: bool) -> &'static str
    ensures { result.now ≡ yes_or_no yes }
{
    if yes { "yes" } else { "no" }
}

/// What a new object of each kind answers after an op, as it is printed.
#[derive(Drop)]
pub struct Lines {
    pub counter: i64,
    pub register: String,
    pub map: String,
    pub list: String,
    pub tree: String,
    pub set: &'static str,
}

/// What a new object of each kind answers after an op. An `Err` is want of memory.
pub fn answers(alloc: Global) -> Result<Lines, Fault>
    ensures counter { IfOk result (λ a. a.counter ≡ pos 5) }
    ensures register { IfOk result (λ a. string_bytes a.register ≡ shown (Some (codes "a"))) }
    ensures map { IfOk result (λ a. string_bytes a.map ≡ shown (Some (codes "b"))) }
    ensures list { IfOk result (λ a. string_bytes a.list ≡ shown (Some (codes "c"))) }
    ensures tree { IfOk result (λ a. string_bytes a.tree ≡ shown (Some (codes "d"))) }
    ensures set { IfOk result (λ a. a.set.now ≡ yes_or_no true) }
{
    let counter = counter(alloc)?;
    let register = shown(alloc, register(alloc)?)?;
    let map = shown(alloc, map(alloc)?)?;
    let list = shown(alloc, list(alloc)?)?;
    let tree = shown(alloc, tree(alloc)?)?;
    let set = yes_or_no(set(alloc)?);
    Ok(Lines {
        counter,
        register,
        map,
        list,
        tree,
        set,
    })
}
