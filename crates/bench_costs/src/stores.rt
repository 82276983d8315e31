//! Stores on a unit.

ghost use Rattle.std.specs.Prelude.{ℕ, ◌≡◌, ◌*◌, ◌%◌, ◌^◌, ◌≤◌, [], ◌∷◌, replicate, IfOk, OnOk};
ghost use Rattle.tg_base.specs.declared.msg.Msg.TheVariants.{Write};
ghost use Rattle.tg_protocol.specs.Units.{UnitState, new_unit};
ghost use Rattle.bench_costs.specs.Stores.{held, is_held, sent};

use crate::fault::Fault;
use crate::order::Order;
use std::alloc::Global;
use std::mem;
use tg_base::{Blob, List, Msg, NoMemory, Pos};
use tg_unit::Unit;

/// How many of so many stores on each of some new units are held, modulo 2^64. The units take turns, store by store. An
/// `Err` is want of memory.
pub fn held(alloc: Global, order: Order, count: u32, many: u32) -> Result<u64, NoMemory>
    ensures { IfOk result (λ n. n ≡ many * held order count count % 2 ^ 64) }
{
    let mut units = new_units(alloc, many)?;
    let mut sum: u64 = 0;
    for place in 0..count {
        let pos = order.position(count, place);
        let held = store_in_each(alloc, &mut units, pos)?;
        sum = sum.wrapping_add(held);
    }
    // To free the pages is no step.
    mem::forget(units);
    Ok(sum)
}

// So many new units.
fn new_units(alloc: Global, many: u32) -> Result<Vec<Unit>, NoMemory>
    ensures { IfOk result (λ units. units.items ≡ replicate many new_unit) }
{
    let mut units = Vec::new(alloc);
    for _ in 0..many {
        units.push(Unit::new(alloc, 0))?;
    }
    Ok(units)
}

// Each of these units, which are alike, is sent a page; how many hold it, modulo 2^64.
fn store_in_each(alloc: Global, units: &mut Vec<Unit>, pos: Pos) -> Result<u64, NoMemory>
    ensures now { (many : ℕ) (unit : UnitState) → units.old.items ≡ replicate many unit → OnOk result (units.new.items ≡ replicate many (sent unit pos).now) }
    ensures held { (many : ℕ) (unit : UnitState) → units.old.items ≡ replicate many unit → IfOk result (λ n. n ≡ many * is_held (sent unit pos).says % 2 ^ 64) }
{
    let mut sum: u64 = 0;
    for at in 0..units.len() {
        // A new unit stands in its place meanwhile, which takes no memory.
        let unit = mem::replace(&mut units[at], Unit::new(alloc, 0));
        let (next, held) = store(alloc, unit, pos)?;
        units[at] = next;
        sum = sum.wrapping_add(held);
    }
    Ok(sum)
}

// The unit after a page is sent to it, and 1 where it holds the page, else 0.
fn store(alloc: Global, unit: Unit, pos: Pos) -> Result<(Unit, u64), NoMemory>
    ensures now { IfOk result (λ r. r.0 ≡ (sent unit pos).now) }
    ensures held { IfOk result (λ r. r.1 ≡ is_held (sent unit pos).says) }
    ensures most { IfOk result (λ r. r.1 ≤ 1) }
{
    let page = page(alloc)?;
    let (unit, says) = unit.step(
        alloc,
        &Msg::Write {
            epoch: 1,
            pos,
            page,
        },
    )?;
    Ok((unit, is_held(&says)))
}

// 1 for the answer that a page is held, else 0.
fn is_held(says: &Option<Msg>) -> u64
    ensures value { result ≡ is_held says.now }
    ensures most { result ≤ 1 }
{
    match says {
        Some(Msg::Held) => 1,
        _ => 0,
    }
}

// A page of one byte.
fn page(alloc: Global) -> Result<Blob, NoMemory>
    ensures { IfOk result (λ page. page ≡ 7 ∷ []) }
{
    let mut bytes = List::new(alloc);
    bytes.push(7)?;
    Ok(Blob::new(alloc, bytes)?.unwrap())
}
