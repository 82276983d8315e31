//! Chains of units, and stripes of chains.

ghost use Rattle.std.specs.Prelude.{◌≡◌, ◌==◌, ◌≤◌, ◌++◌, length, IfOk, OnOk};
ghost use Rattle.std.specs.List.{list_any};
ghost use Rattle.tg_codec.specs.Reading.{Gives};
ghost use Rattle.tg_wire.specs.Fields.{below, others, chain_unit, after_unit, chain, stripe, after_stripe, stripes};

use std::alloc::{AllocError, Global};
use tg_base::{Chain, List, NoMemory};
use tg_codec::{
    Item, Measured, ReadFault, points, put_u16, read_items, size_items, u8_in, u16_in, write_items,
};

const UNITS: [u32; 64] = [
    0, 1, 2, 3, 4, 5, 6, 7, 8, 9, 10, 11, 12, 13, 14, 15, 16, 17, 18, 19, 20, 21, 22, 23, 24, 25,
    26, 27, 28, 29, 30, 31, 32, 33, 34, 35, 36, 37, 38, 39, 40, 41, 42, 43, 44, 45, 46, 47, 48, 49,
    50, 51, 52, 53, 54, 55, 56, 57, 58, 59, 60, 61, 62, 63,
];

// Whether a unit is among some.
fn is_used(used: &[u32], unit: u32) -> bool
    ensures { result ≡ list_any (λ v. v == unit) used.now }
{
    used.iter().any(|v| *v == unit)
}

// All units.
#[tactic(auto, unfolding(crate::specs::Fields::below))]
fn all_units(alloc: Global) -> Result<Vec<u32>, AllocError>
    ensures { IfOk result (λ v. v.items ≡ below 64) }
{
    Vec::from_slice(alloc, &UNITS)
}

// The units that a chain does not have yet.
fn others(alloc: Global, used: &[u32]) -> Result<Vec<u32>, AllocError>
    ensures { IfOk result (λ v. v.items ≡ others used.now) }
{
    let mut units = all_units(alloc)?;
    units.retain(|u| !is_used(used, *u));
    Ok(units)
}

// The units of a chain, each once.
struct Units;

impl Item for Units {
    type State = List<u32>;

    type Value = u16;

    ghost format = { chain_unit };

    ghost following = { after_unit };

    fn read<'a>(
        alloc: Global,
        state: &List<u32>,
        bytes: &'a [u8],
    ) -> Result<(u16, &'a [u8]), ReadFault> {
        let units = others(alloc, state.as_slice())?;
        let allowed = points(alloc, &units)?;
        u16_in(&allowed, bytes)
    }

    fn write(value: &u16, out: &mut List<u8>) -> Result<(), NoMemory> {
        put_u16(*value, out)
    }

    fn follow(mut state: List<u32>, value: &u16) -> Result<List<u32>, NoMemory> {
        state.insert(0, u32::from(*value))?;
        Ok(state)
    }
}

// A chain.
#[tactic(auto, unfolding(crate::specs::Fields::chain))]
fn chain_in(alloc: Global, bytes: &[u8]) -> Result<(Chain, &[u8]), ReadFault>
    ensures { Gives (λ x. (x.0, x.1.now)) result (chain.read bytes.now) }
{
    let (count, rest) = u8_in(&[(1, 5)], bytes)?;
    let none = List::new(alloc);
    let (units, rest) = read_items::<Units>(alloc, u64::from(count), none, rest)?;
    let chain = Chain::of(units.as_slice()).unwrap();
    Ok((chain, rest))
}

#[tactic(auto, unfolding(crate::specs::Fields::chain))]
fn put_chain(value: &Chain, out: &mut List<u8>) -> Result<(), NoMemory>
    ensures { OnOk result (out.new ≡ out.old ++ chain.spell value.now) }
{
    let units = value.as_slice();
    out.push(units.len() as u8)?;
    write_items::<Units>(units, out)
}

#[tactic(auto, unfolding(crate::specs::Fields::chain))]
fn size_chain(value: &Chain) -> usize
    ensures len { result ≡ length (chain.spell value.now) }
    ensures most { result ≤ 11 }
{
    1 + 2 * value.as_slice().len()
}

// Chains in turn.
struct Stripes;

impl Item for Stripes {
    type State = ();

    type Value = Chain;

    ghost format = { stripe };

    ghost following = { after_stripe };

    fn read<'a>(
        alloc: Global,
        _state: &(),
        bytes: &'a [u8],
    ) -> Result<(Chain, &'a [u8]), ReadFault> {
        chain_in(alloc, bytes)
    }

    fn write(value: &Chain, out: &mut List<u8>) -> Result<(), NoMemory> {
        put_chain(value, out)
    }

    fn follow(state: (), _value: &Chain) -> Result<(), NoMemory> {
        Ok(state)
    }
}

impl Measured for Stripes {
    fn size(value: &Chain) -> usize {
        size_chain(value)
    }
}

/// One to eight chains behind their count.
#[tactic(auto, unfolding(crate::specs::Fields::stripes))]
pub fn stripes_in(alloc: Global, bytes: &[u8]) -> Result<(List<Chain>, &[u8]), ReadFault>
    ensures { Gives (λ x. (x.0, x.1.now)) result (stripes.read bytes.now) }
{
    let (count, rest) = u8_in(&[(1, 8)], bytes)?;
    let (chains, rest) = read_items::<Stripes>(alloc, u64::from(count), (), rest)?;
    Ok((chains, rest))
}

/// Puts chains last, behind their count.
#[tactic(auto, unfolding(crate::specs::Fields::stripes))]
pub fn put_stripes(value: &[Chain], out: &mut List<u8>) -> Result<(), NoMemory>
    requires { length value.now ≤ 255 }
    ensures { OnOk result (out.new ≡ out.old ++ stripes.spell value.now) }
{
    out.push(value.len() as u8)?;
    write_items::<Stripes>(value, out)
}

/// The length of the spelling of chains behind their count. It takes no memory.
#[tactic(auto, unfolding(crate::specs::Fields::stripes))]
pub fn size_stripes(value: &[Chain]) -> usize
    requires { length value.now ≤ 255 }
    ensures len { result ≡ length (stripes.spell value.now) }
    ensures most { result ≤ 4500000 }
{
    1 + size_items::<Stripes>(value)
}
