//! The units of a layout, rising.

ghost use Rattle.std.specs.Prelude.{◌≡◌, ◌≤◌, length, IfOk, OnOk};
ghost use Rattle.std.specs.List.{concat};
ghost use Rattle.tg_proj.specs.Next.{rising_place};
ghost use Rattle.tg_proj.specs.Refusals.{units_of as units_in};
ghost use Rattle.tg_protocol.specs.Words.{with_num, with_nums};
ghost use Rattle.tg_protocol.specs.Layouts.{units_of as units_of_layout};

use std::alloc::Global;
use tg_base::{Chain, List, NoMemory, Projection, Range};

/// The units that stand in some chain of a layout: at most 64.
#[tactic(auto, unfolding(tg_protocol::specs::Layouts::units_of))]
pub fn units_of(alloc: Global, proj: &Projection) -> Result<List<u16>, NoMemory>
    ensures units { IfOk result (λ us. us ≡ units_of_layout proj.now) }
    ensures few { IfOk result (λ us. length us ≤ 64) }
{
    proj.rules();
    let mut units = List::new(alloc);
    put_ranges(proj.ranges.as_slice(), &mut units)?;
    Ok(units)
}

fn put_ranges(ranges: &[Range], units: &mut List<u16>) -> Result<(), NoMemory>
    ensures { OnOk result (units.new ≡ with_nums (units_in ranges.now) units.old) }
{
    match ranges {
        [] => Ok(()),
        [range, others @ ..] => {
            put_ranges(others, units)?;
            put_chains(range.stripes.as_slice(), units)
        }
    }
}

fn put_chains(chains: &[Chain], units: &mut List<u16>) -> Result<(), NoMemory>
    ensures { OnOk result (units.new ≡ with_nums (concat chains.now) units.old) }
{
    match chains {
        [] => Ok(()),
        [chain, others @ ..] => {
            put_chains(others, units)?;
            put_units(chain.as_slice(), units)
        }
    }
}

fn put_units(some: &[u16], units: &mut List<u16>) -> Result<(), NoMemory>
    ensures { OnOk result (units.new ≡ with_nums some.now units.old) }
{
    match some {
        [] => Ok(()),
        [unit, others @ ..] => {
            put_units(others, units)?;
            put_unit(*unit, units)
        }
    }
}

/// Puts a unit into a rising list, unless it stands there.
fn put_unit(unit: u16, units: &mut List<u16>) -> Result<(), NoMemory>
    ensures { OnOk result (units.new ≡ with_num unit units.old) }
{
    let place = place_of(units.as_slice(), unit);
    if place < units.len() && units.as_slice()[place] == unit {
        return Ok(());
    }
    units.insert(place, unit)
}

/// How many units at the front are below a unit.
fn place_of(units: &[u16], unit: u16) -> usize
    ensures place { result ≡ rising_place units.now unit }
    ensures bound { result ≤ length units.now }
{
    match units {
        [] => 0,
        [first, others @ ..] => {
            if *first < unit {
                1 + place_of(others, unit)
            } else {
                0
            }
        }
    }
}
