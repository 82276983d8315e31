//! The layout that a change makes of another.

ghost use Rattle.std.specs.Prelude.{◌≡◌, ◌<◌, ◌^◌, ◌≤◌, ◌++◌, IfOk, OnOk, length};
ghost use Rattle.tg_proj.specs.Follows.{Follows};
ghost use Rattle.tg_proj.specs.Next.{next_layout, next_ranges, next_chains, next_gone, opened_at, rising_with, rising_place, StripesFit, RangesFit};
ghost use Rattle.tg_proj.specs.Refusals.{MayFollow};

use crate::change::follow;
use std::alloc::Global;
use tg_base::{Chain, Change, List, NoMemory, Pos, Projection, Range};

/// The next layout, which client `by` proposes: the dropped units leave every chain, the one
/// that joins stands last in its chain, and the open range begins at `start`, which `next_ok`
/// gave.
pub fn next_of(
    alloc: Global,
    old: &Projection,
    change: &Change,
    by: u16,
    start: Pos,
) -> Result<Projection, NoMemory>
    requires few { old.now.epoch < 2 ^ 62 }
    requires may { MayFollow old.now change.now start }
    ensures layout { IfOk result (λ q. q ≡ next_layout old.now change.now by start) }
    ensures follows { IfOk result (λ q. Follows old.now change.now q) }
{
    old.rules();
    change.rules();
    let kept = ranges_after(alloc, change, old.ranges.as_slice())?;
    Ok(Projection {
        epoch: old.epoch + 1,
        seq: change.seq,
        start,
        by,
        gone: gone_after(&old.gone, change.drop.as_slice())?,
        ranges: with_opened(kept, &change.opened, start)?,
    })
}

/// The open range stands last, if one is opened.
fn with_opened(
    mut ranges: List<Range>,
    opened: &List<Chain>,
    start: Pos,
) -> Result<List<Range>, NoMemory>
    ensures { IfOk result (λ l. l ≡ ranges ++ opened_at opened.now start) }
{
    if opened.is_empty() {
        return Ok(ranges);
    }
    ranges.push(Range {
        lo: start,
        stripes: opened.clone()?,
    })?;
    Ok(ranges)
}

fn ranges_after(alloc: Global, change: &Change, ranges: &[Range]) -> Result<List<Range>, NoMemory>
    requires { RangesFit change.now ranges.now }
    ensures { IfOk result (λ l. l ≡ next_ranges change.now 0 ranges.now) }
{
    let mut next = List::new(alloc);
    for (number, range) in ranges.iter().enumerate() {
        next.push(Range {
            lo: range.lo,
            stripes: stripes_after(alloc, change, number, range.stripes.as_slice())?,
        })?;
    }
    Ok(next)
}

fn stripes_after(
    alloc: Global,
    change: &Change,
    range: usize,
    stripes: &[Chain],
) -> Result<List<Chain>, NoMemory>
    requires { StripesFit change.now range stripes.now }
    ensures { IfOk result (λ l. l ≡ next_chains change.now range 0 stripes.now) }
{
    let mut next = List::new(alloc);
    for (stripe, chain) in stripes.iter().enumerate() {
        next.push(follow(change, range, stripe, chain))?;
    }
    Ok(next)
}

fn gone_after(gone: &List<u16>, drop: &[u16]) -> Result<List<u16>, NoMemory>
    ensures { IfOk result (λ l. l ≡ next_gone gone.now drop.now) }
{
    let mut all = gone.clone()?;
    for unit in drop {
        put_rising(&mut all, *unit)?;
    }
    Ok(all)
}

/// Puts a unit into a rising list, unless it stands there.
fn put_rising(units: &mut List<u16>, unit: u16) -> Result<(), NoMemory>
    ensures { OnOk result (units.new ≡ rising_with units.old unit) }
{
    let place = place_of(units.as_slice(), unit);
    if place < units.len() && units.as_slice()[place] == unit {
        return Ok(());
    }
    units.insert(place, unit)
}

/// How many units at the front are below a unit.
fn place_of(units: &[u16], unit: u16) -> usize
    ensures place { result ≡ rising_place units.now unit }
    ensures bound { result ≤ length units.now }
{
    match units {
        [] => 0,
        [first, others @ ..] => {
            if *first < unit {
                1 + place_of(others, unit)
            } else {
                0
            }
        }
    }
}
