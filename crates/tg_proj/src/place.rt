//! Which chain holds a position.

ghost use Rattle.std.specs.Prelude.{◌≡◌, nat_le, count_by, IsTrue};
ghost use Rattle.tg_base.specs.Units.{is_chain};
ghost use Rattle.tg_proj.specs.Places.{range_number, chain_for, IsRangeOf};

use tg_base::{Chain, Pos, Projection, Range};

/// The number of the last range whose `lo` isn't above the position, from 0. It takes no memory.
pub fn range_of(p: &Projection, pos: Pos) -> usize
    ensures number { result ≡ range_number p.now.ranges pos }
    ensures last { IsRangeOf p.now.ranges pos result }
{
    p.rules();
    count_reached(p.ranges.as_slice(), pos) - 1
}

/// How many ranges begin at or below a position.
fn count_reached(ranges: &[Range], pos: Pos) -> usize
    ensures { result ≡ count_by (λ r. nat_le r.lo pos) ranges.now }
{
    ranges.iter().filter(|range| range.lo <= pos).count()
}

/// The chain that holds a position: its range's stripes take turns from `lo` on. It takes no memory.
pub fn chain_of(p: &Projection, pos: Pos) -> Chain
    ensures units { result ≡ chain_for p.now.ranges pos }
    ensures rules { IsTrue (is_chain result) }
{
    p.rules();
    let range = &p.ranges.as_slice()[range_of(p, pos)];
    let stripes = range.stripes.as_slice();
    let stripe = (pos - range.lo) % stripes.len() as u64;
    stripes[stripe as usize].copy()
}
