//! What a change leaves of a chain, and what it makes of it.

ghost use Rattle.std.specs.Prelude.{◌≡◌, ◌≤◌, ◌==◌, ◌++◌, length, take, filter, not};
ghost use Rattle.tg_base.specs.Units.{has};
ghost use Rattle.tg_proj.specs.Next.{kept, joined, next_chain};

use arrayvec::ArrayVec;
use tg_base::{Chain, Change, List};

/// The units that aren't dropped, in the old order.
pub fn keep(drop: &List<u16>, chain: &Chain) -> ArrayVec<u16, 5>
    ensures { result.items ≡ kept drop.now chain.now }
{
    let mut units = ArrayVec::new();
    for unit in chain.as_slice() {
        if !drop.as_slice().contains(unit) {
            units.push(*unit);
        }
    }
    units
}

/// The chain of a range and a stripe in the next layout.
pub fn follow(change: &Change, range: usize, stripe: usize, chain: &Chain) -> Chain
    requires { length (next_chain change.now range stripe chain.now) ≤ 5 }
    ensures { result ≡ next_chain change.now range stripe chain.now }
{
    let mut units = keep(&change.drop, chain);
    if let Some(join) = &change.join {
        if join.range == range && join.stripe == stripe {
            units.push(join.unit);
        }
    }
    Chain::of(units.as_slice()).unwrap()
}
