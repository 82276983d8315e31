//! The positions of a stripe.

ghost use Rattle.std.specs.Prelude.{◌≡◌, ◌<◌, ◌≤◌, ◌^◌};
ghost use Rattle.tg_copy.specs.Stripes.{HasStripe, stripe_in, next_at, next_below};

use tg_base::{Join, Pos, Projection};

/// A closed range's positions from `first` on that are `step` apart, below `end`.
#[derive(Clone, Copy)]
pub struct Stripe {
    pub first: Pos,
    pub step: u64,
    pub end: Pos,
}

/// The stripe that a spare is to hold.
pub fn stripe_of(proj: &Projection, join: Join) -> Stripe
    requires { HasStripe proj.now join }
    ensures stripe { result ≡ stripe_in proj.now join }
    ensures some { 0 < result.step }
{
    let ranges = proj.ranges.as_slice();
    let range = &ranges[join.range];
    let end = ranges[join.range + 1].lo;
    let step = range.stripes.as_slice().len() as u64;
    let first = range.lo + join.stripe as u64;
    Stripe { first, step, end }
}

impl Stripe {
    /// The first position at or past this one. Both are wider than a position, since a range may end near the
    /// greatest.
    fn next_at(self, from: u128) -> u128
        requires some { 0 < self.step }
        requires near { from ≤ 2 ^ 64 }
        ensures { result ≡ next_at self from }
    {
        let first = self.first as u128;
        let step = self.step as u128;
        if from <= first {
            return first;
        }
        from + (step - 1 - (from - first + step - 1) % step)
    }

    /// The first position at or past this one, if it is below the end.
    pub fn next_below(self, from: u128) -> Option<Pos>
        requires some { 0 < self.step }
        requires near { from ≤ 2 ^ 64 }
        ensures { result ≡ next_below self from }
    {
        let next = self.next_at(from);
        if next < self.end as u128 {
            return Some(next as Pos);
        }
        None
    }
}
