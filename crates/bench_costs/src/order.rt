//! In which order positions are written.

ghost use Rattle.std.specs.Prelude.{◌≡◌, ◌<◌};
ghost use Rattle.bench_costs.specs.Stores.{order_named, position};

use tg_base::Pos;

/// A prime next to 2^32 over the golden ratio. Its multiples modulo a count that it doesn't divide
/// are all numbers below that count, far from any order.
const STEP: u64 = 2_654_435_761;

/// How many positions a segment of a unit has.
const SPAN: u64 = 64;

/// In which order so many positions are written.
#[derive(Clone, Copy, PartialEq, Eq)]
pub enum Order {
    /// The first ones, rising.
    Rising,
    /// The first ones, scattered.
    Scattered,
    /// One in each of the first segments, scattered.
    Sparse,
}

impl Order {
    /// The order that a word names.
    pub fn named(word: &str) -> Option<Order>
        ensures { result ≡ order_named word.now }
    {
        match word {
            "rising" => Some(Order::Rising),
            "scattered" => Some(Order::Scattered),
            "sparse" => Some(Order::Sparse),
            _ => None,
        }
    }

    /// The position at a place, counted from 0, of so many.
    pub fn position(self, count: u32, place: u32) -> Pos
        requires { place < count }
        ensures { result ≡ position self count place }
    {
        let place = u64::from(place);
        let count = u64::from(count);
        match self {
            Order::Rising => place,
            Order::Scattered => place * STEP % count,
            Order::Sparse => SPAN * (place * STEP % count),
        }
    }
}
