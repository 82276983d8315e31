//! Short lists that take no memory: the units of a position, and the last positions of a stream.

ghost use Rattle.std.specs.Prelude.{◌≡◌, ◌≤◌, ◌↔◌, length, IsSome, IfSome, IsTrue};

use arrayvec::ArrayVec;
use std::marker::Model;

/// The units that hold a position, head first: at most five.
#[derive(Clone, Drop)]
pub struct Chain {
    units: ArrayVec<u16, 5>,
}

impl Model for Chain {
    ghost use Rattle.std.specs.Prelude.{ℕ, List, ◌≤◌, length};

    ghost Value = { List ℕ };

    ghost view = { λ s. s.units.items };

    ghost invariant = { λ s. length s.units.items ≤ 5 };
}

impl Chain {
    /// How many units fit.
    pub const MAX: usize = 5;

    /// None exactly past five units. It takes no memory.
    pub fn of(units: &[u16]) -> Option<Chain>
        ensures fits { IsSome result ↔ (length units.now ≤ 5) }
        ensures units { IfSome result (λ c. c ≡ units.now) }
    {
        match ArrayVec::try_from(units) {
            Ok(units) => Some(Chain { units }),
            Err(_) => None,
        }
    }

    /// The units.
    pub fn as_slice(&self) -> &[u16]
        ensures units { result.now ≡ self.now }
        ensures fits { length self.now ≤ 5 }
    {
        self.units.as_slice()
    }

    /// An equal chain. It takes no memory.
    pub fn copy(&self) -> Chain
        ensures { result ≡ self.now }
    {
        Chain::of(self.as_slice()).unwrap()
    }

    /// Whether both have the same units in the same order.
    pub fn is_same(&self, other: &Chain) -> bool
        ensures { IsTrue result ↔ (self.now ≡ other.now) }
    {
        self == other
    }
}

impl PartialEq for Chain {
    ghost use Rattle.std.specs.Prelude.{◌==◌};
    ghost use Rattle.std.specs.Cmp.Lexicographic.{pointwise};
    ghost use Rattle.std.proofs.Common.{rules};

    ghost eq = { λ v w. pointwise ◌==◌ v w };

    ghost laws = { Prim.search rules };

    fn eq(&self, other: &Self) -> bool {
        self.as_slice() == other.as_slice()
    }
}

/// The last positions of a stream, newest first: at most four.
#[derive(Clone, Drop)]
pub struct Backs {
    positions: ArrayVec<u64, 4>,
}

impl Model for Backs {
    ghost use Rattle.std.specs.Prelude.{ℕ, List, ◌≤◌, length};

    ghost Value = { List ℕ };

    ghost view = { λ s. s.positions.items };

    ghost invariant = { λ s. length s.positions.items ≤ 4 };
}

impl Backs {
    /// How many positions fit.
    pub const MAX: usize = 4;

    /// None exactly past four positions. It takes no memory.
    pub fn of(positions: &[u64]) -> Option<Backs>
        ensures fits { IsSome result ↔ (length positions.now ≤ 4) }
        ensures positions { IfSome result (λ b. b ≡ positions.now) }
    {
        match ArrayVec::try_from(positions) {
            Ok(positions) => Some(Backs { positions }),
            Err(_) => None,
        }
    }

    /// The positions.
    pub fn as_slice(&self) -> &[u64]
        ensures positions { result.now ≡ self.now }
        ensures fits { length self.now ≤ 4 }
    {
        self.positions.as_slice()
    }

    /// Equal positions. It takes no memory.
    pub fn copy(&self) -> Backs
        ensures { result ≡ self.now }
    {
        Backs::of(self.as_slice()).unwrap()
    }

    /// Whether both have the same positions in the same order.
    pub fn is_same(&self, other: &Backs) -> bool
        ensures { IsTrue result ↔ (self.now ≡ other.now) }
    {
        self == other
    }
}

impl PartialEq for Backs {
    ghost use Rattle.std.specs.Prelude.{◌==◌};
    ghost use Rattle.std.specs.Cmp.Lexicographic.{pointwise};
    ghost use Rattle.std.proofs.Common.{rules};

    ghost eq = { λ v w. pointwise ◌==◌ v w };

    ghost laws = { Prim.search rules };

    fn eq(&self, other: &Self) -> bool {
        self.as_slice() == other.as_slice()
    }
}
