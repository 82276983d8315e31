//! Layouts: which units hold which positions.

ghost use Rattle.std.specs.Prelude.{◌≡◌, ◌<◌, ◌^◌, ◌↔◌, IfOk, IsTrue};

use crate::chain::Chain;
use crate::fault::NoMemory;
use crate::ids::{Epoch, Pos};
use crate::list::List;
use std::marker::Model;

/// Positions from `lo` on, and the chains that hold them in turn.
#[derive(Clone, PartialEq, Drop)]
pub struct Range {
    pub lo: Pos,
    pub stripes: List<Chain>,
}

impl Range {
    /// An equal range.
    pub fn copy(&self) -> Result<Range, NoMemory>
        ensures { IfOk result (λ c. c ≡ self.now) }
    {
        Ok(Range {
            lo: self.lo,
            stripes: self.stripes.clone()?,
        })
    }
}

/// The layout of an epoch. A range reaches up to the next one's `lo`, and the last is open.
#[derive(Clone, PartialEq)]
pub struct Projection {
    pub epoch: Epoch,
    /// The sequencer.
    pub seq: u16,
    /// The first position that the sequencer may issue.
    pub start: Pos,
    /// The client that proposed it, and 0 for the first.
    pub by: u16,
    /// The units dropped so far, rising.
    pub gone: List<u16>,
    pub ranges: List<Range>,
}

// By hand, since a derived drop is proved anew wherever a value is dropped.
impl Drop for Projection {
    fn drop(self) {
        let Projection {
            epoch: _,
            seq: _,
            start: _,
            by: _,
            gone: _,
            ranges: _,
        } = self;
    }
}

impl Model for Projection {
    ghost use Rattle.tg_base.specs.Layouts.{Layout, IsLayout};

    ghost Value = { Layout };

    ghost view = { λ p. record { epoch = p.epoch; seq = p.seq; start = p.start; by = p.by; gone = p.gone; ranges = p.ranges } };

    ghost inverse = { λ p. record { epoch = p.epoch; seq = p.seq; start = p.start; by = p.by; gone = p.gone; ranges = p.ranges } };

    ghost invariant = { λ p. IsLayout (record { epoch = p.epoch; seq = p.seq; start = p.start; by = p.by; gone = p.gone; ranges = p.ranges }) };
}

impl Projection {
    ghost use Rattle.tg_base.specs.Layouts.{IsLayout, IsWithinTypes};

    /// Every layout keeps the rules, and has numbers of its fields' types.
    pub fn rules(&self)
        ensures rules { IsLayout self.now }
        ensures types { IsWithinTypes self.now }
    {
        let _epoch = self.epoch;
        let _seq = self.seq;
        let _start = self.start;
        let _by = self.by;
    }

    /// An equal layout.
    pub fn copy(&self) -> Result<Projection, NoMemory>
        ensures { IfOk result (λ c. c ≡ self.now) }
    {
        let copy = self.clone()?;
        Ok(copy)
    }

    /// Whether both are the same layout.
    pub fn is_same(&self, other: &Projection) -> bool
        ensures { IsTrue result ↔ (self.now ≡ other.now) }
    {
        self == other
    }
}
