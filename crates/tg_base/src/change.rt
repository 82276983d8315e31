//! What a reconfiguration asks for.

ghost use Rattle.std.specs.Prelude.{◌≡◌, IfOk};

use crate::chain::Chain;
use crate::fault::NoMemory;
use crate::list::List;
use std::marker::Model;

/// A unit that joins a chain at its end: range and stripe count from 0.
#[derive(Clone, Copy, PartialEq, Eq)]
pub struct Join {
    pub unit: u16,
    pub range: usize,
    pub stripe: usize,
}

/// How the next layout differs from the present one.
#[derive(Clone, Drop)]
pub struct Change {
    /// The next sequencer.
    pub seq: u16,
    /// The units that leave every chain.
    pub drop: List<u16>,
    /// The stripes of a further range; none opens no range.
    pub opened: List<Chain>,
    pub join: Option<Join>,
}

impl Model for Change {
    ghost use Rattle.tg_base.specs.Changes.{Changed, IsChange};

    ghost Value = { Changed };

    ghost view = { λ c. record { seq = c.seq; drop = c.drop; opened = c.opened; join = c.join } };

    ghost inverse = { λ c. record { seq = c.seq; drop = c.drop; opened = c.opened; join = c.join } };

    ghost invariant = { λ c. IsChange (record { seq = c.seq; drop = c.drop; opened = c.opened; join = c.join }) };
}

impl Change {
    ghost use Rattle.tg_base.specs.Changes.{IsChange};

    /// Every change keeps the rules.
    pub fn rules(&self)
        ensures { IsChange self.now }
    {
        let _seq = self.seq;
    }

    /// An equal change.
    pub fn copy(&self) -> Result<Change, NoMemory>
        ensures { IfOk result (λ c. c ≡ self.now) }
    {
        Ok(self.clone()?)
    }
}
