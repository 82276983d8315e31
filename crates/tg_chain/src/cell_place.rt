//! Where a cell stands.

ghost use Rattle.std.specs.Prelude.{◌≡◌, ◌<◌, ◌≤◌, length};
ghost use Rattle.tg_protocol.specs.Words.{unit_id};
ghost use Rattle.tg_protocol.specs.Cells.{unit_at};

use std::marker::Model;
use tg_base::{Chain, Epoch, NodeId, Pos, Role};

/// A position, the units that hold it, head first, and the epoch of that layout.
#[derive(Drop)]
pub struct CellPlace {
    pub chain: Chain,
    pub epoch: Epoch,
    pub pos: Pos,
}

impl Model for CellPlace {
    ghost use Rattle.tg_protocol.specs.Cells.{Place};

    ghost Value = { Place };

    ghost view = { λ p. record { chain = p.chain; epoch = p.epoch; pos = p.pos } };

    ghost inverse = { λ p. record { chain = p.chain; epoch = p.epoch; pos = p.pos } };
}

impl CellPlace {
    /// How many units there are: at most five.
    pub fn len(&self) -> usize
        ensures count { result ≡ length self.now.chain }
        ensures fits { length self.now.chain ≤ 5 }
    {
        self.chain.as_slice().len()
    }

    /// The unit at a place of the chain, from 0 for the head.
    pub fn unit(&self, at: usize) -> NodeId
        requires { at < length self.now.chain }
        ensures { result ≡ unit_id (unit_at self.now at) }
    {
        let num = self.chain.as_slice()[at];
        NodeId {
            role: Role::Unit,
            num,
        }
    }
}
