//! A cell of the stripe is read.

use std::marker::Model;
use tg_base::Pos;
use tg_chain::GetCell;

/// A position, and the machine that reads its cell.
#[derive(Drop)]
pub struct Reading {
    pub pos: Pos,
    pub get: GetCell,
}

impl Model for Reading {
    ghost use Rattle.std.specs.Prelude.{◌≡◌};
    ghost use Rattle.tg_copy.specs.Words.{ReadJob};

    ghost Value = { ReadJob };

    ghost view = { λ r. r.get };

    ghost invariant = { λ r. r.get.place.pos ≡ r.pos };
}
