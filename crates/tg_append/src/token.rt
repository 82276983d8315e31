//! What the sequencer has issued.

use std::marker::Model;
use tg_base::{Blob, List, Pos, StreamLink};

/// A position, and the page that is for it.
#[derive(Drop)]
pub struct Token {
    pub pos: Pos,
    pub page: Blob,
}

impl Model for Token {
    ghost use Rattle.tg_append.specs.Words.{Issued};

    ghost Value = { Issued };

    ghost view = { λ t. record { pos = t.pos; page = t.page } };

    ghost inverse = { λ t. record { pos = t.pos; page = t.page } };
}

/// The tail, and the last positions of each stream.
#[derive(Drop)]
pub struct Answer {
    pub tail: Pos,
    pub lasts: List<StreamLink>,
}

impl Model for Answer {
    ghost use Rattle.tg_append.specs.Words.{Told};

    ghost Value = { Told };

    ghost view = { λ a. record { tail = a.tail; lasts = a.lasts } };

    ghost inverse = { λ a. record { tail = a.tail; lasts = a.lasts } };
}
