//! Where a walk goes on.

ghost use Rattle.std.specs.Prelude.{◌≡◌, None};
ghost use Rattle.tg_protocol.specs.Walking.{trail, next_of_trail, go_down, rest_of, trail_after};

use std::marker::Model;
use tg_base::{Backs, Pos};

/// The pointers that are left, newest first, whether there were four, and the position last visited.
#[derive(Drop)]
pub struct Trail {
    pointers: Backs,
    were_four: bool,
    last: Pos,
}

impl Model for Trail {
    ghost use Rattle.tg_stream.specs.Words.{Trace};

    ghost Value = { Trace };

    ghost view = { λ t. record { pointers = t.pointers; were_four = t.were_four; last = t.last } };
}

impl Trail {
    /// From these pointers on.
    pub fn new(pointers: Backs, last: Pos) -> Trail
        ensures { result ≡ trail pointers last }
    {
        let were_four = pointers.as_slice().len() == 4;
        Trail {
            pointers,
            were_four,
            last,
        }
    }

    /// The newest pointer. Where four were used up, earlier entries may not be named, and it is the position
    /// below the one last visited.
    pub fn next(&self) -> Option<Pos>
        ensures { result ≡ next_of_trail self.now }
    {
        match self.pointers.as_slice() {
            [pointer, ..] => Some(*pointer),
            [] => self.below_last(),
        }
    }

    /// The cell at a position is no entry of the stream.
    pub fn pass(&mut self, pos: Pos)
        ensures { self.new ≡ trail_after self.old pos None }
    {
        self.pointers = without_first(&self.pointers);
        self.last = pos;
    }

    /// One position down, where four pointers were used up.
    fn below_last(&self) -> Option<Pos>
        ensures { result ≡ go_down self.now.were_four self.now.last }
    {
        if self.were_four && self.last > 0 {
            return Some(self.last - 1);
        }
        None
    }
}

/// All but the newest.
fn without_first(pointers: &Backs) -> Backs
    ensures { result ≡ rest_of pointers.now }
{
    match pointers.as_slice() {
        [] => pointers.copy(),
        [_, rest @ ..] => Backs::of(rest).unwrap(),
    }
}
