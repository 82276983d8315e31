//! The calls of a form in memory.

ghost use Rattle.std.specs.Prelude.{◌≡◌, length};
ghost use Rattle.tg_io.specs.Calls.{called, fails_next};

use std::marker::Model;
use tg_base::List;

/// How many calls were made, and the numbers (from 0) of those that fail.
#[derive(Drop)]
pub struct Calls {
    // a number past those of `u64`, so that each call that a list may name is counted
    made: u128,
    fails: List<u64>,
}

impl Model for Calls {
    ghost use Rattle.tg_io.specs.Calls.{Count};

    ghost Value = { Count };

    ghost view = { λ s. record { made = s.made; fails = s.fails } };
}

impl Calls {
    /// No call was made.
    pub fn new(fails: List<u64>) -> Calls
        ensures { result ≡ record { made = 0; fails = fails } }
    {
        Calls { made: 0, fails }
    }

    /// Counts a call, and tells whether it fails.
    pub fn next_fails(&mut self) -> bool
        ensures fails { result ≡ fails_next self.old }
        ensures counted { self.new ≡ called self.old }
    {
        let Ok(number) = u64::try_from(self.made) else {
            return false;
        };
        self.made += 1;
        self.fails.as_slice().contains(&number)
    }
}
