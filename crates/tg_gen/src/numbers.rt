//! Random numbers, the same for the same start.

ghost use Rattle.std.specs.Prelude.{◌≡◌};
ghost use Rattle.tg_gen.specs.Draws.{first, next};

use std::marker::Model;

// A prime.
const MODULUS: u64 = 2_147_483_647;

const FACTOR: u64 = 48_271;

/// The running number of a generator, which is from 1 to 2,147,483,646.
#[derive(Drop)]
pub struct Numbers {
    running: u64,
}

impl Model for Numbers {
    ghost use Rattle.std.specs.Prelude.{ℕ, ◌<◌};

    ghost Value = { ℕ };

    ghost view = { λ s. s.running };

    ghost invariant = { λ s. s.running < 2147483647 };
}

impl Numbers {
    /// The generator that a start gives.
    pub fn new(start: u64) -> Numbers
        ensures { result ≡ first start }
    {
        Numbers {
            running: start % (MODULUS - 1) + 1,
        }
    }

    /// Draws a number.
    pub fn draw(&mut self) -> u64
        ensures value { result ≡ next self.old }
        ensures kept { self.new ≡ next self.old }
    {
        self.running = self.running * FACTOR % MODULUS;
        self.running
    }
}
