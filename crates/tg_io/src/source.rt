//! Where bytes come from.

ghost use Rattle.std.specs.Prelude.{◌≡◌, ◌<◌, ◌≤◌, ◌+◌, ◌-◌, ◌^◌, ◌∷◌, ℕ, Bool, Option, None, List, [], take, length, IfOk, IfSome, OnErr};
ghost use Rattle.tg_io.specs.Bytes.{Gives, Grows};
ghost use Rattle.tg_io.specs.Faults.{HasCause, StaysSure};

use crate::fault::IoErr;

/// Gives bytes, at most 2^64 - 1 in all.
pub trait Source {
    // how often it has failed; never falls
    ghost faults: { Self → ℕ };

    // how many bytes it may still give
    ghost room: { Self → ℕ };

    // the bytes still to come, where it tells
    ghost left: { Self → Option (List ℕ) };

    // whether it is known never to fail again
    ghost sure: { Self → Bool };

    // the pieces that its reads gave, one a read, in order, where it tells
    ghost pieces: { Self → Option (List (List ℕ)) } = { λ _. None };

    /// Puts the next bytes at the start of the buffer, and gives how many there are.
    /// 0 for a buffer that isn't empty is the end. An `Err` takes no byte; it is `Failed` only
    /// where the count of faults rose, and the count rises only at an `Err`.
    fn read(&mut self, buf: &mut [u8]) -> Result<usize, IoErr>
        ensures count { IfOk result (λ n. n ≤ length buf.new) }
        ensures given { IfOk result (λ n. Gives (left self.old) (take n buf.new) (left self.new)) }
        ensures end { IfOk result (λ n. n ≡ 0 → 0 < length buf.old → IfSome (left self.old) (λ bytes. bytes ≡ [])) }
        ensures room { IfOk result (λ n. room self.new + n ≡ room self.old) }
        ensures kept { OnErr result ((left self.new ≡ left self.old) × (room self.new ≡ room self.old)) }
        ensures cause { HasCause (faults self.old) (faults self.new) result }
        ensures sure { StaysSure (sure self.old) (sure self.new) (faults self.old) (faults self.new) }
        ensures still { IfOk result (λ _. faults self.new ≡ faults self.old) }
        ensures piece { IfOk result (λ n. Grows (pieces self.old) (take n buf.new ∷ []) (pieces self.new)) }
        ensures no_piece { OnErr result (pieces self.new ≡ pieces self.old) };

    // a source never has room for more than 2^64 - 1 bytes
    ghost capped: { (s : Self) → room s ≤ 2 ^ 64 - 1 };
}
