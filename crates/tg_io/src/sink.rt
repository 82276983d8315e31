//! Where bytes go.

ghost use Rattle.std.specs.Prelude.{◌≡◌, ◌<◌, ◌≤◌, ℕ, Bool, Option, List, take, length, IfOk, OnOk, OnErr};
ghost use Rattle.tg_io.specs.Bytes.{Takes, TakesFront};
ghost use Rattle.tg_io.specs.Faults.{HasCause, StaysSure};

use crate::fault::IoErr;

/// Takes bytes.
pub trait Sink {
    // how often it has failed; never falls
    ghost faults: { Self → ℕ };

    // the bytes taken so far, where it tells
    ghost written: { Self → Option (List ℕ) };

    // whether it is known never to fail again
    ghost sure: { Self → Bool };

    /// Takes bytes from the front of the piece, and gives how many: at least one of a piece that isn't empty.
    /// An `Err` takes none; it is `Failed` only where the count of faults rose, and the count rises only at an `Err`.
    fn write(&mut self, piece: &[u8]) -> Result<usize, IoErr>
        ensures count { IfOk result (λ n. n ≤ length piece.now) }
        ensures some { IfOk result (λ n. 0 < length piece.now → 0 < n) }
        ensures taken { IfOk result (λ n. Takes (written self.old) (take n piece.now) (written self.new)) }
        ensures kept { OnErr result (written self.new ≡ written self.old) }
        ensures cause { HasCause (faults self.old) (faults self.new) result }
        ensures sure { StaysSure (sure self.old) (sure self.new) (faults self.old) (faults self.new) }
        ensures still { IfOk result (λ _. faults self.new ≡ faults self.old) };
}

/// Writes the whole piece, write by write. An `Err` has taken a front of it.
pub fn write_all<K: Sink>(sink: &mut K, piece: &[u8]) -> Result<(), IoErr>
    ensures taken { OnOk result (Takes (K.written sink.old) piece.now (K.written sink.new)) }
    ensures front { OnErr result (TakesFront (K.written sink.old) piece.now (K.written sink.new)) }
    ensures cause { HasCause (K.faults sink.old) (K.faults sink.new) result }
    ensures sure { StaysSure (K.sure sink.old) (K.sure sink.new) (K.faults sink.old) (K.faults sink.new) }
    ensures still { OnOk result (K.faults sink.new ≡ K.faults sink.old) }
{
    let mut taken = 0;
    while taken < piece.len() {
        taken += sink.write(&piece[taken..])?;
    }
    Ok(())
}
