//! A source in memory.

ghost use Rattle.std.specs.Prelude.{◌≡◌, ◌+◌, ◌-◌, ◌^◌, ◌==◌, Some, length, take, min, is_err, IfOk, OnErr};
ghost use Rattle.tg_io.specs.Calls.{called, failures, fails_next, never_fails};
ghost use Rattle.tg_io.specs.Memory.{KeepsSure, input_gives, input_room};

use crate::calls::Calls;
use crate::fault::IoErr;
use crate::source::Source;
use std::marker::Model;
use tg_base::List;

/// Gives the bytes of a list, and fails at the calls that a list names.
#[derive(Drop)]
pub struct MemSource {
    bytes: List<u8>,
    given: usize,
    calls: Calls,
}

impl Model for MemSource {
    ghost use Rattle.std.specs.Prelude.{◌≤◌, length, drop};
    ghost use Rattle.tg_io.specs.Memory.{Input};

    ghost Value = { Input };

    ghost view = { λ s. record { left = drop s.given s.bytes; given = s.given; calls = s.calls } };

    ghost invariant = { λ s. s.given ≤ length s.bytes };
}

impl MemSource {
    /// All bytes are still to come. `fails` names the reads, from 0, that fail.
    pub fn new(bytes: List<u8>, fails: List<u64>) -> MemSource
        ensures value { result ≡ record { left = bytes; given = 0; calls = record { made = 0; fails = fails } } }
        ensures left { ⟦<MemSource as Source>⟧.left result ≡ Some bytes }
        ensures room { ⟦<MemSource as Source>⟧.room result ≡ 2 ^ 64 - 1 }
        ensures faults { ⟦<MemSource as Source>⟧.faults result ≡ 0 }
        ensures sure { ⟦<MemSource as Source>⟧.sure result ≡ (length fails == 0) }
    {
        MemSource {
            bytes,
            given: 0,
            calls: Calls::new(fails),
        }
    }
}

impl Source for MemSource {
    ghost use Rattle.std.proofs.Common.{rules, arith};

    ghost faults = { λ s. failures s.calls };

    ghost room = { input_room };

    ghost left = { λ s. Some s.left };

    ghost sure = { λ s. never_fails s.calls };

    /// Gives as many bytes as fit. It fails exactly where the list names this call.
    fn read(&mut self, buf: &mut [u8]) -> Result<usize, IoErr>
        ensures fails { is_err result ≡ fails_next self.old.calls }
        ensures err { OnErr result (self.new ≡ record self.old { calls = called self.old.calls }) }
        ensures count { IfOk result (λ n. n ≡ min (length self.old.left) (length buf.old)) }
        ensures bytes { IfOk result (λ n. take n buf.new ≡ take n self.old.left) }
        ensures ok { IfOk result (λ n. self.new ≡ input_gives self.old n) }
        ensures room { IfOk result (λ n. input_room self.new + n ≡ input_room self.old) }
        ensures sure { KeepsSure self.old.calls self.new.calls }
    {
        if self.calls.next_fails() {
            return Err(IoErr::Failed);
        }
        let rest = &self.bytes.as_slice()[self.given..];
        let count = rest.len().min(buf.len());
        buf[..count].copy_from_slice(&rest[..count]);
        self.given += count;
        Ok(count)
    }

    ghost capped = { λ s. Prim.search (rules, arith) };
}
