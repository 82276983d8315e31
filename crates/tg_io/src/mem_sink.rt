//! A sink in memory.

ghost use Rattle.std.specs.Prelude.{◌≡◌, ◌==◌, ◌↔◌, Some, [], length, IfOk, OnOk, OnErr, IsErrOf, IsTrue};
ghost use Rattle.tg_io.specs.Calls.{called, failures, fails_next, never_fails};
ghost use Rattle.tg_io.specs.Memory.{KeepsSure, output_takes};
ghost use Rattle.tg_io.specs.declared.fault.IoErr.TheVariants.{Failed};

use crate::calls::Calls;
use crate::fault::IoErr;
use crate::sink::Sink;
use std::alloc::Global;
use std::marker::Model;
use tg_base::List;

/// Keeps the bytes, and fails at the calls that a list names.
#[derive(Drop)]
pub struct MemSink {
    bytes: List<u8>,
    calls: Calls,
}

impl Model for MemSink {
    ghost use Rattle.tg_io.specs.Memory.{Output};

    ghost Value = { Output };

    ghost view = { λ s. record { written = s.bytes; calls = s.calls } };
}

impl MemSink {
    /// Nothing is written. `fails` names the writes, from 0, that fail.
    pub fn new(alloc: Global, fails: List<u64>) -> MemSink
        ensures value { result ≡ record { written = []; calls = record { made = 0; fails = fails } } }
        ensures written { ⟦<MemSink as Sink>⟧.written result ≡ Some [] }
        ensures faults { ⟦<MemSink as Sink>⟧.faults result ≡ 0 }
        ensures sure { ⟦<MemSink as Sink>⟧.sure result ≡ (length fails == 0) }
    {
        MemSink {
            bytes: List::new(alloc),
            calls: Calls::new(fails),
        }
    }

    /// The bytes written so far.
    pub fn written(&self) -> &[u8]
        ensures { result.now ≡ self.now.written }
    {
        self.bytes.as_slice()
    }
}

impl Sink for MemSink {
    ghost faults = { λ s. failures s.calls };

    ghost written = { λ s. Some s.written };

    ghost sure = { λ s. never_fails s.calls };

    /// Takes the whole piece. It is `Failed` exactly where the list names this call.
    fn write(&mut self, piece: &[u8]) -> Result<usize, IoErr>
        ensures fails { IsErrOf result Failed ↔ IsTrue (fails_next self.old.calls) }
        ensures err { OnErr result (self.new ≡ record self.old { calls = called self.old.calls }) }
        ensures whole { IfOk result (λ n. n ≡ length piece.now) }
        ensures ok { OnOk result (self.new ≡ output_takes self.old piece.now) }
        ensures sure { KeepsSure self.old.calls self.new.calls }
    {
        if self.calls.next_fails() {
            return Err(IoErr::Failed);
        }
        self.bytes.extend(piece)?;
        Ok(piece.len())
    }
}
