//! The streams of the system, as a source and a sink. Nothing is told of their content.
//!
//! A call that the system interrupts is made again, as with std's own; every other error counts as a fault.

ghost use Rattle.std.specs.Prelude.{◌≡◌, ◌<◌, ◌≤◌, ◌+◌, ◌-◌, ◌^◌, None, false, length, take, IfSome, IfOk, OnErr, IfNone};
ghost use Rattle.std.specs.Io.KnownBytes.{Appends, Consumes, IsAtEnd, Keeps};
ghost use Rattle.tg_io.specs.Faults.{HasCause, Rose};

use crate::fault::IoErr;
use crate::sink::Sink;
use crate::source::Source;
use std::io::{ErrorKind, Read, Write};

/// A source over a reader.
#[derive(Drop)]
pub struct Reading<R> {
    reader: R,
    given: u64,
    faults: u64,
}

impl<R: Read> Reading<R> {
    /// Nothing was read yet.
    pub fn new(reader: R) -> Reading<R>
        ensures room { ⟦<Reading<R> as Source>⟧.room result ≡ 2 ^ 64 - 1 }
        ensures faults { ⟦<Reading<R> as Source>⟧.faults result ≡ 0 }
    {
        Reading {
            reader,
            given: 0,
            faults: 0,
        }
    }
}

impl<R: Read> Source for Reading<R> {
    ghost use Rattle.std.proofs.Common.{rules, arith};

    ghost faults = { λ s. s.faults };

    ghost room = { λ s. 2 ^ 64 - 1 - s.given };

    ghost left = { λ _. None };

    ghost sure = { λ _. false };

    /// Fails at an error of the reader, which then has what it had, and where it gives more than there is room for.
    /// A fault is counted only there.
    fn read(&mut self, buf: &mut [u8]) -> Result<usize, IoErr>
        ensures count { IfOk result (λ n. n ≤ length buf.new) }
        ensures bytes { IfOk result (λ n. Consumes (R.remaining self.old.reader) (R.remaining self.new.reader) (take n buf.new)) }
        ensures end { IfOk result (λ n. n ≡ 0 → 0 < length buf.old → IsAtEnd (R.remaining self.new.reader)) }
        ensures room { IfOk result (λ n. 2 ^ 64 - 1 - self.new.given + n ≡ 2 ^ 64 - 1 - self.old.given) }
        ensures kept { OnErr result (self.new.given ≡ self.old.given) }
        ensures cause { HasCause self.old.faults self.new.faults result }
        ensures still { IfOk result (λ _. self.new.faults ≡ self.old.faults) }
        ensures none_lost { OnErr result (self.old.given + length buf.old < 2 ^ 64 → Keeps (R.remaining self.old.reader) (R.remaining self.new.reader)) }
    {
        let count = read_once(&mut self.reader, buf);
        let given = count.and_then(|count| self.given.checked_add(count as u64));
        if let (Some(count), Some(given)) = (count, given) {
            self.given = given;
            return Ok(count);
        }
        self.faults = raised(self.faults);
        Err(IoErr::Failed)
    }

    ghost capped = { λ s. Prim.search (rules, arith) };
}

/// A sink over a writer.
#[derive(Drop)]
pub struct Writing<W> {
    writer: W,
    faults: u64,
}

impl<W: Write> Writing<W> {
    /// Nothing was written yet.
    pub fn new(writer: W) -> Writing<W>
        ensures { ⟦<Writing<W> as Sink>⟧.faults result ≡ 0 }
    {
        Writing { writer, faults: 0 }
    }
}

impl<W: Write> Sink for Writing<W> {
    ghost faults = { λ s. s.faults };

    ghost written = { λ _. None };

    ghost sure = { λ _. false };

    /// Fails at an error of the writer, and where it takes nothing of a piece that isn't empty. The writer then has
    /// what it had. A fault is counted only there.
    fn write(&mut self, piece: &[u8]) -> Result<usize, IoErr>
        ensures count { IfOk result (λ n. n ≤ length piece.now) }
        ensures some { IfOk result (λ n. 0 < length piece.now → 0 < n) }
        ensures bytes { IfOk result (λ n. Appends (W.contents self.old.writer) (W.contents self.new.writer) (take n piece.now)) }
        ensures cause { HasCause self.old.faults self.new.faults result }
        ensures still { IfOk result (λ _. self.new.faults ≡ self.old.faults) }
        ensures none_kept { OnErr result (Keeps (W.contents self.old.writer) (W.contents self.new.writer)) }
    {
        match write_once(&mut self.writer, piece) {
            Some(count) if count > 0 || piece.is_empty() => Ok(count),
            _ => {
                self.faults = raised(self.faults);
                Err(IoErr::Failed)
            }
        }
    }
}

// The count after one fault more.
fn raised(faults: u64) -> u64
    ensures later { faults ≤ result }
    ensures rose { Rose faults result }
{
    faults.saturating_add(1)
}

// A read that isn't interrupted, or None at another error.
fn read_once<R: Read>(reader: &mut R, buf: &mut [u8]) -> Option<usize>
    ensures count { IfSome result (λ n. n ≤ length buf.new) }
    ensures bytes { IfSome result (λ n. Consumes (R.remaining reader.old) (R.remaining reader.new) (take n buf.new)) }
    ensures end { IfSome result (λ n. n ≡ 0 → 0 < length buf.old → IsAtEnd (R.remaining reader.new)) }
    ensures none_lost { IfNone result (Keeps (R.remaining reader.old) (R.remaining reader.new)) }
{
    for _ in 0..u64::MAX {
        match reader.read(buf) {
            Ok(count) => return Some(count),
            Err(e) if e.kind() == ErrorKind::Interrupted => {}
            Err(_) => return None,
        }
    }
    None
}

// A write that isn't interrupted, or None at another error.
fn write_once<W: Write>(writer: &mut W, piece: &[u8]) -> Option<usize>
    ensures count { IfSome result (λ n. n ≤ length piece.now) }
    ensures bytes { IfSome result (λ n. Appends (W.contents writer.old) (W.contents writer.new) (take n piece.now)) }
    ensures none_kept { IfNone result (Keeps (W.contents writer.old) (W.contents writer.new)) }
{
    for _ in 0..u64::MAX {
        match writer.write(piece) {
            Ok(count) => return Some(count),
            Err(e) if e.kind() == ErrorKind::Interrupted => {}
            Err(_) => return None,
        }
    }
    None
}
