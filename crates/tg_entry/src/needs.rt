//! Which records need a decision record.

ghost use Rattle.std.specs.Prelude.{◌≡◌, not};
ghost use Rattle.std.specs.List.{list_any};
ghost use Rattle.tg_base.specs.Orders.{oid_eq};
ghost use Rattle.tg_entry.specs.Needs.{needs_decision, names_another};

use crate::entry::{Body, Entry, WriteOp};
use tg_base::{Oid, ReadMark};

/// Whether a client that hosts a part of the objects alone may be unable to tell the record's outcome: it is a
/// commit record that reads something, and reads and writes two objects at least. It takes no memory.
pub fn needs_decision(entry: &Entry) -> bool
    ensures { result ≡ needs_decision entry.now }
{
    match &entry.body {
        Body::Commit { reads, writes } => names_another(reads.as_slice(), writes.as_slice()),
        Body::Decision { .. } | Body::Checkpoint { .. } => false,
    }
}

// Whether another object than that of the first read is read or written.
fn names_another(reads: &[ReadMark], writes: &[WriteOp]) -> bool
    ensures { result ≡ names_another reads.now writes.now }
{
    match reads {
        [] => false,
        [first, rest @ ..] => has_other_read(rest, first.oid) || has_other_write(writes, first.oid),
    }
}

fn has_other_read(reads: &[ReadMark], oid: Oid) -> bool
    ensures { result ≡ list_any (λ m. not (oid_eq m.oid oid)) reads.now }
{
    reads.iter().any(|m| m.oid.0 != oid.0)
}

fn has_other_write(writes: &[WriteOp], oid: Oid) -> bool
    ensures { result ≡ list_any (λ w. not (oid_eq w.oid oid)) writes.now }
{
    writes.iter().any(|w| w.oid.0 != oid.0)
}
