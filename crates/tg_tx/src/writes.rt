//! The writes of a transaction, and its streams.

ghost use Rattle.std.specs.Prelude.{◌≡◌, ℕ, List, ◌≤◌, ◌+◌, ◌++◌, ◌∷◌, [], length, map, IfOk, if◌then◌else◌};
ghost use Rattle.std.specs.List.{list_any};
ghost use Rattle.tg_entry.specs.declared.entry.WriteOp.{WriteOp};
ghost use Rattle.tg_base.specs.Orders.{oid_eq, rising_oids};
ghost use Rattle.tg_entry.specs.Needs.{write_oid};
ghost use Rattle.tg_protocol.specs.Entries.{unlinked};
ghost use Rattle.tg_protocol.specs.Transactions.{tx_streams};

use std::alloc::Global;
use std::collections::BTreeSet;
use tg_base::{Backs, List, NoMemory, Oid, StreamLink};
use tg_entry::WriteOp;

/// Whether an object is written. It takes no memory.
pub fn has_write(writes: &[WriteOp], oid: Oid) -> bool
    ensures { result ≡ list_any (λ (w : WriteOp). oid_eq w.oid oid) writes.now }
{
    writes.iter().any(|write| write.oid.0 == oid.0)
}

// How many streams a write of an object adds to those of writes. It takes no memory.
fn streams_added(writes: &[WriteOp], oid: Oid) -> usize
    ensures count { result ≡ (if list_any (λ (w : WriteOp). oid_eq w.oid oid) writes.now then 0 else 1) }
    ensures most { result ≤ 1 }
{
    if has_write(writes, oid) { 0 } else { 1 }
}

/// How many objects are written. It takes no memory.
pub fn stream_count(writes: &[WriteOp]) -> usize
    ensures count { result ≡ length (tx_streams writes.now) }
    ensures most { result ≤ length writes.now }
{
    let mut count = 0;
    for at in (0..writes.len()).rev() {
        let oid = writes[at].oid;
        let later = &writes[at + 1..];
        count += streams_added(later, oid);
    }
    count
}

/// How many objects are written with one write more. It takes no memory.
pub fn streams_with(writes: &[WriteOp], oid: Oid) -> usize
    ensures count { (op : List ℕ) → result ≡ length (tx_streams (writes.now ++ record { oid = oid; op = op } ∷ [])) }
    ensures most { result ≤ length writes.now + 1 }
{
    stream_count(writes) + streams_added(writes, oid)
}

// The objects that are written, rising.
fn streams_of(alloc: Global, writes: &[WriteOp]) -> Result<BTreeSet<Oid>, NoMemory>
    ensures { IfOk result (λ s. s.keys ≡ tx_streams writes.now) }
{
    let mut oids = BTreeSet::new(alloc);
    for at in (0..writes.len()).rev() {
        oids.insert(writes[at].oid)?;
    }
    Ok(oids)
}

/// The streams of a record, which name no positions.
pub fn links_of(alloc: Global, writes: &[WriteOp]) -> Result<List<StreamLink>, NoMemory>
    ensures { IfOk result (λ l. l ≡ map unlinked (tx_streams writes.now)) }
{
    let oids = streams_of(alloc, writes)?;
    let mut links = List::new(alloc);
    for oid in &oids {
        let backs = Backs::of(&[]).unwrap();
        links.push(StreamLink { oid: *oid, backs })?;
    }
    Ok(links)
}
