//! The limits of a transaction: 16 streams, 64 reads, 64 writes, and a record of one page.

ghost use Rattle.std.specs.Prelude.{◌≡◌, ◌≤◌, ◌<◌, ◌++◌, ◌∷◌, [], ℕ, List, false, length, OnOk};
ghost use Rattle.std.specs.Prelude.{MatchResult};
ghost use Rattle.tg_base.specs.declared.marks.ReadMark.{ReadMark};
ghost use Rattle.tg_protocol.specs.Transactions.{tx_streams, too_large, read_fault, write_fault};
ghost use Rattle.tg_tx.specs.Faults.{Judges, Refuses, is_too_many};
ghost use Rattle.tg_tx.specs.Pendings.{bare, read_cmp, has_key};

use crate::fault::TxFault;
use crate::reads::has_read;
use crate::sizes::{read_size, record_size};
use crate::writes::{stream_count, streams_with};
use tg_base::{Many, Oid, ReadMark};
use tg_entry::WriteOp;

// The most streams, reads and writes, and bytes.
const STREAMS: usize = 16;

const READS: usize = 64;

const WRITES: usize = 64;

const BYTES: usize = 4096;

// Whether a record of so many bytes has a page.
fn fits(bytes: usize) -> Result<(), TxFault>
    ensures judged { Judges result (too_large bytes) }
    ensures page { OnOk result (bytes ≤ 4096) }
{
    if bytes > BYTES {
        return Err(TxFault::TooLarge { bytes });
    }
    Ok(())
}

/// Whether a read is taken. It takes no memory.
pub fn may_read(reads: &[ReadMark], writes: &[WriteOp], mark: &ReadMark) -> Result<(), TxFault>
    requires reads { length reads.now ≤ 64 }
    requires writes { length writes.now ≤ 64 }
    ensures judged { Judges result (read_fault (bare reads.now writes.now) mark.now.oid mark.now.part) }
    ensures few { OnOk result (has_key read_cmp mark.now reads.now ≡ false → length reads.now < 64) }
{
    if has_read(reads, mark) {
        return Ok(());
    }
    if reads.len() >= READS {
        return Err(TxFault::TooMany { what: Many::Reads });
    }
    let streams = stream_count(writes);
    let bytes = record_size(streams, reads, writes) + read_size(mark);
    fits(bytes)
}

/// Whether there is room for one write more of an object, whatever its bytes. It takes no memory.
pub fn has_room(writes: &[WriteOp], oid: Oid) -> Result<(), TxFault>
    ensures { MatchResult result (λ _. (rs : List ReadMark) (op : List ℕ) → is_too_many (write_fault (bare rs writes.now) (record { oid = oid; op = op })) ≡ false) (λ e. (rs : List ReadMark) (op : List ℕ) → Refuses e (write_fault (bare rs writes.now) (record { oid = oid; op = op }))) }
{
    if streams_with(writes, oid) > STREAMS {
        return Err(TxFault::TooMany {
            what: Many::Streams,
        });
    }
    if writes.len() >= WRITES {
        return Err(TxFault::TooMany { what: Many::Writes });
    }
    Ok(())
}

/// Whether a write is taken. It takes no memory.
pub fn may_put(reads: &[ReadMark], writes: &[WriteOp], oid: Oid, op: &[u8]) -> Result<(), TxFault>
    requires reads { length reads.now ≤ 64 }
    requires writes { length writes.now ≤ 64 }
    ensures judged { Judges result (write_fault (bare reads.now writes.now) (record { oid = oid; op = op.now })) }
    ensures few { OnOk result (length writes.now < 64) }
    ensures narrow { OnOk result ((bytes : List ℕ) → length (tx_streams (writes.now ++ record { oid = oid; op = bytes } ∷ [])) ≤ 16) }
    ensures short { OnOk result (length op.now ≤ 4096) }
{
    let streams = streams_with(writes, oid);
    if streams > STREAMS {
        return Err(TxFault::TooMany {
            what: Many::Streams,
        });
    }
    if writes.len() >= WRITES {
        return Err(TxFault::TooMany { what: Many::Writes });
    }
    let bytes = record_size(streams, reads, writes) + 6 + op.len();
    fits(bytes)
}
