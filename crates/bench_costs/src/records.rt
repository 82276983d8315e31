//! Records that each give an object a name, of 26 in all.

ghost use Rattle.std.specs.Prelude.{◌≡◌, IfOk};
ghost use Rattle.bench_costs.specs.Plays.{op_at, record_at};

use std::alloc::Global;
use tg_base::{Blob, List, NoMemory, Oid, Part, Pos, ReadMark};
use tg_entry::{Body, Entry, Head, WriteOp};

/// The directory.
pub const DIR: Oid = Oid(0);

/// The record at a position, which has read the version that the one before it made. An `Err` is want of memory.
pub fn record_at(alloc: Global, pos: Pos) -> Result<Entry, NoMemory>
    ensures { IfOk result (λ e. e ≡ record_at pos) }
{
    let mut bytes = List::new(alloc);
    bytes.extend(&op_at(pos))?;
    let op = Blob::new(alloc, bytes)?.unwrap();
    let mut writes = List::new(alloc);
    writes.push(WriteOp { oid: DIR, op })?;
    let mut reads = List::new(alloc);
    reads.push(ReadMark {
        oid: DIR,
        part: Part::All,
        version: pos,
    })?;
    let head = Head {
        format: 2,
        client: 0,
        number: 1,
        streams: List::new(alloc),
    };
    let body = Body::Commit { reads, writes };
    Ok(Entry { head, body })
}

// The bytes of an op by which the directory names a counter: a letter and its number.
fn op_at(pos: Pos) -> [u8; 8]
    ensures { result ≡ op_at pos }
{
    let which = (pos % 26) as u8;
    [1, 0, 1, b'A' + which, 1, 0, 0, which]
}
