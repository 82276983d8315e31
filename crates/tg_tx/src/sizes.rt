//! How many bytes a commit record takes.

ghost use Rattle.std.specs.Prelude.{◌≡◌, ◌≤◌, ◌*◌, length, map};
ghost use Rattle.tg_protocol.specs.Entries.{sum_of, part_size, read_size, write_size, commit_size};

use tg_base::{Part, ReadMark};
use tg_entry::WriteOp;

fn part_size(part: &Part) -> usize
    ensures size { result ≡ part_size part.now }
    ensures most { result ≤ 4099 }
{
    match part {
        Part::All => 1,
        Part::Text(text) => 3 + text.as_slice().len(),
        Part::Num(_) => 9,
    }
}

/// The bytes of a read. It takes no memory.
pub fn read_size(read: &ReadMark) -> usize
    ensures size { result ≡ read_size read.now }
    ensures most { result ≤ 4111 }
{
    12 + part_size(&read.part)
}

/// The bytes of reads. It takes no memory.
pub fn reads_size(reads: &[ReadMark]) -> usize
    requires { length reads.now ≤ 64 }
    ensures size { result ≡ sum_of (map read_size reads.now) }
    ensures most { result ≤ 300000 }
{
    let mut size = 0;
    for read in reads {
        size += read_size(read);
    }
    size
}

/// The bytes of a write. It takes no memory.
pub fn write_size(write: &WriteOp) -> usize
    ensures size { result ≡ write_size write.now }
    ensures most { result ≤ 4102 }
{
    6 + write.op.as_slice().len()
}

/// The bytes of writes. It takes no memory.
pub fn writes_size(writes: &[WriteOp]) -> usize
    requires { length writes.now ≤ 64 }
    ensures size { result ≡ sum_of (map write_size writes.now) }
    ensures most { result ≤ 300000 }
{
    let mut size = 0;
    for write in writes {
        size += write_size(write);
    }
    size
}

/// The bytes of a commit record in so many streams. It takes no memory.
pub fn record_size(streams: usize, reads: &[ReadMark], writes: &[WriteOp]) -> usize
    requires streams { streams ≤ 65 }
    requires reads { length reads.now ≤ 64 }
    requires writes { length writes.now ≤ 64 }
    ensures size { result ≡ commit_size streams reads.now writes.now }
    ensures most { result ≤ 700000 }
{
    12 + 37 * streams + reads_size(reads) + writes_size(writes)
}
