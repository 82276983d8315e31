//! The reads of a transaction, rising by object and then part.

ghost use Rattle.std.specs.Prelude.{◌≡◌, ◌≤◌, length, OnOk, OnErr, false, insert};
ghost use Rattle.std.specs.BTreeSet.{insert_key};
ghost use Rattle.tg_tx.specs.Pendings.{read_cmp, has_key, Rising};

use std::cmp::Ordering;
use tg_base::{List, NoMemory, ReadMark};

// Which of two marks stands first.
fn compare(mark: &ReadMark, other: &ReadMark) -> Ordering
    ensures { result ≡ read_cmp mark.now other.now }
{
    match mark.oid.compare(other.oid) {
        Ordering::Less => Ordering::Less,
        Ordering::Equal => mark.part.compare(&other.part),
        Ordering::Greater => Ordering::Greater,
    }
}

/// Whether the mark's part of its object is read. It takes no memory.
pub fn has_read(reads: &[ReadMark], mark: &ReadMark) -> bool
    ensures { result ≡ has_key read_cmp mark.now reads.now }
{
    reads.iter().any(|read| compare(mark, read).is_eq())
}

// Where the mark of a part that isn't read has its place.
fn place_of(reads: &[ReadMark], mark: &ReadMark) -> usize
    requires { has_key read_cmp mark.now reads.now ≡ false }
    ensures within { result ≤ length reads.now }
    ensures place { insert_key read_cmp reads.now mark.now ≡ insert reads.now result mark.now }
{
    for (place, read) in reads.iter().enumerate() {
        if compare(mark, read).is_lt() {
            return place;
        }
    }
    reads.len()
}

/// Puts a mark at its place, unless its part is read already. An `Err` changes nothing.
pub fn add_read(reads: &mut List<ReadMark>, mark: ReadMark) -> Result<(), NoMemory>
    requires { Rising read_cmp reads.old }
    ensures ok { OnOk result (reads.new ≡ insert_key read_cmp reads.old mark) }
    ensures err { OnErr result (reads.new ≡ reads.old) }
{
    if has_read(reads.as_slice(), &mark) {
        return Ok(());
    }
    let place = place_of(reads.as_slice(), &mark);
    reads.insert(place, mark)
}
