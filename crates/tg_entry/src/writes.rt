//! The writes of a commit record.

ghost use Rattle.std.specs.Prelude.{◌≡◌, ◌≤◌, ◌++◌, length, OnOk, IfOk};
ghost use Rattle.tg_codec.specs.Reading.{Gives};
ghost use Rattle.tg_entry.specs.Writes.{write, after_write, stream_numbers, writes};

use crate::entry::WriteOp;
use std::alloc::{AllocError, Global};
use tg_base::{List, NoMemory, StreamLink};
use tg_codec::{
    Item, Measured, Owed, ReadFault, blob, oid_in, put_text, put_u32, read_items, size_items,
    u8_in, write_items,
};

// Writes that name each of the streams.
struct Writes;

impl Item for Writes {
    type State = Owed;

    type Value = WriteOp;

    ghost format = { write };

    ghost following = { after_write };

    fn read<'a>(
        alloc: Global,
        state: &Owed,
        bytes: &'a [u8],
    ) -> Result<(WriteOp, &'a [u8]), ReadFault> {
        let allowed = state.named(alloc)?;
        let (oid, rest) = oid_in(&allowed, bytes)?;
        let (op, rest) = blob(alloc, 1, rest)?;
        Ok((WriteOp { oid, op }, rest))
    }

    fn write(value: &WriteOp, out: &mut List<u8>) -> Result<(), NoMemory> {
        put_u32(value.oid.0, out)?;
        put_text(value.op.as_slice(), out)
    }

    fn follow(state: Owed, value: &WriteOp) -> Result<Owed, NoMemory> {
        Ok(state.paid(value.oid.0))
    }
}

impl Measured for Writes {
    fn size(value: &WriteOp) -> usize {
        6 + value.op.as_slice().len()
    }
}

/// The numbers of the streams' objects.
pub fn stream_numbers(alloc: Global, streams: &[StreamLink]) -> Result<Vec<u32>, AllocError>
    ensures { IfOk result (λ v. v.items ≡ stream_numbers streams.now) }
{
    streams.iter().map(|l| l.oid.0).collect(alloc)
}

/// The writes of a commit record in these streams.
#[tactic(auto, unfolding(crate::specs::Writes::writes))]
pub fn writes_in<'a>(
    alloc: Global,
    streams: &[StreamLink],
    bytes: &'a [u8],
) -> Result<(List<WriteOp>, &'a [u8]), ReadFault>
    ensures { Gives (λ x. (x.0, x.1.now)) result ((writes streams.now).read bytes.now) }
{
    let (count, rest) = u8_in(&[(streams.len() as u64, 64)], bytes)?;
    let names = stream_numbers(alloc, streams)?;
    let owed = Owed::all(alloc, u64::from(count), &names)?;
    let (writes, rest) = read_items::<Writes>(alloc, u64::from(count), owed, rest)?;
    Ok((writes, rest))
}

/// Puts the writes of a commit record in these streams last.
#[tactic(auto, unfolding(crate::specs::Writes::writes))]
pub fn put_writes(
    streams: &[StreamLink],
    value: &[WriteOp],
    out: &mut List<u8>,
) -> Result<(), NoMemory>
    requires { length value.now ≤ 255 }
    ensures { OnOk result (out.new ≡ out.old ++ (writes streams.now).spell value.now) }
{
    let _streams = streams;
    out.push(value.len() as u8)?;
    write_items::<Writes>(value, out)
}

/// The length of the spelling of the writes. It takes no memory.
#[tactic(auto, unfolding(crate::specs::Writes::writes))]
pub fn size_writes(streams: &[StreamLink], value: &[WriteOp]) -> usize
    requires { length value.now ≤ 255 }
    ensures len { result ≡ length ((writes streams.now).spell value.now) }
    ensures most { result ≤ 5000000 }
{
    let _streams = streams;
    1 + size_items::<Writes>(value)
}
