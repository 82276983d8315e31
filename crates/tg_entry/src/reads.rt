//! The reads of a commit record.

ghost use Rattle.std.specs.Prelude.{◌≡◌, ◌≤◌, ◌++◌, length, OnOk};
ghost use Rattle.tg_codec.specs.Reading.{Gives};
ghost use Rattle.tg_codec.specs.Streams.{any};
ghost use Rattle.tg_entry.specs.Parts.{part_above};
ghost use Rattle.tg_entry.specs.Reads.{bound_of, mark, after_mark, old_mark, after_old_mark, no_read, reads};

use crate::parts::{part_above, part_size, put_part};
use std::alloc::Global;
use tg_base::{List, NoMemory, Oid, Part, ReadMark};
use tg_codec::{
    Item, Measured, ReadFault, oid_from, put_u32, put_u64, read_items, size_items, u8_in, u64_in,
    write_items,
};

/// The read before: none has a part.
#[derive(Drop)]
pub struct LastRead {
    oid: u32,
    part: Option<Part>,
}

// Reads that rise by object and then part.
struct Marks;

fn next_part<'a>(
    alloc: Global,
    last: &LastRead,
    oid: Oid,
    bytes: &'a [u8],
) -> Result<(Part, &'a [u8]), ReadFault>
    ensures { Gives (λ x. (x.0, x.1.now)) result ((part_above (bound_of last.now oid)).read bytes.now) }
{
    if last.oid == oid.0 {
        part_above(alloc, &last.part, bytes)
    } else {
        part_above(alloc, &None, bytes)
    }
}

impl Item for Marks {
    type State = LastRead;

    type Value = ReadMark;

    ghost format = { mark };

    ghost following = { after_mark };

    fn read<'a>(
        alloc: Global,
        state: &LastRead,
        bytes: &'a [u8],
    ) -> Result<(ReadMark, &'a [u8]), ReadFault> {
        let (oid, rest) = oid_from(u64::from(state.oid), bytes)?;
        let (part, rest) = next_part(alloc, state, oid, rest)?;
        let (version, rest) = u64_in(&[(0, u64::MAX)], rest)?;
        Ok((ReadMark { oid, part, version }, rest))
    }

    fn write(value: &ReadMark, out: &mut List<u8>) -> Result<(), NoMemory> {
        put_u32(value.oid.0, out)?;
        put_part(&value.part, out)?;
        put_u64(value.version, out)
    }

    fn follow(_state: LastRead, value: &ReadMark) -> Result<LastRead, NoMemory> {
        Ok(LastRead {
            oid: value.oid.0,
            part: Some(value.part.copy()?),
        })
    }
}

impl Measured for Marks {
    fn size(value: &ReadMark) -> usize {
        12 + part_size(&value.part)
    }
}

// Reads of whole objects, rising by object, as format 1 has them.
struct OldMarks;

impl Item for OldMarks {
    type State = u64;

    type Value = ReadMark;

    ghost format = { old_mark };

    ghost following = { after_old_mark };

    fn read<'a>(
        _alloc: Global,
        state: &u64,
        bytes: &'a [u8],
    ) -> Result<(ReadMark, &'a [u8]), ReadFault> {
        let (oid, rest) = oid_from(*state, bytes)?;
        let (version, rest) = u64_in(&[(0, u64::MAX)], rest)?;
        let part = Part::All;
        Ok((ReadMark { oid, part, version }, rest))
    }

    fn write(value: &ReadMark, out: &mut List<u8>) -> Result<(), NoMemory> {
        put_u32(value.oid.0, out)?;
        put_u64(value.version, out)?;
        Ok(())
    }

    fn follow(_state: u64, value: &ReadMark) -> Result<u64, NoMemory> {
        Ok(u64::from(value.oid.0) + 1)
    }
}

impl Measured for OldMarks {
    fn size(_value: &ReadMark) -> usize {
        12
    }
}

/// The reads of a commit record of a format.
#[tactic(auto, unfolding(crate::specs::Reads::reads, crate::specs::Reads::marks))]
pub fn reads_in(
    alloc: Global,
    format: u8,
    bytes: &[u8],
) -> Result<(List<ReadMark>, &[u8]), ReadFault>
    ensures { Gives (λ x. (x.0, x.1.now)) result ((reads format).read bytes.now) }
{
    let (count, rest) = u8_in(&[(0, 64)], bytes)?;
    if format == 1 {
        let (marks, rest) = read_items::<OldMarks>(alloc, u64::from(count), 0, rest)?;
        Ok((marks, rest))
    } else {
        let none = LastRead { oid: 0, part: None };
        let (marks, rest) = read_items::<Marks>(alloc, u64::from(count), none, rest)?;
        Ok((marks, rest))
    }
}

/// Puts the reads of a commit record of a format last.
#[tactic(auto, unfolding(crate::specs::Reads::reads, crate::specs::Reads::marks))]
pub fn put_reads(format: u8, value: &[ReadMark], out: &mut List<u8>) -> Result<(), NoMemory>
    requires { length value.now ≤ 255 }
    ensures { OnOk result (out.new ≡ out.old ++ (reads format).spell value.now) }
{
    out.push(value.len() as u8)?;
    if format == 1 {
        write_items::<OldMarks>(value, out)
    } else {
        write_items::<Marks>(value, out)
    }
}

/// The length of the spelling of the reads. It takes no memory.
#[tactic(auto, unfolding(crate::specs::Reads::reads, crate::specs::Reads::marks))]
pub fn size_reads(format: u8, value: &[ReadMark]) -> usize
    requires { length value.now ≤ 255 }
    ensures len { result ≡ length ((reads format).spell value.now) }
    ensures most { result ≤ 5000000 }
{
    if format == 1 {
        1 + size_items::<OldMarks>(value)
    } else {
        1 + size_items::<Marks>(value)
    }
}
