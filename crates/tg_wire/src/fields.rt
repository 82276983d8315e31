//! Cells, ballots and objects, as messages have them.

ghost use Rattle.std.specs.Prelude.{◌≡◌, ◌≤◌, ◌++◌, length, OnOk};
ghost use Rattle.tg_codec.specs.Reading.{Gives};
ghost use Rattle.tg_codec.specs.Streams.{any};
ghost use Rattle.tg_wire.specs.Fields.{cell, ballot, object, after_object, objects};

use std::alloc::Global;
use tg_base::{Ballot, Cell, List, NoMemory, Oid};
use tg_codec::{
    Item, Measured, ReadFault, blob, oid_from, put_text, put_u16, put_u32, read_items, size_items,
    u8_in, u16_in, u32_in, write_items,
};

/// A cell.
pub fn cell_in(alloc: Global, bytes: &[u8]) -> Result<(Cell, &[u8]), ReadFault>
    ensures { Gives (λ x. (x.0, x.1.now)) result (cell.read bytes.now) }
{
    let (tag, rest) = u8_in(&[(0, 1)], bytes)?;
    match tag {
        0 => Ok((Cell::Junk, rest)),
        _ => {
            let (page, rest) = blob(alloc, 0, rest)?;
            Ok((Cell::Data(page), rest))
        }
    }
}

/// Puts a cell last.
pub fn put_cell(value: &Cell, out: &mut List<u8>) -> Result<(), NoMemory>
    ensures { OnOk result (out.new ≡ out.old ++ cell.spell value.now) }
{
    match value {
        Cell::Junk => out.push(0),
        Cell::Data(page) => {
            out.push(1)?;
            put_text(page.as_slice(), out)
        }
    }
}

/// The length of a cell's spelling. It takes no memory.
pub fn size_cell(value: &Cell) -> usize
    ensures len { result ≡ length (cell.spell value.now) }
    ensures most { result ≤ 4099 }
{
    match value {
        Cell::Junk => 1,
        Cell::Data(page) => 3 + page.as_slice().len(),
    }
}

/// A ballot.
pub fn ballot_in(bytes: &[u8]) -> Result<(Ballot, &[u8]), ReadFault>
    ensures { Gives (λ x. (x.0, x.1.now)) result (ballot.read bytes.now) }
{
    let (round, rest) = u32_in(&[(0, u64::MAX)], bytes)?;
    let (client, rest) = u16_in(&[(0, u64::MAX)], rest)?;
    Ok((Ballot { round, client }, rest))
}

/// Puts a ballot last.
pub fn put_ballot(value: Ballot, out: &mut List<u8>) -> Result<(), NoMemory>
    ensures { OnOk result (out.new ≡ out.old ++ ballot.spell value) }
{
    put_u32(value.round, out)?;
    put_u16(value.client, out)
}

// Objects that rise.
struct Objects;

impl Item for Objects {
    type State = u64;

    type Value = Oid;

    ghost format = { object };

    ghost following = { after_object };

    fn read<'a>(
        _alloc: Global,
        state: &u64,
        bytes: &'a [u8],
    ) -> Result<(Oid, &'a [u8]), ReadFault> {
        oid_from(*state, bytes)
    }

    fn write(value: &Oid, out: &mut List<u8>) -> Result<(), NoMemory> {
        put_u32(value.0, out)
    }

    fn follow(_state: u64, value: &Oid) -> Result<u64, NoMemory> {
        Ok(u64::from(value.0) + 1)
    }
}

impl Measured for Objects {
    fn size(_value: &Oid) -> usize {
        4
    }
}

/// Objects that rise, behind their count, which is from some ranges.
pub fn objects_in<'a>(
    alloc: Global,
    counts: &[(u64, u64)],
    bytes: &'a [u8],
) -> Result<(List<Oid>, &'a [u8]), ReadFault>
    ensures { Gives (λ x. (x.0, x.1.now)) result ((objects counts.now).read bytes.now) }
{
    let (count, rest) = u8_in(counts, bytes)?;
    let (oids, rest) = read_items::<Objects>(alloc, u64::from(count), 0, rest)?;
    Ok((oids, rest))
}

/// Puts objects last, behind their count.
pub fn put_objects(value: &[Oid], out: &mut List<u8>) -> Result<(), NoMemory>
    requires { length value.now ≤ 255 }
    ensures { OnOk result (out.new ≡ out.old ++ (objects any).spell value.now) }
{
    out.push(value.len() as u8)?;
    write_items::<Objects>(value, out)
}

/// The length of the spelling of objects behind their count. It takes no memory.
pub fn size_objects(value: &[Oid]) -> usize
    requires { length value.now ≤ 255 }
    ensures len { result ≡ length ((objects any).spell value.now) }
    ensures most { result ≤ 5000000 }
{
    1 + size_items::<Objects>(value)
}
