//! Objects and streams, as both entries and packets have them.

ghost use Rattle.std.specs.Prelude.{◌≡◌, ◌≤◌, ◌++◌, length, OnOk};
ghost use Rattle.tg_codec.specs.Reading.{Gives};
ghost use Rattle.tg_codec.specs.Streams.{any, oid, oids_from, position, then_before, before, zeros, backs, link, after_link, links};

use crate::fault::ReadFault;
use crate::items::{Item, Measured, read_items, size_items, write_items};
use crate::read::{fixed, u8_in, u32_in, u64_in};
use crate::write::{put_u32, put_u64, put_zeros};
use std::alloc::Global;
use tg_base::{Backs, List, NoMemory, Oid, StreamLink};

const ZEROS: [u8; 32] = [0; 32];

/// An object, whose number is from some ranges.
pub fn oid_in<'a>(allowed: &[(u64, u64)], bytes: &'a [u8]) -> Result<(Oid, &'a [u8]), ReadFault>
    ensures { Gives (λ x. (x.0, x.1.now)) result ((oid allowed.now).read bytes.now) }
{
    let (n, rest) = u32_in(allowed, bytes)?;
    Ok((Oid(n), rest))
}

/// An object, whose number is `low` at least.
pub fn oid_from(low: u64, bytes: &[u8]) -> Result<(Oid, &[u8]), ReadFault>
    ensures { Gives (λ x. (x.0, x.1.now)) result ((oid (oids_from low)).read bytes.now) }
{
    oid_in(&[(low, 0), (low.max(0x0100_0000), 0x06ff_ffff)], bytes)
}

struct Positions;

fn positions_before(pos: u64) -> (u64, u64)
    ensures { result ≡ before pos }
{
    if pos == 0 { (1, 0) } else { (0, pos - 1) }
}

impl Item for Positions {
    type State = (u64, u64);

    type Value = u64;

    ghost format = { position };

    ghost following = { then_before };

    fn read<'a>(
        _alloc: Global,
        state: &(u64, u64),
        bytes: &'a [u8],
    ) -> Result<(u64, &'a [u8]), ReadFault> {
        u64_in(&[*state], bytes)
    }

    fn write(value: &u64, out: &mut List<u8>) -> Result<(), NoMemory> {
        put_u64(*value, out)
    }

    fn follow(_state: (u64, u64), value: &u64) -> Result<(u64, u64), NoMemory> {
        Ok(positions_before(*value))
    }
}

fn zeros(count: usize, bytes: &[u8]) -> Result<((), &[u8]), ReadFault>
    requires { count ≤ 32 }
    ensures { Gives (λ x. (x.0, x.1.now)) result ((zeros count).read bytes.now) }
{
    let text = &ZEROS[..count];
    fixed(text, bytes)
}

/// The last positions of a stream.
pub fn backs_of(alloc: Global, bytes: &[u8]) -> Result<(Backs, &[u8]), ReadFault>
    ensures { Gives (λ x. (x.0, x.1.now)) result (backs.read bytes.now) }
{
    let (count, rest) = u8_in(&[(0, 4)], bytes)?;
    let (positions, rest) = read_items::<Positions>(alloc, u64::from(count), (0, u64::MAX), rest)?;
    let ((), rest) = zeros(8 * (4 - count as usize), rest)?;
    let backs = Backs::of(positions.as_slice()).unwrap();
    Ok((backs, rest))
}

/// Puts the last positions of a stream last.
pub fn put_backs(value: &Backs, out: &mut List<u8>) -> Result<(), NoMemory>
    ensures { OnOk result (out.new ≡ out.old ++ backs.spell value.now) }
{
    let positions = value.as_slice();
    out.push(positions.len() as u8)?;
    write_items::<Positions>(positions, out)?;
    put_zeros(8 * (4 - positions.len()), out)
}

/// Streams that rise by object.
pub struct Links;

impl Item for Links {
    type State = u64;

    type Value = StreamLink;

    ghost format = { link };

    ghost following = { after_link };

    fn read<'a>(
        alloc: Global,
        state: &u64,
        bytes: &'a [u8],
    ) -> Result<(StreamLink, &'a [u8]), ReadFault> {
        let (oid, rest) = oid_from(*state, bytes)?;
        let (backs, rest) = backs_of(alloc, rest)?;
        Ok((StreamLink { oid, backs }, rest))
    }

    fn write(value: &StreamLink, out: &mut List<u8>) -> Result<(), NoMemory> {
        put_u32(value.oid.0, out)?;
        put_backs(&value.backs, out)
    }

    fn follow(_state: u64, value: &StreamLink) -> Result<u64, NoMemory> {
        Ok(u64::from(value.oid.0) + 1)
    }
}

/// The length of a stream's spelling.
pub const LINK: usize = 37;

impl Measured for Links {
    fn size(value: &StreamLink) -> usize {
        let _backs = value.backs.as_slice();
        LINK
    }
}

/// Streams that rise by object, behind their count, which is from some ranges.
pub fn links_in<'a>(
    alloc: Global,
    counts: &[(u64, u64)],
    bytes: &'a [u8],
) -> Result<(List<StreamLink>, &'a [u8]), ReadFault>
    ensures { Gives (λ x. (x.0, x.1.now)) result ((links counts.now).read bytes.now) }
{
    let (count, rest) = u8_in(counts, bytes)?;
    let (links, rest) = read_items::<Links>(alloc, u64::from(count), 0, rest)?;
    Ok((links, rest))
}

/// Puts streams last, behind their count.
pub fn put_links(value: &[StreamLink], out: &mut List<u8>) -> Result<(), NoMemory>
    requires { length value.now ≤ 255 }
    ensures { OnOk result (out.new ≡ out.old ++ (links any).spell value.now) }
{
    out.push(value.len() as u8)?;
    write_items::<Links>(value, out)
}

/// The length of the spelling of streams behind their count. It takes no memory.
pub fn size_links(value: &[StreamLink]) -> usize
    requires { length value.now ≤ 255 }
    ensures len { result ≡ length ((links any).spell value.now) }
    ensures most { result ≤ 5000000 }
{
    1 + size_items::<Links>(value)
}
