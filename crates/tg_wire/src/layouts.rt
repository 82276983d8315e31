//! Layouts, as messages have them.

ghost use Rattle.std.specs.Prelude.{◌≡◌, ◌≤◌, ◌++◌, ◌*◌, ◌∷◌, [], ℕ, true, length, IfOk, OnOk};
ghost use Rattle.tg_codec.specs.Reading.{Gives};
ghost use Rattle.tg_codec.specs.Codec.{read_many, spell_many};
ghost use Rattle.tg_wire.specs.Fields.{gone_unit, after_gone, gone, range, after_range, ranges, projection_of, projection, proposal, vote};
ghost use Rattle.tg_wire.specs.Short.{AreShort, IsShortLayout, IsShortVote};

use crate::chains::{put_stripes, size_stripes, stripes_in};
use crate::fields::{ballot_in, put_ballot};
use std::alloc::Global;
use tg_base::{Ballot, List, NoMemory, Pos, Projection, Range};
use tg_codec::{
    Item, Measured, ReadFault, put_u16, put_u64, read_items, size_items, u8_in, u16_in, u64_in,
    write_items,
};

/// The epochs of layouts.
pub const ANY_EPOCH: (u64, u64) = (1, u64::MAX);

// Units that rise.
struct Gone;

impl Item for Gone {
    type State = u64;

    type Value = u16;

    ghost format = { gone_unit };

    ghost following = { after_gone };

    fn read<'a>(
        _alloc: Global,
        state: &u64,
        bytes: &'a [u8],
    ) -> Result<(u16, &'a [u8]), ReadFault> {
        u16_in(&[(*state, 63)], bytes)
    }

    fn write(value: &u16, out: &mut List<u8>) -> Result<(), NoMemory> {
        put_u16(*value, out)
    }

    fn follow(_state: u64, value: &u16) -> Result<u64, NoMemory> {
        Ok(u64::from(*value) + 1)
    }
}

impl Measured for Gone {
    fn size(_value: &u16) -> usize {
        2
    }
}

fn gone_units(alloc: Global, bytes: &[u8]) -> Result<(List<u16>, &[u8]), ReadFault>
    ensures { Gives (λ x. (x.0, x.1.now)) result (gone.read bytes.now) }
{
    let (count, rest) = u8_in(&[(0, u64::MAX)], bytes)?;
    let (units, rest) = read_items::<Gone>(alloc, u64::from(count), 0, rest)?;
    Ok((units, rest))
}

fn gone_in(alloc: Global, bytes: &[u8]) -> Result<(List<u16>, &[u8]), ReadFault>
    ensures exact { Gives (λ x. (x.0, x.1.now)) result (gone.read bytes.now) }
    ensures fits { IfOk result (λ x. gone.fits x.0 ≡ true) }
{
    gone_units(alloc, bytes)
}

fn put_gone(value: &[u16], out: &mut List<u8>) -> Result<(), NoMemory>
    requires { length value.now ≤ 255 }
    ensures { OnOk result (out.new ≡ out.old ++ gone.spell value.now) }
{
    out.push(value.len() as u8)?;
    write_items::<Gone>(value, out)
}

fn size_gone(value: &[u16]) -> usize
    requires { length value.now ≤ 255 }
    ensures len { result ≡ length (gone.spell value.now) }
    ensures most { result ≤ 5000000 }
{
    1 + size_items::<Gone>(value)
}

fn range_in<'a>(
    alloc: Global,
    begins: (u64, u64),
    bytes: &'a [u8],
) -> Result<(Range, &'a [u8]), ReadFault>
    ensures { Gives (λ x. (x.0, x.1.now)) result ((range begins).read bytes.now) }
{
    let (lo, rest) = u64_in(&[begins], bytes)?;
    let (stripes, rest) = stripes_in(alloc, rest)?;
    Ok((Range { lo, stripes }, rest))
}

// So many ranges, none of which begins above `start`.
fn ranges_of<'a>(
    alloc: Global,
    count: u64,
    start: Pos,
    bytes: &'a [u8],
) -> Result<(List<Range>, &'a [u8]), ReadFault>
    ensures { Gives (λ x. (x.0, x.1.now)) result (read_many range (after_range start) count (0, 0) bytes.now) }
{
    let mut ranges = List::new(alloc);
    let mut begins = (0, 0);
    let mut rest = bytes;
    for _ in 0..count {
        let (range, after) = range_in(alloc, begins, rest)?;
        begins = (range.lo, start);
        ranges.push(range)?;
        rest = after;
    }
    Ok((ranges, rest))
}

#[tactic(auto, unfolding(crate::specs::Fields::ranges))]
fn counted_ranges(
    alloc: Global,
    start: Pos,
    bytes: &[u8],
) -> Result<(List<Range>, &[u8]), ReadFault>
    ensures { Gives (λ x. (x.0, x.1.now)) result ((ranges start).read bytes.now) }
{
    let (count, rest) = u8_in(&[(1, 32)], bytes)?;
    let (ranges, rest) = ranges_of(alloc, u64::from(count), start, rest)?;
    Ok((ranges, rest))
}

fn ranges_in(alloc: Global, start: Pos, bytes: &[u8]) -> Result<(List<Range>, &[u8]), ReadFault>
    ensures exact { Gives (λ x. (x.0, x.1.now)) result ((ranges start).read bytes.now) }
    ensures fits { IfOk result (λ x. (ranges start).fits x.0 ≡ true) }
{
    counted_ranges(alloc, start, bytes)
}

fn put_range(value: &Range, out: &mut List<u8>) -> Result<(), NoMemory>
    requires { length value.now.stripes ≤ 255 }
    ensures { OnOk result ((s : ℕ × ℕ) → out.new ≡ out.old ++ (range s).spell value.now) }
{
    put_u64(value.lo, out)?;
    put_stripes(value.stripes.as_slice(), out)
}

#[tactic(auto, unfolding(tg_codec::specs::Codec::spell_many))]
fn put_ranges(values: &[Range], out: &mut List<u8>) -> Result<(), NoMemory>
    requires { AreShort values.now }
    ensures { OnOk result ((start : ℕ) (s : ℕ × ℕ) → out.new ≡ out.old ++ spell_many range (after_range start) s values.now) }
{
    match values {
        [] => Ok(()),
        [first, rest @ ..] => {
            put_range(first, out)?;
            put_ranges(rest, out)
        }
    }
}

// The ranges behind their count.
#[tactic(auto, unfolding(crate::specs::Fields::ranges))]
fn put_counted(values: &[Range], out: &mut List<u8>) -> Result<(), NoMemory>
    requires few { length values.now ≤ 255 }
    requires short { AreShort values.now }
    ensures { OnOk result ((start : ℕ) → out.new ≡ out.old ++ (ranges start).spell values.now) }
{
    out.push(values.len() as u8)?;
    put_ranges(values, out)
}

fn size_range(value: &Range) -> usize
    requires { length value.now.stripes ≤ 255 }
    ensures len { (s : ℕ × ℕ) → result ≡ length ((range s).spell value.now) }
    ensures most { result ≤ 5000000 }
{
    8 + size_stripes(value.stripes.as_slice())
}

#[tactic(auto, unfolding(tg_codec::specs::Codec::spell_many))]
fn size_ranges(values: &[Range]) -> usize
    requires few { length values.now ≤ 255 }
    requires short { AreShort values.now }
    ensures len { (start : ℕ) (s : ℕ × ℕ) → result ≡ length (spell_many range (after_range start) s values.now) }
    ensures most { result ≤ 5000000 * length values.now }
{
    match values {
        [] => 0,
        [first, rest @ ..] => size_range(first) + size_ranges(rest),
    }
}

#[tactic(auto, unfolding(crate::specs::Fields::ranges))]
fn size_counted(values: &[Range]) -> usize
    requires few { length values.now ≤ 255 }
    requires short { AreShort values.now }
    ensures len { (start : ℕ) → result ≡ length ((ranges start).spell values.now) }
    ensures most { result ≤ 1280000000 }
{
    1 + size_ranges(values)
}

/// A layout, whose epoch is from a range.
#[tactic(auto, unfolding(crate::specs::Fields::projection_of))]
pub fn projection_in(
    alloc: Global,
    epochs: (u64, u64),
    bytes: &[u8],
) -> Result<(Projection, &[u8]), ReadFault>
    requires { 1 ≤ epochs.0 }
    ensures { Gives (λ x. (x.0, x.1.now)) result ((projection_of (epochs ∷ [])).read bytes.now) }
{
    let (epoch, rest) = u64_in(&[epochs], bytes)?;
    let (seq, rest) = u16_in(&[(0, u64::MAX)], rest)?;
    let (start, rest) = u64_in(&[(0, u64::MAX)], rest)?;
    let (by, rest) = u16_in(&[(0, u64::MAX)], rest)?;
    let (gone, rest) = gone_in(alloc, rest)?;
    let (ranges, rest) = ranges_in(alloc, start, rest)?;
    let layout = Projection {
        epoch,
        seq,
        start,
        by,
        gone,
        ranges,
    };
    Ok((layout, rest))
}

/// Puts a layout last.
#[tactic(auto, unfolding(crate::specs::Fields::projection_of))]
pub fn put_projection(value: &Projection, out: &mut List<u8>) -> Result<(), NoMemory>
    requires { IsShortLayout value.now }
    ensures { OnOk result (out.new ≡ out.old ++ projection.spell value.now) }
{
    put_u64(value.epoch, out)?;
    put_u16(value.seq, out)?;
    put_u64(value.start, out)?;
    put_u16(value.by, out)?;
    put_gone(value.gone.as_slice(), out)?;
    put_counted(value.ranges.as_slice(), out)
}

/// The length of a layout's spelling. It takes no memory.
#[tactic(auto, unfolding(crate::specs::Fields::projection_of))]
pub fn size_projection(value: &Projection) -> usize
    requires { IsShortLayout value.now }
    ensures len { result ≡ length (projection.spell value.now) }
    ensures most { result ≤ 1300000000 }
{
    let gone = size_gone(value.gone.as_slice());
    20 + gone + size_counted(value.ranges.as_slice())
}

/// The length of the spelling of a ballot and a layout of this epoch. It takes no memory.
pub fn size_proposal(epoch: u64, value: Ballot, layout: &Projection) -> usize
    requires { IsShortLayout layout.now }
    ensures len { result ≡ length ((proposal epoch).spell (value, layout.now)) }
    ensures most { result ≤ 1400000000 }
{
    let _named = (epoch, value);
    6 + size_projection(layout)
}

/// The proposal that was voted for, if any.
pub fn vote_in(
    alloc: Global,
    bytes: &[u8],
) -> Result<(Option<(Ballot, Projection)>, &[u8]), ReadFault>
    ensures { Gives (λ x. (x.0, x.1.now)) result (vote.read bytes.now) }
{
    let (tag, rest) = u8_in(&[(0, 1)], bytes)?;
    match tag {
        0 => Ok((None, rest)),
        _ => {
            let (ballot, rest) = ballot_in(rest)?;
            let (layout, rest) = projection_in(alloc, ANY_EPOCH, rest)?;
            Ok((Some((ballot, layout)), rest))
        }
    }
}

/// Puts the proposal that was voted for last.
pub fn put_vote(value: &Option<(Ballot, Projection)>, out: &mut List<u8>) -> Result<(), NoMemory>
    requires { IsShortVote value.now }
    ensures { OnOk result (out.new ≡ out.old ++ vote.spell value.now) }
{
    match value {
        None => out.push(0),
        Some((ballot, layout)) => {
            out.push(1)?;
            put_ballot(*ballot, out)?;
            put_projection(layout, out)
        }
    }
}

/// The length of the spelling of the proposal that was voted for. It takes no memory.
pub fn size_vote(value: &Option<(Ballot, Projection)>) -> usize
    requires { IsShortVote value.now }
    ensures len { result ≡ length (vote.spell value.now) }
    ensures most { result ≤ 1400000000 }
{
    match value {
        None => 1,
        Some((_, layout)) => 7 + size_projection(layout),
    }
}
