//! Parts, each above the one before.

ghost use Rattle.std.specs.Prelude.{◌≡◌, ◌≤◌, ◌<◌, ◌++◌, ◌∷◌, [], length, OnOk, None};
ghost use Rattle.tg_codec.specs.Reading.{Gives};
ghost use Rattle.tg_entry.specs.Parts.{over, least_tag, text_bound, text_above, number_range, part_above};

use std::alloc::Global;
use tg_base::{Blob, List, NoMemory, Part};
use tg_codec::{ReadFault, put_text, put_u64, raw_above, tops, u8_in, u16_in, u64_in};

/// The numbers above `low` up to `high`, as a range.
pub fn over(low: u64, high: u64) -> (u64, u64)
    ensures { result ≡ over low high }
{
    if low < high { (low + 1, high) } else { (1, 0) }
}

// The least tag of a part above the one before.
fn least_tag(before: &Option<Part>) -> u64
    ensures { result ≡ least_tag before.now }
{
    match before {
        None => 0,
        Some(Part::All) => 1,
        Some(Part::Text(text)) => {
            if tops(text.as_slice()) < Blob::MAX {
                1
            } else {
                2
            }
        }
        Some(Part::Num(number)) => { if *number < u64::MAX { 2 } else { 3 } }
    }
}

// What a text above the part before is above.
fn text_bound(before: &Option<Part>) -> &[u8]
    ensures bound { result.now ≡ text_bound before.now }
    ensures fits { length result.now ≤ 4096 }
{
    match before {
        Some(Part::Text(text)) => text.as_slice(),
        _ => &[],
    }
}

// The numbers that are above the part before.
fn number_range(before: &Option<Part>) -> (u64, u64)
    ensures { result ≡ number_range before.now }
{
    match before {
        Some(Part::Num(number)) => over(*number, u64::MAX),
        _ => (0, u64::MAX),
    }
}

fn text_above<'a>(
    alloc: Global,
    bound: &[u8],
    bytes: &'a [u8],
) -> Result<(Blob, &'a [u8]), ReadFault>
    requires { length bound.now ≤ 4096 }
    ensures { Gives (λ x. (x.0, x.1.now)) result ((text_above bound.now).read bytes.now) }
{
    let (len, rest) = u16_in(&[(tops(bound) as u64 + 1, 4096)], bytes)?;
    let (front, rest) = raw_above(bound, len as usize, rest)?;
    let list = List::from_vec(Vec::from_slice(alloc, front)?);
    let text = Blob::new(alloc, list)?.unwrap();
    Ok((text, rest))
}

/// A part above the one before, if there is one.
pub fn part_above<'a>(
    alloc: Global,
    before: &Option<Part>,
    bytes: &'a [u8],
) -> Result<(Part, &'a [u8]), ReadFault>
    ensures { Gives (λ x. (x.0, x.1.now)) result ((part_above before.now).read bytes.now) }
{
    let (tag, rest) = u8_in(&[(least_tag(before), 2)], bytes)?;
    match tag {
        0 => Ok((Part::All, rest)),
        1 => {
            let (text, rest) = text_above(alloc, text_bound(before), rest)?;
            Ok((Part::Text(text), rest))
        }
        _ => {
            let (number, rest) = u64_in(&[number_range(before)], rest)?;
            Ok((Part::Num(number), rest))
        }
    }
}

/// Puts a part last.
pub fn put_part(value: &Part, out: &mut List<u8>) -> Result<(), NoMemory>
    ensures { OnOk result (out.new ≡ out.old ++ (part_above None).spell value.now) }
{
    match value {
        Part::All => out.push(0),
        Part::Text(text) => {
            out.push(1)?;
            put_text(text.as_slice(), out)
        }
        Part::Num(number) => {
            out.push(2)?;
            put_u64(*number, out)
        }
    }
}

/// The length of a part's spelling. It takes no memory.
pub fn part_size(value: &Part) -> usize
    ensures len { result ≡ length ((part_above None).spell value.now) }
    ensures most { result ≤ 4099 }
{
    match value {
        Part::All => 1,
        Part::Text(text) => 3 + text.as_slice().len(),
        Part::Num(_) => 9,
    }
}
