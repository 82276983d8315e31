//! Bytes above given ones, and bytes from some ranges.

ghost use Rattle.std.specs.Prelude.{◌≡◌, ◌≤◌, IfOk, length};
ghost use Rattle.tg_codec.specs.Reading.{Gives};
ghost use Rattle.tg_codec.specs.Bounds.{tops, least_above, bound_after, raw_above, raw_in};

use crate::fault::ReadFault;
use crate::read::u8_in;

/// How many of the greatest byte a text begins with. So many bytes and fewer are never above it, more
/// can be.
pub fn tops(text: &[u8]) -> usize
    ensures count { result ≡ tops text.now }
    ensures most { result ≤ length text.now }
{
    let mut count = 0;
    for byte in text {
        if *byte != u8::MAX {
            return count;
        }
        count += 1;
    }
    count
}

// The least byte that so many bytes above a bound can begin with: 256 where there is none.
fn least_above(bound: &[u8], count: usize) -> u64
    ensures { result ≡ least_above bound.now count }
{
    match bound {
        [] => 0,
        [first, rest @ ..] => {
            let more = u64::from(tops(rest) >= count.saturating_sub(1));
            u64::from(*first) + more
        }
    }
}

// What still bounds the bytes after one.
fn bound_after(bound: &[u8], byte: u8) -> &[u8]
    ensures { result.now ≡ bound_after bound.now byte }
{
    match bound {
        [] => &[],
        [first, rest @ ..] => { if *first < byte { &[] } else { rest } }
    }
}

/// So many bytes above a bound, that begins with fewer of the greatest byte.
pub fn raw_above<'a>(
    bound: &[u8],
    count: usize,
    bytes: &'a [u8],
) -> Result<(&'a [u8], &'a [u8]), ReadFault>
    ensures exact { Gives (λ x. (x.0.now, x.1.now)) result ((raw_above bound.now count).read bytes.now) }
    ensures len { IfOk result (λ x. length x.0.now ≡ count) }
{
    let mut low = bound;
    let mut rest = bytes;
    for place in 0..count {
        let (byte, after) = u8_in(&[(least_above(low, count - place), 255)], rest)?;
        low = bound_after(low, byte);
        rest = after;
    }
    Ok(bytes.split_at(count))
}

/// So many bytes, each from some ranges.
pub fn raw_in<'a>(
    ranges: &[(u64, u64)],
    count: usize,
    bytes: &'a [u8],
) -> Result<(&'a [u8], &'a [u8]), ReadFault>
    ensures exact { Gives (λ x. (x.0.now, x.1.now)) result ((raw_in ranges.now count).read bytes.now) }
    ensures len { IfOk result (λ x. length x.0.now ≡ count) }
{
    let mut rest = bytes;
    for _ in 0..count {
        let (_, after) = u8_in(ranges, rest)?;
        rest = after;
    }
    Ok(bytes.split_at(count))
}
