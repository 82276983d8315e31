//! Reading what units are asked.

ghost use Rattle.std.specs.Prelude.{◌≡◌, ◌∷◌, [], true};
ghost use Rattle.tg_codec.specs.Reading.{Gives, meets};
ghost use Rattle.tg_codec.specs.Codec.{from_table};
ghost use Rattle.tg_wire.specs.Messages.{messages, read, write, fill, copy, has, seal, trim};

use crate::fields::cell_in;
use std::alloc::Global;
use tg_base::Msg;
use tg_codec::{ReadFault, blob, u64_in};

#[tactic(auto, unfolding(crate::specs::Messages::read))]
fn read_in(bytes: &[u8]) -> Result<(Msg, &[u8]), ReadFault>
    ensures { Gives (λ x. (x.0, x.1.now)) result (read.read bytes.now) }
{
    let (epoch, rest) = u64_in(&[(1, u64::MAX)], bytes)?;
    let (pos, rest) = u64_in(&[(0, u64::MAX)], rest)?;
    Ok((Msg::Read { epoch, pos }, rest))
}

#[tactic(auto, unfolding(crate::specs::Messages::write))]
fn write_in(alloc: Global, bytes: &[u8]) -> Result<(Msg, &[u8]), ReadFault>
    ensures { Gives (λ x. (x.0, x.1.now)) result (write.read bytes.now) }
{
    let (epoch, rest) = u64_in(&[(1, u64::MAX)], bytes)?;
    let (pos, rest) = u64_in(&[(0, u64::MAX)], rest)?;
    let (page, rest) = blob(alloc, 0, rest)?;
    Ok((Msg::Write { epoch, pos, page }, rest))
}

#[tactic(auto, unfolding(crate::specs::Messages::fill))]
fn fill_in(bytes: &[u8]) -> Result<(Msg, &[u8]), ReadFault>
    ensures { Gives (λ x. (x.0, x.1.now)) result (fill.read bytes.now) }
{
    let (epoch, rest) = u64_in(&[(1, u64::MAX)], bytes)?;
    let (pos, rest) = u64_in(&[(0, u64::MAX)], rest)?;
    Ok((Msg::Fill { epoch, pos }, rest))
}

#[tactic(auto, unfolding(crate::specs::Messages::copy))]
fn copy_in(alloc: Global, bytes: &[u8]) -> Result<(Msg, &[u8]), ReadFault>
    ensures { Gives (λ x. (x.0, x.1.now)) result (copy.read bytes.now) }
{
    let (epoch, rest) = u64_in(&[(1, u64::MAX)], bytes)?;
    let (pos, rest) = u64_in(&[(0, u64::MAX)], rest)?;
    let (cell, rest) = cell_in(alloc, rest)?;
    Ok((Msg::Copy { epoch, pos, cell }, rest))
}

#[tactic(auto, unfolding(crate::specs::Messages::has))]
fn has_in(bytes: &[u8]) -> Result<(Msg, &[u8]), ReadFault>
    ensures { Gives (λ x. (x.0, x.1.now)) result (has.read bytes.now) }
{
    let (epoch, rest) = u64_in(&[(1, u64::MAX)], bytes)?;
    let (lo, rest) = u64_in(&[(0, u64::MAX)], rest)?;
    let (hi, rest) = u64_in(&[(0, u64::MAX)], rest)?;
    let (step, rest) = u64_in(&[(1, u64::MAX)], rest)?;
    Ok((
        Msg::Has {
            epoch,
            lo,
            hi,
            step,
        },
        rest,
    ))
}

#[tactic(auto, unfolding(crate::specs::Messages::seal))]
fn seal_in(bytes: &[u8]) -> Result<(Msg, &[u8]), ReadFault>
    ensures { Gives (λ x. (x.0, x.1.now)) result (seal.read bytes.now) }
{
    let (epoch, rest) = u64_in(&[(1, u64::MAX)], bytes)?;
    Ok((Msg::Seal { epoch }, rest))
}

#[tactic(auto, unfolding(crate::specs::Messages::trim))]
fn trim_in(bytes: &[u8]) -> Result<(Msg, &[u8]), ReadFault>
    ensures { Gives (λ x. (x.0, x.1.now)) result (trim.read bytes.now) }
{
    let (epoch, rest) = u64_in(&[(1, u64::MAX)], bytes)?;
    let (below, rest) = u64_in(&[(0, u64::MAX)], rest)?;
    Ok((Msg::Trim { epoch, below }, rest))
}

/// A request of a unit, with this tag.
pub fn asked_of_unit<'a>(
    alloc: Global,
    tag: u8,
    bytes: &'a [u8],
) -> Result<(Msg, &'a [u8]), ReadFault>
    requires { meets ((1, 7) ∷ []) tag tag ≡ true }
    ensures { Gives (λ x. (x.0, x.1.now)) result ((from_table messages tag).read bytes.now) }
{
    match tag {
        0x01 => read_in(bytes),
        0x02 => write_in(alloc, bytes),
        0x03 => fill_in(bytes),
        0x04 => copy_in(alloc, bytes),
        0x05 => has_in(bytes),
        0x06 => seal_in(bytes),
        _ => trim_in(bytes),
    }
}
