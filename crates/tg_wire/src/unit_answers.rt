//! Reading what units answer.

ghost use Rattle.std.specs.Prelude.{◌≡◌, ◌∷◌, [], true};
ghost use Rattle.tg_codec.specs.Reading.{Gives, meets};
ghost use Rattle.tg_codec.specs.Codec.{from_table};
ghost use Rattle.tg_wire.specs.Messages.{messages, held, taken, unwritten, gone, fenced, sealed, missing, whole};

use crate::fields::cell_in;
use std::alloc::Global;
use tg_base::Msg;
use tg_codec::{ReadFault, u64_in};

#[tactic(auto, unfolding(crate::specs::Messages::taken))]
fn taken_in(alloc: Global, bytes: &[u8]) -> Result<(Msg, &[u8]), ReadFault>
    ensures { Gives (λ x. (x.0, x.1.now)) result (taken.read bytes.now) }
{
    let (cell, rest) = cell_in(alloc, bytes)?;
    Ok((Msg::Taken { cell }, rest))
}

#[tactic(auto, unfolding(crate::specs::Messages::gone))]
fn gone_in(bytes: &[u8]) -> Result<(Msg, &[u8]), ReadFault>
    ensures { Gives (λ x. (x.0, x.1.now)) result (gone.read bytes.now) }
{
    let (below, rest) = u64_in(&[(0, u64::MAX)], bytes)?;
    Ok((Msg::Gone { below }, rest))
}

#[tactic(auto, unfolding(crate::specs::Messages::fenced))]
fn fenced_in(bytes: &[u8]) -> Result<(Msg, &[u8]), ReadFault>
    ensures { Gives (λ x. (x.0, x.1.now)) result (fenced.read bytes.now) }
{
    let (epoch, rest) = u64_in(&[(0, u64::MAX)], bytes)?;
    Ok((Msg::Fenced { epoch }, rest))
}

#[tactic(auto, unfolding(crate::specs::Messages::sealed))]
fn sealed_in(bytes: &[u8]) -> Result<(Msg, &[u8]), ReadFault>
    ensures { Gives (λ x. (x.0, x.1.now)) result (sealed.read bytes.now) }
{
    let (epoch, rest) = u64_in(&[(0, u64::MAX)], bytes)?;
    let (high, rest) = u64_in(&[(0, u64::MAX)], rest)?;
    Ok((Msg::Sealed { epoch, high }, rest))
}

#[tactic(auto, unfolding(crate::specs::Messages::missing))]
fn missing_in(bytes: &[u8]) -> Result<(Msg, &[u8]), ReadFault>
    ensures { Gives (λ x. (x.0, x.1.now)) result (missing.read bytes.now) }
{
    let (pos, rest) = u64_in(&[(0, u64::MAX)], bytes)?;
    Ok((Msg::Missing { pos }, rest))
}

/// An answer of a unit, with this tag.
#[tactic(auto, unfolding(crate::specs::Messages::held, crate::specs::Messages::unwritten, crate::specs::Messages::whole))]
pub fn answered_by_unit<'a>(
    alloc: Global,
    tag: u8,
    bytes: &'a [u8],
) -> Result<(Msg, &'a [u8]), ReadFault>
    requires { meets ((17, 24) ∷ []) tag tag ≡ true }
    ensures { Gives (λ x. (x.0, x.1.now)) result ((from_table messages tag).read bytes.now) }
{
    match tag {
        0x11 => Ok((Msg::Held, bytes)),
        0x12 => taken_in(alloc, bytes),
        0x13 => Ok((Msg::Unwritten, bytes)),
        0x14 => gone_in(bytes),
        0x15 => fenced_in(bytes),
        0x16 => sealed_in(bytes),
        0x17 => missing_in(bytes),
        _ => Ok((Msg::Whole, bytes)),
    }
}
