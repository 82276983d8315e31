//! Reading what sequencers are asked and answer.

ghost use Rattle.std.specs.Prelude.{◌≡◌, ◌∷◌, [], true};
ghost use Rattle.tg_codec.specs.Reading.{Gives, meets};
ghost use Rattle.tg_codec.specs.Codec.{from_table};
ghost use Rattle.tg_wire.specs.Messages.{messages, learn, token, check, issued, tail, scanning, old_epoch, full};

use crate::fields::objects_in;
use crate::layouts::{ANY_EPOCH, projection_in};
use std::alloc::Global;
use tg_base::Msg;
use tg_codec::{ReadFault, links_in, u64_in};

#[tactic(auto, unfolding(crate::specs::Messages::learn))]
fn learn_in(alloc: Global, bytes: &[u8]) -> Result<(Msg, &[u8]), ReadFault>
    ensures { Gives (λ x. (x.0, x.1.now)) result (learn.read bytes.now) }
{
    let (proj, rest) = projection_in(alloc, ANY_EPOCH, bytes)?;
    Ok((Msg::Learn { proj }, rest))
}

#[tactic(auto, unfolding(crate::specs::Messages::token))]
fn token_in(alloc: Global, bytes: &[u8]) -> Result<(Msg, &[u8]), ReadFault>
    ensures { Gives (λ x. (x.0, x.1.now)) result (token.read bytes.now) }
{
    let (epoch, rest) = u64_in(&[(1, u64::MAX)], bytes)?;
    let (oids, rest) = objects_in(alloc, &[(1, 16)], rest)?;
    Ok((Msg::Token { epoch, oids }, rest))
}

#[tactic(auto, unfolding(crate::specs::Messages::check))]
fn check_in(alloc: Global, bytes: &[u8]) -> Result<(Msg, &[u8]), ReadFault>
    ensures { Gives (λ x. (x.0, x.1.now)) result (check.read bytes.now) }
{
    let (epoch, rest) = u64_in(&[(1, u64::MAX)], bytes)?;
    let (oids, rest) = objects_in(alloc, &[(0, 128)], rest)?;
    Ok((Msg::Check { epoch, oids }, rest))
}

#[tactic(auto, unfolding(crate::specs::Messages::issued))]
fn issued_in(alloc: Global, bytes: &[u8]) -> Result<(Msg, &[u8]), ReadFault>
    ensures { Gives (λ x. (x.0, x.1.now)) result (issued.read bytes.now) }
{
    let (pos, rest) = u64_in(&[(0, u64::MAX)], bytes)?;
    let (links, rest) = links_in(alloc, &[(0, 128)], rest)?;
    Ok((Msg::Issued { pos, links }, rest))
}

#[tactic(auto, unfolding(crate::specs::Messages::tail))]
fn tail_in(alloc: Global, bytes: &[u8]) -> Result<(Msg, &[u8]), ReadFault>
    ensures { Gives (λ x. (x.0, x.1.now)) result (tail.read bytes.now) }
{
    let (tail, rest) = u64_in(&[(0, u64::MAX)], bytes)?;
    let (links, rest) = links_in(alloc, &[(0, 128)], rest)?;
    Ok((Msg::Tail { tail, links }, rest))
}

#[tactic(auto, unfolding(crate::specs::Messages::scanning))]
fn scanning_in(bytes: &[u8]) -> Result<(Msg, &[u8]), ReadFault>
    ensures { Gives (λ x. (x.0, x.1.now)) result (scanning.read bytes.now) }
{
    let (next, rest) = u64_in(&[(0, u64::MAX)], bytes)?;
    let (start, rest) = u64_in(&[(0, u64::MAX)], rest)?;
    Ok((Msg::Scanning { next, start }, rest))
}

#[tactic(auto, unfolding(crate::specs::Messages::old_epoch))]
fn old_epoch_in(bytes: &[u8]) -> Result<(Msg, &[u8]), ReadFault>
    ensures { Gives (λ x. (x.0, x.1.now)) result (old_epoch.read bytes.now) }
{
    let (epoch, rest) = u64_in(&[(0, u64::MAX)], bytes)?;
    Ok((Msg::OldEpoch { epoch }, rest))
}

#[tactic(auto, unfolding(crate::specs::Messages::full))]
fn full_in(bytes: &[u8]) -> Result<(Msg, &[u8]), ReadFault>
    ensures { Gives (λ x. (x.0, x.1.now)) result (full.read bytes.now) }
{
    let (limit, rest) = u64_in(&[(0, u64::MAX)], bytes)?;
    Ok((Msg::Full { limit }, rest))
}

/// A message to or from a sequencer, with this tag.
pub fn of_seqr<'a>(alloc: Global, tag: u8, bytes: &'a [u8]) -> Result<(Msg, &'a [u8]), ReadFault>
    requires { meets ((49, 51) ∷ (57, 61) ∷ []) tag tag ≡ true }
    ensures { Gives (λ x. (x.0, x.1.now)) result ((from_table messages tag).read bytes.now) }
{
    match tag {
        0x31 => learn_in(alloc, bytes),
        0x32 => token_in(alloc, bytes),
        0x33 => check_in(alloc, bytes),
        0x39 => issued_in(alloc, bytes),
        0x3a => tail_in(alloc, bytes),
        0x3b => scanning_in(bytes),
        0x3c => old_epoch_in(bytes),
        _ => full_in(bytes),
    }
}
