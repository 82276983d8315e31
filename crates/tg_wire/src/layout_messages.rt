//! Reading what layout servers are asked and answer.

ghost use Rattle.std.specs.Prelude.{◌≡◌, ◌∷◌, [], true};
ghost use Rattle.tg_codec.specs.Reading.{Gives, meets};
ghost use Rattle.tg_codec.specs.Codec.{from_table};
ghost use Rattle.tg_wire.specs.Messages.{messages, prepare, accept, decided, ask_latest, promise, nack, accepted, latest};

use crate::fields::ballot_in;
use crate::layouts::{ANY_EPOCH, projection_in, vote_in};
use std::alloc::Global;
use tg_base::Msg;
use tg_codec::{ReadFault, u64_in};

#[tactic(auto, unfolding(crate::specs::Messages::prepare))]
fn prepare_in(bytes: &[u8]) -> Result<(Msg, &[u8]), ReadFault>
    ensures { Gives (λ x. (x.0, x.1.now)) result (prepare.read bytes.now) }
{
    let (epoch, rest) = u64_in(&[(1, u64::MAX)], bytes)?;
    let (ballot, rest) = ballot_in(rest)?;
    Ok((Msg::Prepare { epoch, ballot }, rest))
}

#[tactic(auto, unfolding(crate::specs::Messages::accept))]
fn accept_in(alloc: Global, bytes: &[u8]) -> Result<(Msg, &[u8]), ReadFault>
    ensures { Gives (λ x. (x.0, x.1.now)) result (accept.read bytes.now) }
{
    let (epoch, rest) = u64_in(&[(1, u64::MAX)], bytes)?;
    let (ballot, rest) = ballot_in(rest)?;
    let (proj, rest) = projection_in(alloc, (epoch, epoch), rest)?;
    Ok((
        Msg::Accept {
            epoch,
            ballot,
            proj,
        },
        rest,
    ))
}

#[tactic(auto, unfolding(crate::specs::Messages::decided))]
fn decided_in(alloc: Global, bytes: &[u8]) -> Result<(Msg, &[u8]), ReadFault>
    ensures { Gives (λ x. (x.0, x.1.now)) result (decided.read bytes.now) }
{
    let (proj, rest) = projection_in(alloc, ANY_EPOCH, bytes)?;
    Ok((Msg::Decided { proj }, rest))
}

#[tactic(auto, unfolding(crate::specs::Messages::promise))]
fn promise_in(alloc: Global, bytes: &[u8]) -> Result<(Msg, &[u8]), ReadFault>
    ensures { Gives (λ x. (x.0, x.1.now)) result (promise.read bytes.now) }
{
    let (epoch, rest) = u64_in(&[(0, u64::MAX)], bytes)?;
    let (ballot, rest) = ballot_in(rest)?;
    let (accepted, rest) = vote_in(alloc, rest)?;
    Ok((
        Msg::Promise {
            epoch,
            ballot,
            accepted,
        },
        rest,
    ))
}

#[tactic(auto, unfolding(crate::specs::Messages::nack))]
fn nack_in(bytes: &[u8]) -> Result<(Msg, &[u8]), ReadFault>
    ensures { Gives (λ x. (x.0, x.1.now)) result (nack.read bytes.now) }
{
    let (epoch, rest) = u64_in(&[(0, u64::MAX)], bytes)?;
    let (ballot, rest) = ballot_in(rest)?;
    Ok((Msg::Nack { epoch, ballot }, rest))
}

#[tactic(auto, unfolding(crate::specs::Messages::accepted))]
fn accepted_in(bytes: &[u8]) -> Result<(Msg, &[u8]), ReadFault>
    ensures { Gives (λ x. (x.0, x.1.now)) result (accepted.read bytes.now) }
{
    let (epoch, rest) = u64_in(&[(0, u64::MAX)], bytes)?;
    let (ballot, rest) = ballot_in(rest)?;
    Ok((Msg::Accepted { epoch, ballot }, rest))
}

#[tactic(auto, unfolding(crate::specs::Messages::latest))]
fn latest_in(alloc: Global, bytes: &[u8]) -> Result<(Msg, &[u8]), ReadFault>
    ensures { Gives (λ x. (x.0, x.1.now)) result (latest.read bytes.now) }
{
    let (proj, rest) = projection_in(alloc, ANY_EPOCH, bytes)?;
    Ok((Msg::Latest { proj }, rest))
}

/// A message to or from a layout server, with this tag.
#[tactic(auto, unfolding(crate::specs::Messages::ask_latest))]
pub fn of_layout<'a>(alloc: Global, tag: u8, bytes: &'a [u8]) -> Result<(Msg, &'a [u8]), ReadFault>
    requires { meets ((33, 36) ∷ (41, 44) ∷ []) tag tag ≡ true }
    ensures { Gives (λ x. (x.0, x.1.now)) result ((from_table messages tag).read bytes.now) }
{
    match tag {
        0x21 => prepare_in(bytes),
        0x22 => accept_in(alloc, bytes),
        0x23 => decided_in(alloc, bytes),
        0x24 => Ok((Msg::AskLatest, bytes)),
        0x29 => promise_in(alloc, bytes),
        0x2a => nack_in(bytes),
        0x2b => accepted_in(bytes),
        _ => latest_in(alloc, bytes),
    }
}
