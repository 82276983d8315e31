//! Refusals, as they are read.

ghost use Rattle.std.specs.Prelude.{◌≡◌, IfOk};
ghost use Rattle.tg_any.specs.Words.{texts, number, two_read};
ghost use Rattle.tg_trace.specs.Fields.{unit};
ghost use Rattle.tg_trace.specs.Refusals.{state_refusal, object_refusal, number_refusal, pair_refusal, unit_refusal, refusal_read};

use crate::fields::{command, crowd, node, unit};
use std::alloc::Global;
use tg_any::{nothing, one, two};
use tg_base::{NoMemory, Oid, Pos};
use tg_model::Refusal;

// A refusal for what is done or has too many parts.
fn state_refusal(verb: &str, fields: &[&str]) -> Option<Refusal>
    ensures { result ≡ state_refusal verb.now (texts fields.now) }
{
    match verb {
        "busy" => command(fields).map(|command| Refusal::Busy { command }),
        "no-tx" => nothing(fields).map(|()| Refusal::NoTx),
        "tx-open" => nothing(fields).map(|()| Refusal::TxOpen),
        "too-many" => crowd(fields).map(|what| Refusal::TooMany { what }),
        _ => None,
    }
}

// A refusal that names an object.
fn object_refusal(alloc: Global, verb: &str, fields: &[&str]) -> Result<Option<Refusal>, NoMemory>
    ensures { IfOk result (λ x. x ≡ object_refusal verb.now (texts fields.now)) }
{
    match verb {
        "not-hosted" => {
            let oid: Option<Oid> = one(alloc, fields)?;
            Ok(oid.map(|oid| Refusal::NotHosted { oid }))
        }
        "not-registered" => {
            let oid: Option<Oid> = one(alloc, fields)?;
            Ok(oid.map(|oid| Refusal::NotRegistered { oid }))
        }
        "wrong-kind" => {
            let oid: Option<Oid> = one(alloc, fields)?;
            Ok(oid.map(|oid| Refusal::WrongKind { oid }))
        }
        "no-checkpoint" => {
            let oid: Option<Oid> = one(alloc, fields)?;
            Ok(oid.map(|oid| Refusal::NoCheckpoint { oid }))
        }
        _ => Ok(None),
    }
}

// A refusal that names a number.
fn number_refusal(alloc: Global, verb: &str, fields: &[&str]) -> Result<Option<Refusal>, NoMemory>
    ensures { IfOk result (λ x. x ≡ number_refusal verb.now (texts fields.now)) }
{
    match verb {
        "too-large" => {
            let bytes: Option<u64> = one(alloc, fields)?;
            Ok(bytes.map(|bytes| Refusal::TooLarge {
                bytes: bytes as usize,
            }))
        }
        "log-full" => {
            let limit: Option<u64> = one(alloc, fields)?;
            Ok(limit.map(|limit| Refusal::LogFull { limit }))
        }
        "overtaken" => {
            let epoch: Option<u64> = one(alloc, fields)?;
            Ok(epoch.map(|epoch| Refusal::Overtaken { epoch }))
        }
        "open-decision" => {
            let pos: Option<u64> = one(alloc, fields)?;
            Ok(pos.map(|pos| Refusal::OpenDecision { pos }))
        }
        "not-closed" => {
            let range: Option<u64> = one(alloc, fields)?;
            Ok(range.map(|range| Refusal::NotClosed {
                range: range as usize,
            }))
        }
        "ahead" => {
            let tail: Option<u64> = one(alloc, fields)?;
            Ok(tail.map(|tail| Refusal::Ahead { tail }))
        }
        _ => Ok(None),
    }
}

// A refusal that names two things.
fn pair_refusal(alloc: Global, verb: &str, fields: &[&str]) -> Result<Option<Refusal>, NoMemory>
    ensures { IfOk result (λ x. x ≡ pair_refusal verb.now (texts fields.now)) }
{
    match verb {
        "undecided" => {
            let Some((pos, missing)) = two(alloc, fields)? else {
                return Ok(None);
            };
            Ok(Some(Refusal::Undecided { pos, missing }))
        }
        "forgotten" => {
            let Some((at, below)) = two(alloc, fields)? else {
                return Ok(None);
            };
            Ok(Some(Refusal::Forgotten { at, below }))
        }
        "no-replica" => {
            let Some((range, stripe)) = stripe(alloc, fields)? else {
                return Ok(None);
            };
            Ok(Some(Refusal::NoReplica { range, stripe }))
        }
        "no-stripe" => {
            let Some((range, stripe)) = stripe(alloc, fields)? else {
                return Ok(None);
            };
            Ok(Some(Refusal::NoStripe { range, stripe }))
        }
        _ => Ok(None),
    }
}

/// A range and a stripe.
pub fn stripe(alloc: Global, words: &[&str]) -> Result<Option<(usize, usize)>, NoMemory>
    ensures { IfOk result (λ x. x ≡ two_read number number (texts words.now)) }
{
    let pair: Option<(u64, u64)> = two(alloc, words)?;
    let Some((range, stripe)) = pair else {
        return Ok(None);
    };
    Ok(Some((range as usize, stripe as usize)))
}

// A unit and a position.
fn hole(alloc: Global, words: &[&str]) -> Result<Option<(u16, Pos)>, NoMemory>
    ensures { IfOk result (λ x. x ≡ two_read unit number (texts words.now)) }
{
    let Some((unit, rest)) = node(b"u", words) else {
        return Ok(None);
    };
    let Some(pos) = one(alloc, rest)? else {
        return Ok(None);
    };
    Ok(Some((unit, pos)))
}

// A refusal that names a unit.
fn unit_refusal(alloc: Global, verb: &str, fields: &[&str]) -> Result<Option<Refusal>, NoMemory>
    ensures { IfOk result (λ x. x ≡ unit_refusal verb.now (texts fields.now)) }
{
    match verb {
        "returned" => Ok(unit(fields).map(|unit| Refusal::Returned { unit })),
        "in-chain" => Ok(unit(fields).map(|unit| Refusal::InChain { unit })),
        "not-whole" => {
            let Some((unit, pos)) = hole(alloc, fields)? else {
                return Ok(None);
            };
            Ok(Some(Refusal::NotWhole { unit, pos }))
        }
        _ => Ok(None),
    }
}

/// The refusal that has these words. An `Err` is want of memory.
#[tactic(auto, unfolding(crate::specs::Refusals::refusal_read))]
pub fn refusal(alloc: Global, words: &[&str]) -> Result<Option<Refusal>, NoMemory>
    ensures { IfOk result (λ x. x ≡ refusal_read (texts words.now)) }
{
    let [verb, fields @ ..] = words else {
        return Ok(None);
    };
    if let Some(why) = state_refusal(verb, fields) {
        return Ok(Some(why));
    }
    if let Some(why) = object_refusal(alloc, verb, fields)? {
        return Ok(Some(why));
    }
    if let Some(why) = number_refusal(alloc, verb, fields)? {
        return Ok(Some(why));
    }
    if let Some(why) = pair_refusal(alloc, verb, fields)? {
        return Ok(Some(why));
    }
    unit_refusal(alloc, verb, fields)
}
