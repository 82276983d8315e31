//! Replies, as they are read.

ghost use Rattle.std.specs.Prelude.{◌≡◌, IfOk};
ghost use Rattle.tg_any.specs.Words.{texts, number, object, two, two_read};
ghost use Rattle.tg_trace.specs.Lines.{first};
ghost use Rattle.tg_trace.specs.Fields.{unit, clash};
ghost use Rattle.tg_trace.specs.Replies.{transaction_told, answer_told, record_told, fate_told, object_told, layout_told, what_read};

use crate::fields::{asked, clash, fate_at, first, node, write};
use crate::refusals::{refusal, stripe};
use crate::transcript::AnyWhat;
use std::alloc::Global;
use tg_any::{nothing, one, two};
use tg_base::{NoMemory, Oid, Part, Pos};
use tg_model::What;

// What is told of an open transaction.
fn transaction_told(alloc: Global, verb: &str, fields: &[&str]) -> Result<Option<AnyWhat>, NoMemory>
    ensures { IfOk result (λ x. x ≡ transaction_told verb.now (texts fields.now)) }
{
    match verb {
        "begin" => Ok(nothing(fields).map(|()| What::Begin)),
        "put" => {
            let Some((oid, op)) = write(alloc, fields)? else {
                return Ok(None);
            };
            Ok(Some(What::Put { oid, op }))
        }
        "end" => Ok(nothing(fields).map(|()| What::End)),
        "dropped" => Ok(nothing(fields).map(|()| What::Dropped)),
        _ => Ok(None),
    }
}

// What was answered to an ask.
fn answer_told(alloc: Global, verb: &str, fields: &[&str]) -> Result<Option<AnyWhat>, NoMemory>
    ensures { IfOk result (λ x. x ≡ answer_told verb.now (texts fields.now)) }
{
    match verb {
        "asked" => {
            let Some((oid, (ask, (at, ans)))) = asked(alloc, fields)? else {
                return Ok(None);
            };
            Ok(Some(What::Asked { oid, ask, at, ans }))
        }
        "past" => {
            let Some((oid, (ask, (at, ans)))) = asked(alloc, fields)? else {
                return Ok(None);
            };
            Ok(Some(What::Past { oid, ask, at, ans }))
        }
        _ => Ok(None),
    }
}

// A record, an object, and the part by which the record's transaction is aborted.
fn aborted(
    alloc: Global,
    words: &[&str],
) -> Result<Option<(Pos, (Oid, (Part, (u64, u64))))>, NoMemory>
    ensures { IfOk result (λ x. x ≡ (first number (first object clash)).read (texts words.now)) }
{
    let Some((at, rest)) = first(alloc, words)? else {
        return Ok(None);
    };
    let Some((oid, rest)) = first(alloc, rest)? else {
        return Ok(None);
    };
    let Some(clash) = clash(alloc, rest)? else {
        return Ok(None);
    };
    Ok(Some((at, (oid, clash))))
}

// What became of a transaction.
fn record_told(alloc: Global, verb: &str, fields: &[&str]) -> Result<Option<AnyWhat>, NoMemory>
    ensures { IfOk result (λ x. x ≡ record_told verb.now (texts fields.now)) }
{
    match verb {
        "committed" => {
            let Some(at) = one(alloc, fields)? else {
                return Ok(None);
            };
            Ok(Some(What::Committed { at }))
        }
        "aborted" => {
            let Some((at, (oid, (part, (seen, now))))) = aborted(alloc, fields)? else {
                return Ok(None);
            };
            Ok(Some(What::Aborted {
                at,
                oid,
                part,
                seen,
                now,
            }))
        }
        "unsure" => {
            let Some((at, pos)) = two(alloc, fields)? else {
                return Ok(None);
            };
            Ok(Some(What::Unsure { at, pos }))
        }
        _ => Ok(None),
    }
}

// What is told of a record's fate.
fn fate_told(alloc: Global, verb: &str, fields: &[&str]) -> Result<Option<AnyWhat>, NoMemory>
    ensures { IfOk result (λ x. x ≡ fate_told verb.now (texts fields.now)) }
{
    match verb {
        "fate" => {
            let Some((at, yes)) = fate_at(alloc, fields)? else {
                return Ok(None);
            };
            Ok(Some(What::Fate { at, yes }))
        }
        "decided" => {
            let Some((at, yes)) = fate_at(alloc, fields)? else {
                return Ok(None);
            };
            Ok(Some(What::Decided { at, yes }))
        }
        "rescued" => {
            let Some((at, yes)) = fate_at(alloc, fields)? else {
                return Ok(None);
            };
            Ok(Some(What::Rescued { at, yes }))
        }
        _ => Ok(None),
    }
}

// An object and two positions.
fn saved(alloc: Global, words: &[&str]) -> Result<Option<(Oid, (Pos, Pos))>, NoMemory>
    ensures { IfOk result (λ x. x ≡ (first object (two number number)).read (texts words.now)) }
{
    let Some((oid, rest)) = first(alloc, words)? else {
        return Ok(None);
    };
    let Some(both) = two(alloc, rest)? else {
        return Ok(None);
    };
    Ok(Some((oid, both)))
}

// What is told of an object.
fn object_told(alloc: Global, verb: &str, fields: &[&str]) -> Result<Option<AnyWhat>, NoMemory>
    ensures { IfOk result (λ x. x ≡ object_told verb.now (texts fields.now)) }
{
    match verb {
        "hosted" => {
            let Some(oid) = one(alloc, fields)? else {
                return Ok(None);
            };
            Ok(Some(What::Hosted { oid }))
        }
        "saved" => {
            let Some((oid, (at, upto))) = saved(alloc, fields)? else {
                return Ok(None);
            };
            Ok(Some(What::Saved { oid, at, upto }))
        }
        "marked" => {
            let Some((oid, mark)) = two(alloc, fields)? else {
                return Ok(None);
            };
            Ok(Some(What::Marked { oid, mark }))
        }
        _ => Ok(None),
    }
}

// A unit, a range and a stripe.
fn place(alloc: Global, words: &[&str]) -> Result<Option<(u16, (usize, usize))>, NoMemory>
    ensures { IfOk result (λ x. x ≡ (first unit (two number number)).read (texts words.now)) }
{
    let Some((unit, rest)) = node(b"u", words) else {
        return Ok(None);
    };
    let Some(both) = stripe(alloc, rest)? else {
        return Ok(None);
    };
    Ok(Some((unit, both)))
}

// What is told of the log, of layouts and of units, and refusals.
fn layout_told(alloc: Global, verb: &str, fields: &[&str]) -> Result<Option<AnyWhat>, NoMemory>
    ensures { IfOk result (λ x. x ≡ layout_told verb.now (texts fields.now)) }
{
    match verb {
        "trimmed" => {
            let Some(mark) = one(alloc, fields)? else {
                return Ok(None);
            };
            Ok(Some(What::Trimmed { mark }))
        }
        "installed" => {
            let Some(epoch) = one(alloc, fields)? else {
                return Ok(None);
            };
            Ok(Some(What::Installed { epoch }))
        }
        "copied" => {
            let Some((unit, (range, stripe))) = place(alloc, fields)? else {
                return Ok(None);
            };
            Ok(Some(What::Copied {
                unit,
                range,
                stripe,
            }))
        }
        "refused" => {
            let Some(why) = refusal(alloc, fields)? else {
                return Ok(None);
            };
            Ok(Some(What::Refused { why }))
        }
        _ => Ok(None),
    }
}

/// What a client told, by its words. An `Err` is want of memory.
#[tactic(auto, unfolding(crate::specs::Replies::what_read))]
pub fn what(alloc: Global, words: &[&str]) -> Result<Option<AnyWhat>, NoMemory>
    ensures { IfOk result (λ x. x ≡ what_read (texts words.now)) }
{
    let [verb, fields @ ..] = words else {
        return Ok(None);
    };
    if let Some(told) = transaction_told(alloc, verb, fields)? {
        return Ok(Some(told));
    }
    if let Some(told) = answer_told(alloc, verb, fields)? {
        return Ok(Some(told));
    }
    if let Some(told) = record_told(alloc, verb, fields)? {
        return Ok(Some(told));
    }
    if let Some(told) = fate_told(alloc, verb, fields)? {
        return Ok(Some(told));
    }
    if let Some(told) = object_told(alloc, verb, fields)? {
        return Ok(Some(told));
    }
    layout_told(alloc, verb, fields)
}
