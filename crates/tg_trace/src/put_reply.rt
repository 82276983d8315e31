//! The words of replies, as they are put.

ghost use Rattle.std.specs.Prelude.{◌≡◌, ◌++◌, [], ◌∷◌, OnOk};
ghost use Rattle.tg_any.specs.Words.{number, object, two};
ghost use Rattle.tg_trace.specs.Lines.{spaced, first};
ghost use Rattle.tg_trace.specs.Fields.{fate_word, fate, unit, part_words, clash, any_op, answered};
ghost use Rattle.tg_trace.specs.Replies.{what_words};

use crate::put::{
    put_answer, put_ask, put_field, put_lettered, put_one, put_op, put_two, put_word,
};
use crate::put_refusal::put_refusal;
use crate::transcript::AnyWhat;
use std::alloc::Global;
use tg_any::{AnyAns, AnyAsk, AnyOp};
use tg_base::{List, NoMemory, Oid, Part, Pos};
use tg_model::What;

// Whether a record is committed, or that there is none.
fn fate_word(yes: Option<bool>) -> &'static [u8]
    ensures { result.now ≡ fate_word yes }
{
    match yes {
        None => b"none",
        Some(true) => b"yes",
        Some(false) => b"no",
    }
}

// Puts a verb, a position and the fate of the record there.
fn put_fate(verb: &[u8], at: Pos, yes: Option<bool>, out: &mut List<u8>) -> Result<(), NoMemory>
    ensures { OnOk result (out.new ≡ out.old ++ spaced (verb.now ∷ (two number fate).spell (at, yes))) }
{
    put_one(verb, &at, out)?;
    put_word(fate_word(yes), out)
}

// Puts a part of an object.
fn put_part(part: &Part, out: &mut List<u8>) -> Result<(), NoMemory>
    ensures { OnOk result (out.new ≡ out.old ++ spaced (part_words part.now)) }
{
    match part {
        Part::All => put_word(b"all", out),
        Part::Text(text) => {
            put_word(b"key", out)?;
            put_word(text.as_slice(), out)
        }
        Part::Num(number) => put_one(b"num", number, out),
    }
}

// Puts a part, and the two versions of it.
fn put_clash(part: &Part, seen: u64, now: u64, out: &mut List<u8>) -> Result<(), NoMemory>
    ensures { OnOk result (out.new ≡ out.old ++ spaced (clash.spell (part.now, (seen, now)))) }
{
    put_part(part, out)?;
    put_one(b"seen", &seen, out)?;
    put_one(b"now", &now, out)?;
    Ok(())
}

// Puts what a transaction was aborted by: its record, the object, the part and both versions.
fn put_aborted(
    at: Pos,
    oid: Oid,
    part: &Part,
    seen: u64,
    now: u64,
    out: &mut List<u8>,
) -> Result<(), NoMemory>
    ensures { OnOk result (out.new ≡ out.old ++ spaced ((first number (first object clash)).spell (at, (oid, (part.now, (seen, now)))))) }
{
    put_field(&at, out)?;
    put_field(&oid, out)?;
    put_clash(part, seen, now, out)
}

/// Puts a write.
pub fn put_write(alloc: Global, oid: Oid, op: &AnyOp, out: &mut List<u8>) -> Result<(), NoMemory>
    ensures { OnOk result (out.new ≡ out.old ++ spaced ((first object any_op).spell (oid, op.now))) }
{
    put_field(&oid, out)?;
    put_op(alloc, op, out)
}

// Puts an ask, and how it was answered at a position.
fn put_answered(
    alloc: Global,
    ask: &AnyAsk,
    at: Pos,
    answer: &AnyAns,
    out: &mut List<u8>,
) -> Result<(), NoMemory>
    ensures { OnOk result (out.new ≡ out.old ++ spaced (answered.spell (ask.now, (at, answer.now)))) }
{
    put_ask(alloc, ask, out)?;
    put_one(b"at", &at, out)?;
    put_word(b"=", out)?;
    put_answer(alloc, answer, out)?;
    Ok(())
}

// Puts a verb, an object, an ask and its answer.
fn put_told(
    alloc: Global,
    verb: &[u8],
    oid: Oid,
    ask: &AnyAsk,
    at: Pos,
    answer: &AnyAns,
    out: &mut List<u8>,
) -> Result<(), NoMemory>
    ensures { OnOk result (out.new ≡ out.old ++ spaced (verb.now ∷ (first object answered).spell (oid, (ask.now, (at, answer.now))))) }
{
    put_one(verb, &oid, out)?;
    put_answered(alloc, ask, at, answer, out)
}

// Puts a unit, a range and a stripe.
fn put_place(id: u16, range: usize, stripe: usize, out: &mut List<u8>) -> Result<(), NoMemory>
    ensures { OnOk result (out.new ≡ out.old ++ spaced ((first unit (two number number)).spell (id, (range, stripe)))) }
{
    put_lettered(b"u", id, out)?;
    put_field(&(range as u64), out)?;
    put_field(&(stripe as u64), out)
}

// Puts an object and two positions.
fn put_saved(oid: Oid, at: Pos, upto: Pos, out: &mut List<u8>) -> Result<(), NoMemory>
    ensures { OnOk result (out.new ≡ out.old ++ spaced ((first object (two number number)).spell (oid, (at, upto)))) }
{
    put_field(&oid, out)?;
    put_field(&at, out)?;
    put_field(&upto, out)
}

/// Puts what a client told.
pub fn put_what(alloc: Global, what: &AnyWhat, out: &mut List<u8>) -> Result<(), NoMemory>
    ensures { OnOk result (out.new ≡ out.old ++ spaced (what_words what.now)) }
{
    match what {
        What::Begin => put_word(b"begin", out),
        What::Put { oid, op } => {
            put_word(b"put", out)?;
            put_write(alloc, *oid, op, out)
        }
        What::Asked { oid, ask, at, ans } => put_told(alloc, b"asked", *oid, ask, *at, ans, out),
        What::End => put_word(b"end", out),
        What::Committed { at } => put_one(b"committed", at, out),
        What::Aborted {
            at,
            oid,
            part,
            seen,
            now,
        } => {
            put_word(b"aborted", out)?;
            put_aborted(*at, *oid, part, *seen, *now, out)
        }
        What::Unsure { at, pos } => put_two(b"unsure", at, pos, out),
        What::Dropped => put_word(b"dropped", out),
        What::Hosted { oid } => put_one(b"hosted", oid, out),
        What::Fate { at, yes } => put_fate(b"fate", *at, *yes, out),
        What::Decided { at, yes } => put_fate(b"decided", *at, *yes, out),
        What::Saved { oid, at, upto } => {
            put_word(b"saved", out)?;
            put_saved(*oid, *at, *upto, out)
        }
        What::Marked { oid, mark } => put_two(b"marked", oid, mark, out),
        What::Trimmed { mark } => put_one(b"trimmed", mark, out),
        What::Installed { epoch } => put_one(b"installed", epoch, out),
        What::Refused { why } => {
            put_word(b"refused", out)?;
            put_refusal(why, out)
        }
        What::Copied {
            unit,
            range,
            stripe,
        } => {
            put_word(b"copied", out)?;
            put_place(*unit, *range, *stripe, out)
        }
        What::Past { oid, ask, at, ans } => put_told(alloc, b"past", *oid, ask, *at, ans, out),
        What::Rescued { at, yes } => put_fate(b"rescued", *at, *yes, out),
    }
}
