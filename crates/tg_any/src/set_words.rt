//! The words of sets.

ghost use Rattle.std.specs.Prelude.{◌≡◌, ◌++◌, IfOk, OnOk};
ghost use Rattle.tg_any.specs.Words.{texts, joined};
ghost use Rattle.tg_any.specs.SetWords.{op_words, op_read, ask_words, ask_read, answer_words, answer_read};

use crate::field::Field;
use crate::phrase::{list, one, put_list, put_one, put_two, two};
use std::alloc::Global;
use tg_base::{List, NoMemory};
use tg_set::{SetAns, SetAsk, SetOp};

/// The op that has this verb and these fields.
pub fn set_op(alloc: Global, verb: &str, fields: &[&str]) -> Result<Option<SetOp>, NoMemory>
    ensures { IfOk result (λ x. x ≡ op_read verb.now (texts fields.now)) }
{
    match verb {
        "include" => {
            let Some(number) = one(alloc, fields)? else {
                return Ok(None);
            };
            Ok(Some(SetOp::Include { number }))
        }
        "exclude" => {
            let Some(number) = one(alloc, fields)? else {
                return Ok(None);
            };
            Ok(Some(SetOp::Exclude { number }))
        }
        _ => Ok(None),
    }
}

/// The ask that has this verb and these fields.
pub fn set_ask(alloc: Global, verb: &str, fields: &[&str]) -> Result<Option<SetAsk>, NoMemory>
    ensures { IfOk result (λ x. x ≡ ask_read verb.now (texts fields.now)) }
{
    match verb {
        "member" => {
            let Some(number) = one(alloc, fields)? else {
                return Ok(None);
            };
            Ok(Some(SetAsk::Member { number }))
        }
        "count" => {
            let Some((low, high)) = two(alloc, fields)? else {
                return Ok(None);
            };
            Ok(Some(SetAsk::Count { low, high }))
        }
        "between" => {
            let Some((low, high)) = two(alloc, fields)? else {
                return Ok(None);
            };
            Ok(Some(SetAsk::Between { low, high }))
        }
        _ => Ok(None),
    }
}

/// The answer of the ask's form that has these words.
pub fn set_answer(alloc: Global, ask: &SetAsk, words: &[&str]) -> Result<Option<SetAns>, NoMemory>
    ensures { IfOk result (λ x. x ≡ answer_read ask.now (texts words.now)) }
{
    match ask {
        SetAsk::Member { .. } => {
            let Some(x) = one(alloc, words)? else {
                return Ok(None);
            };
            Ok(Some(SetAns::Member(x)))
        }
        SetAsk::Count { .. } => {
            let Some(x) = one(alloc, words)? else {
                return Ok(None);
            };
            Ok(Some(SetAns::Count(x)))
        }
        SetAsk::Between { .. } => {
            let Some(x) = list(alloc, words)? else {
                return Ok(None);
            };
            Ok(Some(SetAns::Numbers(x)))
        }
    }
}

/// Puts an op's verb and fields.
pub fn put_set_op(x: &SetOp, out: &mut List<u8>) -> Result<(), NoMemory>
    ensures { OnOk result (out.new ≡ out.old ++ joined (op_words x.now)) }
{
    match x {
        SetOp::Include { number } => put_one(b"include", number, out),
        SetOp::Exclude { number } => put_one(b"exclude", number, out),
    }
}

/// Puts an ask's verb and fields.
pub fn put_set_ask(x: &SetAsk, out: &mut List<u8>) -> Result<(), NoMemory>
    ensures { OnOk result (out.new ≡ out.old ++ joined (ask_words x.now)) }
{
    match x {
        SetAsk::Member { number } => put_one(b"member", number, out),
        SetAsk::Count { low, high } => put_two(b"count", low, high, out),
        SetAsk::Between { low, high } => put_two(b"between", low, high, out),
    }
}

/// Puts an answer's words.
pub fn put_set_answer(x: &SetAns, out: &mut List<u8>) -> Result<(), NoMemory>
    ensures { OnOk result (out.new ≡ out.old ++ joined (answer_words x.now)) }
{
    match x {
        SetAns::Member(x) => x.put(out),
        SetAns::Count(x) => x.put(out),
        SetAns::Numbers(x) => put_list(x.as_slice(), out),
    }
}
