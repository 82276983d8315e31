//! The words of counters.

ghost use Rattle.std.specs.Prelude.{◌≡◌, ◌++◌, IfOk, OnOk};
ghost use Rattle.tg_any.specs.Words.{texts, joined};
ghost use Rattle.tg_any.specs.CounterWords.{op_words, op_read, ask_words, ask_read, answer_words, answer_read};

use crate::field::Field;
use crate::phrase::{nothing, one, put_one};
use std::alloc::Global;
use tg_base::{List, NoMemory};
use tg_cell::{CounterAns, CounterAsk, CounterOp};

/// The op that has this verb and these fields.
pub fn counter_op(alloc: Global, verb: &str, fields: &[&str]) -> Result<Option<CounterOp>, NoMemory>
    ensures { IfOk result (λ x. x ≡ op_read verb.now (texts fields.now)) }
{
    if verb == "add" {
        let Some(by) = one(alloc, fields)? else {
            return Ok(None);
        };
        return Ok(Some(CounterOp::Add { by }));
    }
    Ok(None)
}

/// The ask that has this verb and these fields.
pub fn counter_ask(
    alloc: Global,
    verb: &str,
    fields: &[&str],
) -> Result<Option<CounterAsk>, NoMemory>
    ensures { IfOk result (λ x. x ≡ ask_read verb.now (texts fields.now)) }
{
    if verb == "value" {
        return Ok(nothing(fields).map(|()| CounterAsk::Value));
    }
    Ok(None)
}

/// The answer of the ask's form that has these words.
pub fn counter_answer(
    alloc: Global,
    ask: &CounterAsk,
    words: &[&str],
) -> Result<Option<CounterAns>, NoMemory>
    ensures { IfOk result (λ x. x ≡ answer_read ask.now (texts words.now)) }
{
    match ask {
        CounterAsk::Value => {
            let Some(x) = one(alloc, words)? else {
                return Ok(None);
            };
            Ok(Some(CounterAns::Number(x)))
        }
    }
}

/// Puts an op's verb and fields.
pub fn put_counter_op(x: &CounterOp, out: &mut List<u8>) -> Result<(), NoMemory>
    ensures { OnOk result (out.new ≡ out.old ++ joined (op_words x.now)) }
{
    match x {
        CounterOp::Add { by } => put_one(b"add", by, out),
    }
}

/// Puts an ask's verb and fields.
pub fn put_counter_ask(x: &CounterAsk, out: &mut List<u8>) -> Result<(), NoMemory>
    ensures { OnOk result (out.new ≡ out.old ++ joined (ask_words x.now)) }
{
    match x {
        CounterAsk::Value => out.extend(b"value"),
    }
}

/// Puts an answer's words.
pub fn put_counter_answer(x: &CounterAns, out: &mut List<u8>) -> Result<(), NoMemory>
    ensures { OnOk result (out.new ≡ out.old ++ joined (answer_words x.now)) }
{
    match x {
        CounterAns::Number(x) => x.put(out),
    }
}
