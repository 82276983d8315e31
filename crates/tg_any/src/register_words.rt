//! The words of registers.

ghost use Rattle.std.specs.Prelude.{◌≡◌, ◌++◌, IfOk, OnOk};
ghost use Rattle.tg_any.specs.Words.{texts, joined};
ghost use Rattle.tg_any.specs.RegisterWords.{op_words, op_read, ask_words, ask_read, answer_words, answer_read};

use crate::phrase::{maybe, nothing, one, put_maybe, put_one};
use std::alloc::Global;
use tg_base::{List, NoMemory};
use tg_cell::{RegisterAns, RegisterAsk, RegisterOp};

/// The op that has this verb and these fields.
pub fn register_op(
    alloc: Global,
    verb: &str,
    fields: &[&str],
) -> Result<Option<RegisterOp>, NoMemory>
    ensures { IfOk result (λ x. x ≡ op_read verb.now (texts fields.now)) }
{
    if verb == "write" {
        let Some(text) = one(alloc, fields)? else {
            return Ok(None);
        };
        return Ok(Some(RegisterOp::Write { text }));
    }
    Ok(None)
}

/// The ask that has this verb and these fields.
pub fn register_ask(
    alloc: Global,
    verb: &str,
    fields: &[&str],
) -> Result<Option<RegisterAsk>, NoMemory>
    ensures { IfOk result (λ x. x ≡ ask_read verb.now (texts fields.now)) }
{
    if verb == "text" {
        return Ok(nothing(fields).map(|()| RegisterAsk::Text));
    }
    Ok(None)
}

/// The answer of the ask's form that has these words.
pub fn register_answer(
    alloc: Global,
    ask: &RegisterAsk,
    words: &[&str],
) -> Result<Option<RegisterAns>, NoMemory>
    ensures { IfOk result (λ x. x ≡ answer_read ask.now (texts words.now)) }
{
    match ask {
        RegisterAsk::Text => {
            let Some(x) = maybe(alloc, words)? else {
                return Ok(None);
            };
            Ok(Some(RegisterAns::Held(x)))
        }
    }
}

/// Puts an op's verb and fields.
pub fn put_register_op(x: &RegisterOp, out: &mut List<u8>) -> Result<(), NoMemory>
    ensures { OnOk result (out.new ≡ out.old ++ joined (op_words x.now)) }
{
    match x {
        RegisterOp::Write { text } => put_one(b"write", text, out),
    }
}

/// Puts an ask's verb and fields.
pub fn put_register_ask(x: &RegisterAsk, out: &mut List<u8>) -> Result<(), NoMemory>
    ensures { OnOk result (out.new ≡ out.old ++ joined (ask_words x.now)) }
{
    match x {
        RegisterAsk::Text => out.extend(b"text"),
    }
}

/// Puts an answer's words.
pub fn put_register_answer(x: &RegisterAns, out: &mut List<u8>) -> Result<(), NoMemory>
    ensures { OnOk result (out.new ≡ out.old ++ joined (answer_words x.now)) }
{
    match x {
        RegisterAns::Held(x) => put_maybe(x, out),
    }
}
