//! The words of lists.

ghost use Rattle.std.specs.Prelude.{◌≡◌, ◌++◌, IfOk, OnOk};
ghost use Rattle.tg_any.specs.Words.{texts, joined};
ghost use Rattle.tg_any.specs.ListWords.{op_words, op_read, ask_words, ask_read, answer_words, answer_read};

use crate::field::Field;
use crate::phrase::{list, maybe, nothing, one, put_list, put_maybe, put_one, put_two, two};
use std::alloc::Global;
use tg_base::{List, NoMemory};
use tg_list::{TextListAns, TextListAsk, TextListOp};

/// The op that has this verb and these fields.
pub fn list_op(alloc: Global, verb: &str, fields: &[&str]) -> Result<Option<TextListOp>, NoMemory>
    ensures { IfOk result (λ x. x ≡ op_read verb.now (texts fields.now)) }
{
    match verb {
        "push_front" => {
            let Some(text) = one(alloc, fields)? else {
                return Ok(None);
            };
            Ok(Some(TextListOp::PushFront { text }))
        }
        "push_back" => {
            let Some(text) = one(alloc, fields)? else {
                return Ok(None);
            };
            Ok(Some(TextListOp::PushBack { text }))
        }
        "insert" => {
            let Some((at, text)) = two(alloc, fields)? else {
                return Ok(None);
            };
            Ok(Some(TextListOp::Insert { at, text }))
        }
        "remove" => {
            let Some(at) = one(alloc, fields)? else {
                return Ok(None);
            };
            Ok(Some(TextListOp::Remove { at }))
        }
        "pop_front" => Ok(nothing(fields).map(|()| TextListOp::PopFront)),
        "pop_back" => Ok(nothing(fields).map(|()| TextListOp::PopBack)),
        _ => Ok(None),
    }
}

/// The ask that has this verb and these fields.
pub fn list_ask(alloc: Global, verb: &str, fields: &[&str]) -> Result<Option<TextListAsk>, NoMemory>
    ensures { IfOk result (λ x. x ≡ ask_read verb.now (texts fields.now)) }
{
    match verb {
        "at" => {
            let Some(at) = one(alloc, fields)? else {
                return Ok(None);
            };
            Ok(Some(TextListAsk::At { at }))
        }
        "len" => Ok(nothing(fields).map(|()| TextListAsk::Len)),
        "items" => Ok(nothing(fields).map(|()| TextListAsk::Items)),
        _ => Ok(None),
    }
}

/// The answer of the ask's form that has these words.
pub fn list_answer(
    alloc: Global,
    ask: &TextListAsk,
    words: &[&str],
) -> Result<Option<TextListAns>, NoMemory>
    ensures { IfOk result (λ x. x ≡ answer_read ask.now (texts words.now)) }
{
    match ask {
        TextListAsk::At { .. } => {
            let Some(x) = maybe(alloc, words)? else {
                return Ok(None);
            };
            Ok(Some(TextListAns::Item(x)))
        }
        TextListAsk::Len => {
            let Some(x) = one(alloc, words)? else {
                return Ok(None);
            };
            Ok(Some(TextListAns::Number(x)))
        }
        TextListAsk::Items => {
            let Some(x) = list(alloc, words)? else {
                return Ok(None);
            };
            Ok(Some(TextListAns::Items(x)))
        }
    }
}

/// Puts an op's verb and fields.
pub fn put_list_op(x: &TextListOp, out: &mut List<u8>) -> Result<(), NoMemory>
    ensures { OnOk result (out.new ≡ out.old ++ joined (op_words x.now)) }
{
    match x {
        TextListOp::PushFront { text } => put_one(b"push_front", text, out),
        TextListOp::PushBack { text } => put_one(b"push_back", text, out),
        TextListOp::Insert { at, text } => put_two(b"insert", at, text, out),
        TextListOp::Remove { at } => put_one(b"remove", at, out),
        TextListOp::PopFront => out.extend(b"pop_front"),
        TextListOp::PopBack => out.extend(b"pop_back"),
    }
}

/// Puts an ask's verb and fields.
pub fn put_list_ask(x: &TextListAsk, out: &mut List<u8>) -> Result<(), NoMemory>
    ensures { OnOk result (out.new ≡ out.old ++ joined (ask_words x.now)) }
{
    match x {
        TextListAsk::At { at } => put_one(b"at", at, out),
        TextListAsk::Len => out.extend(b"len"),
        TextListAsk::Items => out.extend(b"items"),
    }
}

/// Puts an answer's words.
pub fn put_list_answer(x: &TextListAns, out: &mut List<u8>) -> Result<(), NoMemory>
    ensures { OnOk result (out.new ≡ out.old ++ joined (answer_words x.now)) }
{
    match x {
        TextListAns::Item(x) => put_maybe(x, out),
        TextListAns::Number(x) => x.put(out),
        TextListAns::Items(x) => put_list(x.as_slice(), out),
    }
}
