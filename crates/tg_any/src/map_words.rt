//! The words of maps.

ghost use Rattle.std.specs.Prelude.{◌≡◌, ◌++◌, IfOk, OnOk};
ghost use Rattle.tg_any.specs.Words.{texts, joined};
ghost use Rattle.tg_any.specs.MapWords.{op_words, op_read, ask_words, ask_read, answer_words, answer_read};

use crate::field::Field;
use crate::phrase::{list, maybe, nothing, one, put_list, put_maybe, put_one, put_two, two};
use std::alloc::Global;
use tg_base::{List, NoMemory};
use tg_map::{MapAns, MapAsk, MapOp};

/// The op that has this verb and these fields.
pub fn map_op(alloc: Global, verb: &str, fields: &[&str]) -> Result<Option<MapOp>, NoMemory>
    ensures { IfOk result (λ x. x ≡ op_read verb.now (texts fields.now)) }
{
    match verb {
        "set" => {
            let Some((key, value)) = two(alloc, fields)? else {
                return Ok(None);
            };
            Ok(Some(MapOp::Set { key, value }))
        }
        "unset" => {
            let Some(key) = one(alloc, fields)? else {
                return Ok(None);
            };
            Ok(Some(MapOp::Unset { key }))
        }
        _ => Ok(None),
    }
}

/// The ask that has this verb and these fields.
pub fn map_ask(alloc: Global, verb: &str, fields: &[&str]) -> Result<Option<MapAsk>, NoMemory>
    ensures { IfOk result (λ x. x ≡ ask_read verb.now (texts fields.now)) }
{
    match verb {
        "get" => {
            let Some(key) = one(alloc, fields)? else {
                return Ok(None);
            };
            Ok(Some(MapAsk::Get { key }))
        }
        "size" => Ok(nothing(fields).map(|()| MapAsk::Size)),
        "keys" => Ok(nothing(fields).map(|()| MapAsk::Keys)),
        _ => Ok(None),
    }
}

/// The answer of the ask's form that has these words.
pub fn map_answer(alloc: Global, ask: &MapAsk, words: &[&str]) -> Result<Option<MapAns>, NoMemory>
    ensures { IfOk result (λ x. x ≡ answer_read ask.now (texts words.now)) }
{
    match ask {
        MapAsk::Get { .. } => {
            let Some(x) = maybe(alloc, words)? else {
                return Ok(None);
            };
            Ok(Some(MapAns::Value(x)))
        }
        MapAsk::Size => {
            let Some(x) = one(alloc, words)? else {
                return Ok(None);
            };
            Ok(Some(MapAns::Number(x)))
        }
        MapAsk::Keys => {
            let Some(x) = list(alloc, words)? else {
                return Ok(None);
            };
            Ok(Some(MapAns::Keys(x)))
        }
    }
}

/// Puts an op's verb and fields.
pub fn put_map_op(x: &MapOp, out: &mut List<u8>) -> Result<(), NoMemory>
    ensures { OnOk result (out.new ≡ out.old ++ joined (op_words x.now)) }
{
    match x {
        MapOp::Set { key, value } => put_two(b"set", key, value, out),
        MapOp::Unset { key } => put_one(b"unset", key, out),
    }
}

/// Puts an ask's verb and fields.
pub fn put_map_ask(x: &MapAsk, out: &mut List<u8>) -> Result<(), NoMemory>
    ensures { OnOk result (out.new ≡ out.old ++ joined (ask_words x.now)) }
{
    match x {
        MapAsk::Get { key } => put_one(b"get", key, out),
        MapAsk::Size => out.extend(b"size"),
        MapAsk::Keys => out.extend(b"keys"),
    }
}

/// Puts an answer's words.
pub fn put_map_answer(x: &MapAns, out: &mut List<u8>) -> Result<(), NoMemory>
    ensures { OnOk result (out.new ≡ out.old ++ joined (answer_words x.now)) }
{
    match x {
        MapAns::Value(x) => put_maybe(x, out),
        MapAns::Number(x) => x.put(out),
        MapAns::Keys(x) => put_list(x.as_slice(), out),
    }
}
