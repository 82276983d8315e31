//! The words of directories.

ghost use Rattle.std.specs.Prelude.{◌≡◌, ◌++◌, IfOk, OnOk};
ghost use Rattle.tg_any.specs.Words.{texts, joined};
ghost use Rattle.tg_any.specs.DirectoryWords.{op_words, op_read, ask_words, ask_read, answer_words, answer_read};

use crate::field::Field;
use crate::phrase::{list, maybe, nothing, one, put_list, put_maybe, put_one, put_two, two};
use std::alloc::Global;
use tg_base::{List, NoMemory};
use tg_dir::{DirectoryAns, DirectoryAsk, DirectoryOp};

/// The op that has this verb and these fields.
pub fn directory_op(
    alloc: Global,
    verb: &str,
    fields: &[&str],
) -> Result<Option<DirectoryOp>, NoMemory>
    ensures { IfOk result (λ x. x ≡ op_read verb.now (texts fields.now)) }
{
    match verb {
        "name" => {
            let Some((name, oid)) = two(alloc, fields)? else {
                return Ok(None);
            };
            Ok(Some(DirectoryOp::Name { name, oid }))
        }
        "mark" => {
            let Some((oid, mark)) = two(alloc, fields)? else {
                return Ok(None);
            };
            Ok(Some(DirectoryOp::Mark { oid, mark }))
        }
        _ => Ok(None),
    }
}

/// The ask that has this verb and these fields.
pub fn directory_ask(
    alloc: Global,
    verb: &str,
    fields: &[&str],
) -> Result<Option<DirectoryAsk>, NoMemory>
    ensures { IfOk result (λ x. x ≡ ask_read verb.now (texts fields.now)) }
{
    match verb {
        "find" => {
            let Some(name) = one(alloc, fields)? else {
                return Ok(None);
            };
            Ok(Some(DirectoryAsk::Find { name }))
        }
        "marks" => Ok(nothing(fields).map(|()| DirectoryAsk::Marks)),
        "floor" => Ok(nothing(fields).map(|()| DirectoryAsk::Floor)),
        _ => Ok(None),
    }
}

/// The answer of the ask's form that has these words.
pub fn directory_answer(
    alloc: Global,
    ask: &DirectoryAsk,
    words: &[&str],
) -> Result<Option<DirectoryAns>, NoMemory>
    ensures { IfOk result (λ x. x ≡ answer_read ask.now (texts words.now)) }
{
    match ask {
        DirectoryAsk::Find { .. } => {
            let Some(x) = maybe(alloc, words)? else {
                return Ok(None);
            };
            Ok(Some(DirectoryAns::Found(x)))
        }
        DirectoryAsk::Marks => {
            let Some(x) = list(alloc, words)? else {
                return Ok(None);
            };
            Ok(Some(DirectoryAns::Marks(x)))
        }
        DirectoryAsk::Floor => {
            let Some(x) = one(alloc, words)? else {
                return Ok(None);
            };
            Ok(Some(DirectoryAns::Floor(x)))
        }
    }
}

/// Puts an op's verb and fields.
pub fn put_directory_op(x: &DirectoryOp, out: &mut List<u8>) -> Result<(), NoMemory>
    ensures { OnOk result (out.new ≡ out.old ++ joined (op_words x.now)) }
{
    match x {
        DirectoryOp::Name { name, oid } => put_two(b"name", name, oid, out),
        DirectoryOp::Mark { oid, mark } => put_two(b"mark", oid, mark, out),
    }
}

/// Puts an ask's verb and fields.
pub fn put_directory_ask(x: &DirectoryAsk, out: &mut List<u8>) -> Result<(), NoMemory>
    ensures { OnOk result (out.new ≡ out.old ++ joined (ask_words x.now)) }
{
    match x {
        DirectoryAsk::Find { name } => put_one(b"find", name, out),
        DirectoryAsk::Marks => out.extend(b"marks"),
        DirectoryAsk::Floor => out.extend(b"floor"),
    }
}

/// Puts an answer's words.
pub fn put_directory_answer(x: &DirectoryAns, out: &mut List<u8>) -> Result<(), NoMemory>
    ensures { OnOk result (out.new ≡ out.old ++ joined (answer_words x.now)) }
{
    match x {
        DirectoryAns::Found(x) => put_maybe(x, out),
        DirectoryAns::Marks(x) => put_list(x.as_slice(), out),
        DirectoryAns::Floor(x) => x.put(out),
    }
}
