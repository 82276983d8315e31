//! The words of trees.

ghost use Rattle.std.specs.Prelude.{◌≡◌, ◌++◌, IfOk, OnOk};
ghost use Rattle.tg_any.specs.Words.{texts, joined};
ghost use Rattle.tg_any.specs.TreeWords.{op_words, op_read, ask_words, ask_read, answer_words, answer_read};

use crate::field::Field;
use crate::phrase::{list, maybe, one, put_list, put_maybe, put_one, put_two, two};
use std::alloc::Global;
use tg_base::{List, NoMemory};
use tg_tree::{TreeAns, TreeAsk, TreeOp};

/// The op that has this verb and these fields.
pub fn tree_op(alloc: Global, verb: &str, fields: &[&str]) -> Result<Option<TreeOp>, NoMemory>
    ensures { IfOk result (λ x. x ≡ op_read verb.now (texts fields.now)) }
{
    match verb {
        "create" => {
            let Some((path, text)) = two(alloc, fields)? else {
                return Ok(None);
            };
            Ok(Some(TreeOp::Create { path, text }))
        }
        "store" => {
            let Some((path, text)) = two(alloc, fields)? else {
                return Ok(None);
            };
            Ok(Some(TreeOp::Store { path, text }))
        }
        "delete" => {
            let Some(path) = one(alloc, fields)? else {
                return Ok(None);
            };
            Ok(Some(TreeOp::Delete { path }))
        }
        _ => Ok(None),
    }
}

/// The ask that has this verb and these fields.
pub fn tree_ask(alloc: Global, verb: &str, fields: &[&str]) -> Result<Option<TreeAsk>, NoMemory>
    ensures { IfOk result (λ x. x ≡ ask_read verb.now (texts fields.now)) }
{
    match verb {
        "data" => {
            let Some(path) = one(alloc, fields)? else {
                return Ok(None);
            };
            Ok(Some(TreeAsk::Data { path }))
        }
        "has" => {
            let Some(path) = one(alloc, fields)? else {
                return Ok(None);
            };
            Ok(Some(TreeAsk::Has { path }))
        }
        "children" => {
            let Some(path) = one(alloc, fields)? else {
                return Ok(None);
            };
            Ok(Some(TreeAsk::Children { path }))
        }
        _ => Ok(None),
    }
}

/// The answer of the ask's form that has these words.
pub fn tree_answer(
    alloc: Global,
    ask: &TreeAsk,
    words: &[&str],
) -> Result<Option<TreeAns>, NoMemory>
    ensures { IfOk result (λ x. x ≡ answer_read ask.now (texts words.now)) }
{
    match ask {
        TreeAsk::Data { .. } => {
            let Some(x) = maybe(alloc, words)? else {
                return Ok(None);
            };
            Ok(Some(TreeAns::Data(x)))
        }
        TreeAsk::Has { .. } => {
            let Some(x) = one(alloc, words)? else {
                return Ok(None);
            };
            Ok(Some(TreeAns::Has(x)))
        }
        TreeAsk::Children { .. } => {
            let Some(x) = list(alloc, words)? else {
                return Ok(None);
            };
            Ok(Some(TreeAns::Children(x)))
        }
    }
}

/// Puts an op's verb and fields.
pub fn put_tree_op(x: &TreeOp, out: &mut List<u8>) -> Result<(), NoMemory>
    ensures { OnOk result (out.new ≡ out.old ++ joined (op_words x.now)) }
{
    match x {
        TreeOp::Create { path, text } => put_two(b"create", path, text, out),
        TreeOp::Store { path, text } => put_two(b"store", path, text, out),
        TreeOp::Delete { path } => put_one(b"delete", path, out),
    }
}

/// Puts an ask's verb and fields.
pub fn put_tree_ask(x: &TreeAsk, out: &mut List<u8>) -> Result<(), NoMemory>
    ensures { OnOk result (out.new ≡ out.old ++ joined (ask_words x.now)) }
{
    match x {
        TreeAsk::Data { path } => put_one(b"data", path, out),
        TreeAsk::Has { path } => put_one(b"has", path, out),
        TreeAsk::Children { path } => put_one(b"children", path, out),
    }
}

/// Puts an answer's words.
pub fn put_tree_answer(x: &TreeAns, out: &mut List<u8>) -> Result<(), NoMemory>
    ensures { OnOk result (out.new ≡ out.old ++ joined (answer_words x.now)) }
{
    match x {
        TreeAns::Data(x) => put_maybe(x, out),
        TreeAns::Has(x) => x.put(out),
        TreeAns::Children(x) => put_list(x.as_slice(), out),
    }
}
