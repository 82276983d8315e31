//! The words of ops, asks and answers of all kinds, as scripts and transcripts have them.

ghost use Rattle.std.specs.Prelude.{◌≡◌, ◌++◌, true, Some, IfOk, IfSome, OnOk, OnErr};
ghost use Rattle.tg_any.specs.Words.{texts, joined};
ghost use Rattle.tg_any.specs.AnyWords.{op_words, op_fits, op_read, ask_words, ask_fits, ask_read, answer_words, answer_fits, answer_read};
ghost use Rattle.tg_any.specs.declared.any.AnyOp.{AnyOp};
ghost use Rattle.tg_any.specs.declared.any.AnyAsk.{AnyAsk};
ghost use Rattle.tg_any.specs.declared.any.AnyAns.{AnyAns};

use crate::any::{AnyAns, AnyAsk, AnyOp};
use crate::counter_words::{
    counter_answer, counter_ask, counter_op, put_counter_answer, put_counter_ask, put_counter_op,
};
use crate::directory_words::{
    directory_answer, directory_ask, directory_op, put_directory_answer, put_directory_ask,
    put_directory_op,
};
use crate::list_words::{
    list_answer, list_ask, list_op, put_list_answer, put_list_ask, put_list_op,
};
use crate::map_words::{map_answer, map_ask, map_op, put_map_answer, put_map_ask, put_map_op};
use crate::register_words::{
    put_register_answer, put_register_ask, put_register_op, register_answer, register_ask,
    register_op,
};
use crate::set_words::{put_set_answer, put_set_ask, put_set_op, set_answer, set_ask, set_op};
use crate::tree_words::{
    put_tree_answer, put_tree_ask, put_tree_op, tree_answer, tree_ask, tree_op,
};
use std::alloc::Global;
use tg_base::{List, NoMemory};

/// The op that has these words, None where no op has. An `Err` is want of memory.
pub fn op_of(alloc: Global, words: &[&str]) -> Result<Option<AnyOp>, NoMemory>
    ensures found { IfOk result (λ x. IfSome x (λ op. (texts words.now ≡ op_words op) × (op_fits op ≡ true))) }
    ensures only { (op : AnyOp) → op_fits op ≡ true → texts words.now ≡ op_words op → IfOk result (λ x. x ≡ Some op) }
{
    parse_op(alloc, words)
}

#[tactic(auto, unfolding(crate::specs::AnyWords::op_read))]
fn parse_op(alloc: Global, words: &[&str]) -> Result<Option<AnyOp>, NoMemory>
    ensures { IfOk result (λ x. x ≡ op_read (texts words.now)) }
{
    let [verb, fields @ ..] = words else {
        return Ok(None);
    };
    if let Some(x) = directory_op(alloc, verb, fields)? {
        return Ok(Some(AnyOp::Directory(x)));
    }
    if let Some(x) = counter_op(alloc, verb, fields)? {
        return Ok(Some(AnyOp::Counter(x)));
    }
    if let Some(x) = register_op(alloc, verb, fields)? {
        return Ok(Some(AnyOp::Register(x)));
    }
    if let Some(x) = map_op(alloc, verb, fields)? {
        return Ok(Some(AnyOp::Map(x)));
    }
    if let Some(x) = list_op(alloc, verb, fields)? {
        return Ok(Some(AnyOp::List(x)));
    }
    if let Some(x) = tree_op(alloc, verb, fields)? {
        return Ok(Some(AnyOp::Tree(x)));
    }
    if let Some(x) = set_op(alloc, verb, fields)? {
        return Ok(Some(AnyOp::Set(x)));
    }
    Ok(None)
}

/// The ask that has these words, None where no ask has. An `Err` is want of memory.
pub fn ask_of(alloc: Global, words: &[&str]) -> Result<Option<AnyAsk>, NoMemory>
    ensures found { IfOk result (λ x. IfSome x (λ ask. (texts words.now ≡ ask_words ask) × (ask_fits ask ≡ true))) }
    ensures only { (ask : AnyAsk) → ask_fits ask ≡ true → texts words.now ≡ ask_words ask → IfOk result (λ x. x ≡ Some ask) }
{
    parse_ask(alloc, words)
}

#[tactic(auto, unfolding(crate::specs::AnyWords::ask_read))]
fn parse_ask(alloc: Global, words: &[&str]) -> Result<Option<AnyAsk>, NoMemory>
    ensures { IfOk result (λ x. x ≡ ask_read (texts words.now)) }
{
    let [verb, fields @ ..] = words else {
        return Ok(None);
    };
    if let Some(x) = directory_ask(alloc, verb, fields)? {
        return Ok(Some(AnyAsk::Directory(x)));
    }
    if let Some(x) = counter_ask(alloc, verb, fields)? {
        return Ok(Some(AnyAsk::Counter(x)));
    }
    if let Some(x) = register_ask(alloc, verb, fields)? {
        return Ok(Some(AnyAsk::Register(x)));
    }
    if let Some(x) = map_ask(alloc, verb, fields)? {
        return Ok(Some(AnyAsk::Map(x)));
    }
    if let Some(x) = list_ask(alloc, verb, fields)? {
        return Ok(Some(AnyAsk::List(x)));
    }
    if let Some(x) = tree_ask(alloc, verb, fields)? {
        return Ok(Some(AnyAsk::Tree(x)));
    }
    if let Some(x) = set_ask(alloc, verb, fields)? {
        return Ok(Some(AnyAsk::Set(x)));
    }
    Ok(None)
}

/// The answer of the ask's form that has these words, None where no such answer has. An `Err` is want
/// of memory.
pub fn ans_of(alloc: Global, ask: &AnyAsk, words: &[&str]) -> Result<Option<AnyAns>, NoMemory>
    ensures found { IfOk result (λ x. IfSome x (λ answer. (texts words.now ≡ answer_words answer) × (answer_fits ask.now answer ≡ true))) }
    ensures only { (answer : AnyAns) → answer_fits ask.now answer ≡ true → texts words.now ≡ answer_words answer → IfOk result (λ x. x ≡ Some answer) }
{
    parse_answer(alloc, ask, words)
}

fn parse_answer(alloc: Global, ask: &AnyAsk, words: &[&str]) -> Result<Option<AnyAns>, NoMemory>
    ensures { IfOk result (λ x. x ≡ answer_read ask.now (texts words.now)) }
{
    match ask {
        AnyAsk::Directory(ask) => {
            let Some(x) = directory_answer(alloc, ask, words)? else {
                return Ok(None);
            };
            Ok(Some(AnyAns::Directory(x)))
        }
        AnyAsk::Counter(ask) => {
            let Some(x) = counter_answer(alloc, ask, words)? else {
                return Ok(None);
            };
            Ok(Some(AnyAns::Counter(x)))
        }
        AnyAsk::Register(ask) => {
            let Some(x) = register_answer(alloc, ask, words)? else {
                return Ok(None);
            };
            Ok(Some(AnyAns::Register(x)))
        }
        AnyAsk::Map(ask) => {
            let Some(x) = map_answer(alloc, ask, words)? else {
                return Ok(None);
            };
            Ok(Some(AnyAns::Map(x)))
        }
        AnyAsk::List(ask) => {
            let Some(x) = list_answer(alloc, ask, words)? else {
                return Ok(None);
            };
            Ok(Some(AnyAns::List(x)))
        }
        AnyAsk::Tree(ask) => {
            let Some(x) = tree_answer(alloc, ask, words)? else {
                return Ok(None);
            };
            Ok(Some(AnyAns::Tree(x)))
        }
        AnyAsk::Set(ask) => {
            let Some(x) = set_answer(alloc, ask, words)? else {
                return Ok(None);
            };
            Ok(Some(AnyAns::Set(x)))
        }
    }
}

/// Puts the op's words last, with a space between any two. An `Err` is want of memory, and changes
/// nothing.
pub fn spell_op(alloc: Global, op: &AnyOp, out: &mut List<u8>) -> Result<(), NoMemory>
    ensures ok { OnOk result (out.new ≡ out.old ++ joined (op_words op.now)) }
    ensures err { OnErr result (out.new ≡ out.old) }
{
    let mut line = List::new(alloc);
    put_op(op, &mut line)?;
    out.extend(line.as_slice())
}

fn put_op(op: &AnyOp, out: &mut List<u8>) -> Result<(), NoMemory>
    ensures { OnOk result (out.new ≡ out.old ++ joined (op_words op.now)) }
{
    match op {
        AnyOp::Directory(op) => put_directory_op(op, out),
        AnyOp::Counter(op) => put_counter_op(op, out),
        AnyOp::Register(op) => put_register_op(op, out),
        AnyOp::Map(op) => put_map_op(op, out),
        AnyOp::List(op) => put_list_op(op, out),
        AnyOp::Tree(op) => put_tree_op(op, out),
        AnyOp::Set(op) => put_set_op(op, out),
    }
}

/// Puts the ask's words last, with a space between any two. An `Err` is want of memory, and changes
/// nothing.
pub fn spell_ask(alloc: Global, ask: &AnyAsk, out: &mut List<u8>) -> Result<(), NoMemory>
    ensures ok { OnOk result (out.new ≡ out.old ++ joined (ask_words ask.now)) }
    ensures err { OnErr result (out.new ≡ out.old) }
{
    let mut line = List::new(alloc);
    put_ask(ask, &mut line)?;
    out.extend(line.as_slice())
}

fn put_ask(ask: &AnyAsk, out: &mut List<u8>) -> Result<(), NoMemory>
    ensures { OnOk result (out.new ≡ out.old ++ joined (ask_words ask.now)) }
{
    match ask {
        AnyAsk::Directory(ask) => put_directory_ask(ask, out),
        AnyAsk::Counter(ask) => put_counter_ask(ask, out),
        AnyAsk::Register(ask) => put_register_ask(ask, out),
        AnyAsk::Map(ask) => put_map_ask(ask, out),
        AnyAsk::List(ask) => put_list_ask(ask, out),
        AnyAsk::Tree(ask) => put_tree_ask(ask, out),
        AnyAsk::Set(ask) => put_set_ask(ask, out),
    }
}

/// Puts the answer's words last, with a space between any two. An `Err` is want of memory, and changes
/// nothing.
pub fn spell_ans(alloc: Global, answer: &AnyAns, out: &mut List<u8>) -> Result<(), NoMemory>
    ensures ok { OnOk result (out.new ≡ out.old ++ joined (answer_words answer.now)) }
    ensures err { OnErr result (out.new ≡ out.old) }
{
    let mut line = List::new(alloc);
    put_answer(answer, &mut line)?;
    out.extend(line.as_slice())
}

fn put_answer(answer: &AnyAns, out: &mut List<u8>) -> Result<(), NoMemory>
    ensures { OnOk result (out.new ≡ out.old ++ joined (answer_words answer.now)) }
{
    match answer {
        AnyAns::Directory(answer) => put_directory_answer(answer, out),
        AnyAns::Counter(answer) => put_counter_answer(answer, out),
        AnyAns::Register(answer) => put_register_answer(answer, out),
        AnyAns::Map(answer) => put_map_answer(answer, out),
        AnyAns::List(answer) => put_list_answer(answer, out),
        AnyAns::Tree(answer) => put_tree_answer(answer, out),
        AnyAns::Set(answer) => put_set_answer(answer, out),
        AnyAns::None => out.extend(b"none"),
    }
}
