//! The words of a client's command: a verb and its fields.

ghost use Rattle.std.specs.Prelude.{◌≡◌, IfOk};
ghost use Rattle.tg_any.specs.AnyWords.{op_read, ask_read};
ghost use Rattle.tg_any.specs.Words.{texts, number, object, one_read, two};
ghost use Rattle.tg_script.specs.Commands.{is_put, put_read, put_op, any_ask, first, mark, transaction_read, record_read, object_read, layout_read, command_read};

use crate::change::{change, place};
use std::alloc::Global;
use tg_any::{AnyAsk, AnyOp, ask_of, nothing, number, object, one, op_of};
use tg_base::{Cluster, NoMemory, Oid, Pos};
use tg_dir::DirectoryOp;
use tg_model::Command;

/// A command over objects of any kind.
pub type AnyCommand = Command<AnyOp, AnyAsk>;

// The op that these words are.
fn any_op(alloc: Global, words: &[&str]) -> Result<Option<AnyOp>, NoMemory>
    ensures { IfOk result (λ x. x ≡ op_read (texts words.now)) }
{
    op_of(alloc, words)
}

// The ask that these words are.
fn any_ask(alloc: Global, words: &[&str]) -> Result<Option<AnyAsk>, NoMemory>
    ensures { IfOk result (λ x. x ≡ ask_read (texts words.now)) }
{
    ask_of(alloc, words)
}

// Whether a user may put the op: marks are given by `forget` alone.
fn is_put(op: &AnyOp) -> bool
    ensures { result ≡ is_put op.now }
{
    match op {
        AnyOp::Directory(DirectoryOp::Mark { .. }) => false,
        AnyOp::Directory(DirectoryOp::Name { .. }) => true,
        AnyOp::Counter(_) => true,
        AnyOp::Register(_) => true,
        AnyOp::Map(_) => true,
        AnyOp::List(_) => true,
        AnyOp::Tree(_) => true,
        AnyOp::Set(_) => true,
    }
}

// The op that these words are, if a user may put it.
fn put_op(alloc: Global, words: &[&str]) -> Result<Option<AnyOp>, NoMemory>
    ensures { IfOk result (λ x. x ≡ put_read (texts words.now)) }
{
    let Some(op) = any_op(alloc, words)? else {
        return Ok(None);
    };
    if is_put(&op) { Ok(Some(op)) } else { Ok(None) }
}

/// An object and an op that a user may put on it.
pub fn object_op(alloc: Global, words: &[&str]) -> Result<Option<(Oid, AnyOp)>, NoMemory>
    ensures { IfOk result (λ p. p ≡ (first object put_op).read (texts words.now)) }
{
    let [word, rest @ ..] = words else {
        return Ok(None);
    };
    let Some(oid) = object(word.as_bytes()) else {
        return Ok(None);
    };
    let Some(op) = put_op(alloc, rest)? else {
        return Ok(None);
    };
    Ok(Some((oid, op)))
}

// An object and what it is asked.
fn object_ask(alloc: Global, words: &[&str]) -> Result<Option<(Oid, AnyAsk)>, NoMemory>
    ensures { IfOk result (λ p. p ≡ (first object any_ask).read (texts words.now)) }
{
    let [word, rest @ ..] = words else {
        return Ok(None);
    };
    let Some(oid) = object(word.as_bytes()) else {
        return Ok(None);
    };
    let Some(ask) = any_ask(alloc, rest)? else {
        return Ok(None);
    };
    Ok(Some((oid, ask)))
}

// A position from 1.
fn mark(words: &[&str]) -> Option<Pos>
    ensures { result ≡ one_read mark (texts words.now) }
{
    let [word] = words else {
        return None;
    };
    let n = number(word.as_bytes())?;
    if 1 <= n { Some(n) } else { None }
}

// An object and a mark that it may get.
fn object_mark(words: &[&str]) -> Option<(Oid, Pos)>
    ensures { result ≡ (two object mark).read (texts words.now) }
{
    let [word, rest @ ..] = words else {
        return None;
    };
    let oid = object(word.as_bytes())?;
    let mark = mark(rest)?;
    Some((oid, mark))
}

// `begin`, `put`, `ask`, `end` and `drop`.
fn transaction(alloc: Global, verb: &str, fields: &[&str]) -> Result<Option<AnyCommand>, NoMemory>
    ensures { IfOk result (λ x. x ≡ transaction_read verb.now (texts fields.now)) }
{
    match verb {
        "begin" => Ok(nothing(fields).map(|()| Command::Begin)),
        "put" => {
            let Some((oid, op)) = object_op(alloc, fields)? else {
                return Ok(None);
            };
            Ok(Some(Command::Put { oid, op }))
        }
        "ask" => {
            let Some((oid, ask)) = object_ask(alloc, fields)? else {
                return Ok(None);
            };
            Ok(Some(Command::Ask { oid, ask }))
        }
        "end" => Ok(nothing(fields).map(|()| Command::End)),
        "drop" => Ok(nothing(fields).map(|()| Command::Drop)),
        _ => Ok(None),
    }
}

// `fate`, `decide` and `rescue`.
fn of_record(alloc: Global, verb: &str, fields: &[&str]) -> Result<Option<AnyCommand>, NoMemory>
    ensures { IfOk result (λ x. x ≡ record_read verb.now (texts fields.now)) }
{
    match verb {
        "fate" => {
            let Some(at) = one(alloc, fields)? else {
                return Ok(None);
            };
            Ok(Some(Command::Fate { at }))
        }
        "decide" => {
            let Some(at) = one(alloc, fields)? else {
                return Ok(None);
            };
            Ok(Some(Command::Decide { at }))
        }
        "rescue" => {
            let Some(at) = one(alloc, fields)? else {
                return Ok(None);
            };
            Ok(Some(Command::Rescue { at }))
        }
        _ => Ok(None),
    }
}

// A position, an object and what it is asked.
fn position_ask(alloc: Global, words: &[&str]) -> Result<Option<(Pos, (Oid, AnyAsk))>, NoMemory>
    ensures { IfOk result (λ p. p ≡ (first number (first object any_ask)).read (texts words.now)) }
{
    let [word, rest @ ..] = words else {
        return Ok(None);
    };
    let Some(at) = number(word.as_bytes()) else {
        return Ok(None);
    };
    let Some(asked) = object_ask(alloc, rest)? else {
        return Ok(None);
    };
    Ok(Some((at, asked)))
}

// `host`, `checkpoint`, `forget` and `ask-at`.
fn of_object(alloc: Global, verb: &str, fields: &[&str]) -> Result<Option<AnyCommand>, NoMemory>
    ensures { IfOk result (λ x. x ≡ object_read verb.now (texts fields.now)) }
{
    match verb {
        "host" => {
            let Some(oid) = one(alloc, fields)? else {
                return Ok(None);
            };
            Ok(Some(Command::Host { oid }))
        }
        "checkpoint" => {
            let Some(oid) = one(alloc, fields)? else {
                return Ok(None);
            };
            Ok(Some(Command::Checkpoint { oid }))
        }
        "forget" => Ok(object_mark(fields).map(|(oid, mark)| Command::Forget { oid, mark })),
        "ask-at" => {
            let Some((at, (oid, ask))) = position_ask(alloc, fields)? else {
                return Ok(None);
            };
            Ok(Some(Command::AskAt { at, oid, ask }))
        }
        _ => Ok(None),
    }
}

// `trim`, `reconf` and `copy`.
fn of_layout(
    alloc: Global,
    cluster: &Cluster,
    verb: &str,
    fields: &[&str],
) -> Result<Option<AnyCommand>, NoMemory>
    ensures { IfOk result (λ x. x ≡ layout_read cluster.now verb.now (texts fields.now)) }
{
    match verb {
        "trim" => Ok(nothing(fields).map(|()| Command::Trim)),
        "reconf" => {
            let Some(change) = change(alloc, cluster, fields)? else {
                return Ok(None);
            };
            Ok(Some(Command::Reconf { change }))
        }
        "copy" => {
            let Some(place) = place(alloc, cluster, fields)? else {
                return Ok(None);
            };
            Ok(Some(Command::Copy {
                unit: place.unit,
                range: place.range,
                stripe: place.stripe,
            }))
        }
        _ => Ok(None),
    }
}

/// The command that has these words, None where none has. An `Err` is want of memory.
#[tactic(auto, unfolding(crate::specs::Commands::command_read))]
pub fn command(
    alloc: Global,
    cluster: &Cluster,
    words: &[&str],
) -> Result<Option<AnyCommand>, NoMemory>
    ensures { IfOk result (λ x. x ≡ command_read cluster.now (texts words.now)) }
{
    let [verb, fields @ ..] = words else {
        return Ok(None);
    };
    if let Some(command) = transaction(alloc, verb, fields)? {
        return Ok(Some(command));
    }
    if let Some(command) = of_record(alloc, verb, fields)? {
        return Ok(Some(command));
    }
    if let Some(command) = of_object(alloc, verb, fields)? {
        return Ok(Some(command));
    }
    of_layout(alloc, cluster, verb, fields)
}
