//! The lines of a transcript, as they are read.

ghost use Rattle.std.specs.Prelude.{◌≡◌, map, codes, IfOk};
ghost use Rattle.tg_any.specs.Words.{texts, object};
ghost use Rattle.tg_trace.specs.Lines.{each};
ghost use Rattle.tg_trace.specs.Transcripts.{objects, reply, write, writes, entry, count};

use crate::cut::by_semicolons;
use crate::fields::{first, named, node, write};
use crate::replies::what;
use crate::transcript::{AnyDone, AnyMark};
use std::alloc::Global;
use tg_any::{AnyOp, are_objects, object, one};
use tg_base::{List, NoMemory, Oid};
use tg_model::{Done, Mark};

// The object of each word.
fn each_object(alloc: Global, words: &[&str]) -> Result<Option<List<Oid>>, NoMemory>
    ensures { IfOk result (λ x. x ≡ each object.read (texts words.now)) }
{
    let mut objects = List::new(alloc);
    for word in words {
        let Some(oid) = object(word.as_bytes()) else {
            return Ok(None);
        };
        objects.push(oid)?;
    }
    Ok(Some(objects))
}

/// The objects of a header, by the words of their line.
pub fn objects(alloc: Global, words: &[&str]) -> Result<Option<List<Oid>>, NoMemory>
    ensures { IfOk result (λ x. x ≡ objects.read (texts words.now)) }
{
    let Some(rest) = named("objects", words) else {
        return Ok(None);
    };
    let Some(objects) = each_object(alloc, rest)? else {
        return Ok(None);
    };
    if are_objects(objects.as_slice()) {
        Ok(Some(objects))
    } else {
        Ok(None)
    }
}

/// A reply, by the words of its line.
pub fn reply(alloc: Global, words: &[&str]) -> Result<Option<AnyMark>, NoMemory>
    ensures { IfOk result (λ x. x ≡ reply.read (texts words.now)) }
{
    let Some((event, rest)) = first(alloc, words)? else {
        return Ok(None);
    };
    let Some((client, rest)) = node(b"c", rest) else {
        return Ok(None);
    };
    let Some((tx, rest)) = first(alloc, rest)? else {
        return Ok(None);
    };
    let Some(what) = what(alloc, rest)? else {
        return Ok(None);
    };
    Ok(Some(Mark {
        event,
        client,
        tx,
        what,
    }))
}

/// How many transactions the history has, by the words of its line.
pub fn count(alloc: Global, words: &[&str]) -> Result<Option<u64>, NoMemory>
    ensures { IfOk result (λ x. x ≡ count.read (texts words.now)) }
{
    let Some(rest) = named("history", words) else {
        return Ok(None);
    };
    one(alloc, rest)
}

// One or more writes with semicolons between them.
fn writes(alloc: Global, words: &[&str]) -> Result<Option<List<(Oid, AnyOp)>>, NoMemory>
    ensures { IfOk result (λ x. x ≡ writes.read (texts words.now)) }
{
    let parts = by_semicolons(alloc, words)?;
    each_write(alloc, parts.as_slice())
}

fn each_write(alloc: Global, parts: &[&[&str]]) -> Result<Option<List<(Oid, AnyOp)>>, NoMemory>
    ensures { IfOk result (λ x. x ≡ each write.read (map (λ part. texts part.now) parts.now)) }
{
    let mut writes = List::new(alloc);
    for part in parts {
        let Some(write) = write(alloc, part)? else {
            return Ok(None);
        };
        writes.push(write)?;
    }
    Ok(Some(writes))
}

/// A committed transaction, by the words of its line.
pub fn entry(alloc: Global, words: &[&str]) -> Result<Option<AnyDone>, NoMemory>
    ensures { IfOk result (λ x. x ≡ entry.read (texts words.now)) }
{
    let Some((stamp, rest)) = first(alloc, words)? else {
        return Ok(None);
    };
    let Some((client, rest)) = node(b"c", rest) else {
        return Ok(None);
    };
    let Some((number, rest)) = first(alloc, rest)? else {
        return Ok(None);
    };
    let Some(writes) = writes(alloc, rest)? else {
        return Ok(None);
    };
    Ok(Some(Done {
        stamp,
        client,
        number,
        writes,
    }))
}
