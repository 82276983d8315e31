//! Printing transcripts.

ghost use Rattle.std.specs.Prelude.{◌≡◌, ◌++◌, ◌∷◌, [], IfOk, OnOk, OnErr};
ghost use Rattle.std.specs.List.{flat_map};
ghost use Rattle.tg_any.specs.Words.{index};
ghost use Rattle.tg_trace.specs.Lines.{spaced, spaced_object};
ghost use Rattle.tg_trace.specs.Fields.{client};
ghost use Rattle.tg_trace.specs.Transcripts.{objects, reply_text, entry_text, line_by, count, writes, rendered};

use crate::put::{put_field, put_lettered, put_word};
use crate::put_reply::{put_what, put_write};
use crate::transcript::{AnyDone, AnyMark};
use std::alloc::Global;
use tg_any::{AnyOp, put_number};
use tg_base::{List, NoMemory, Oid};

/// The text of a transcript: the line of the objects, one for each reply, one that counts the history, and
/// one for each of its transactions. An `Err` is want of memory.
#[tactic(auto, unfolding(crate::specs::Transcripts::rendered))]
pub fn render(
    alloc: Global,
    objects: &[Oid],
    trace: &[AnyMark],
    history: &[AnyDone],
) -> Result<List<u8>, NoMemory>
    ensures { IfOk result (λ text. text ≡ rendered (record { objects = objects.now; trace = trace.now; history = history.now })) }
{
    let mut text = List::new(alloc);
    put_objects(objects, &mut text)?;
    put_trace(alloc, trace, &mut text)?;
    put_count(history.len(), &mut text)?;
    put_history(alloc, history, &mut text)?;
    Ok(text)
}

/// Puts the line of one reply last, as [`render`] writes it. An `Err` is want of memory, and changes
/// nothing.
pub fn print_mark(alloc: Global, mark: &AnyMark, out: &mut List<u8>) -> Result<(), NoMemory>
    ensures ok { OnOk result (out.new ≡ out.old ++ reply_text mark.now) }
    ensures err { OnErr result (out.new ≡ out.old) }
{
    let mut line = List::new(alloc);
    put_reply(alloc, mark, &mut line)?;
    out.extend(line.as_slice())
}

// Puts the line of the objects.
fn put_objects(oids: &[Oid], out: &mut List<u8>) -> Result<(), NoMemory>
    ensures { OnOk result (out.new ≡ out.old ++ (line_by objects oids.now ++ 10 ∷ [])) }
{
    out.extend(b"objects")?;
    put_oids(oids, out)?;
    out.push(b'\n')?;
    Ok(())
}

// Puts objects.
fn put_oids(oids: &[Oid], out: &mut List<u8>) -> Result<(), NoMemory>
    ensures { OnOk result (out.new ≡ out.old ++ flat_map spaced_object oids.now) }
{
    for oid in oids {
        put_field(oid, out)?;
    }
    Ok(())
}

// Puts a client, and the number of its transaction.
fn put_source(by: u16, tx: u32, out: &mut List<u8>) -> Result<(), NoMemory>
    ensures { OnOk result (out.new ≡ out.old ++ spaced (client.spell by ∷ index.spell tx ∷ [])) }
{
    put_lettered(b"c", by, out)?;
    put_field(&tx, out)
}

// Puts the line of a reply.
#[tactic(auto, unfolding(crate::specs::Transcripts::reply_text))]
fn put_reply(alloc: Global, mark: &AnyMark, out: &mut List<u8>) -> Result<(), NoMemory>
    ensures { OnOk result (out.new ≡ out.old ++ reply_text mark.now) }
{
    put_number(mark.event, out)?;
    put_source(mark.client, mark.tx, out)?;
    put_what(alloc, &mark.what, out)?;
    out.push(b'\n')
}

// Puts the lines of replies.
fn put_trace(alloc: Global, trace: &[AnyMark], out: &mut List<u8>) -> Result<(), NoMemory>
    ensures { OnOk result (out.new ≡ out.old ++ flat_map reply_text trace.now) }
{
    for mark in trace {
        put_reply(alloc, mark, out)?;
    }
    Ok(())
}

// Puts the line that counts the history.
fn put_count(size: usize, out: &mut List<u8>) -> Result<(), NoMemory>
    ensures { OnOk result (out.new ≡ out.old ++ (line_by count size ++ 10 ∷ [])) }
{
    out.extend(b"history ")?;
    put_number(size, out)?;
    out.push(b'\n')
}

// Puts writes, with a semicolon between any two.
fn put_writes(alloc: Global, all: &[(Oid, AnyOp)], out: &mut List<u8>) -> Result<(), NoMemory>
    ensures { OnOk result (out.new ≡ out.old ++ spaced (writes.spell all.now)) }
{
    match all {
        [] => Ok(()),
        [first, rest @ ..] => put_some(alloc, first, rest, out),
    }
}

// Puts one or more writes.
fn put_some(
    alloc: Global,
    first: &(Oid, AnyOp),
    rest: &[(Oid, AnyOp)],
    out: &mut List<u8>,
) -> Result<(), NoMemory>
    ensures { OnOk result (out.new ≡ out.old ++ spaced (writes.spell (first.now ∷ rest.now))) }
{
    put_write(alloc, first.0, &first.1, out)?;
    for (oid, op) in rest {
        put_word(b";", out)?;
        put_write(alloc, *oid, op, out)?;
    }
    Ok(())
}

// Puts the line of a transaction.
#[tactic(auto, unfolding(crate::specs::Transcripts::entry_text))]
fn put_entry(alloc: Global, done: &AnyDone, out: &mut List<u8>) -> Result<(), NoMemory>
    ensures { OnOk result (out.new ≡ out.old ++ entry_text done.now) }
{
    put_number(done.stamp, out)?;
    put_source(done.client, done.number, out)?;
    put_writes(alloc, done.writes.as_slice(), out)?;
    out.push(b'\n')
}

// Puts the lines of transactions.
fn put_history(alloc: Global, history: &[AnyDone], out: &mut List<u8>) -> Result<(), NoMemory>
    ensures { OnOk result (out.new ≡ out.old ++ flat_map entry_text history.now) }
{
    for done in history {
        put_entry(alloc, done, out)?;
    }
    Ok(())
}
