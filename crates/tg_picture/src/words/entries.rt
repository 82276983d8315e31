//! The words of entries.

use std::alloc::Global;
use tg_any::{AnyKind, put_number, put_object, spell_op};
use tg_base::{List, NoMemory, ReadMark};
use tg_entry::{Body, Entry, WriteOp};
use tg_play::op_of;

/// Puts who wrote an entry, and the entry's number.
pub fn put_author(entry: &Entry, out: &mut List<u8>) -> Result<(), NoMemory> {
    out.push(b'c')?;
    put_number(entry.head.client, out)?;
    out.extend(match &entry.body {
        Body::Commit { .. } => b" record ",
        Body::Decision { .. } => b" decision ",
        Body::Checkpoint { .. } => b" checkpoint ",
    })?;
    put_number(entry.head.number, out)
}

/// Puts what an entry says.
pub fn put_entry(alloc: Global, entry: &Entry, out: &mut List<u8>) -> Result<(), NoMemory> {
    match &entry.body {
        Body::Commit { reads, writes } => {
            put_writes(alloc, writes.as_slice(), out)?;
            put_reads(reads.as_slice(), out)
        }
        Body::Decision { at, yes } => {
            put_number(*at, out)?;
            out.extend(if *yes { b" committed" } else { b" aborted" })
        }
        Body::Checkpoint { oid, upto, .. } => {
            put_object(*oid, out)?;
            out.extend(b" below ")?;
            put_number(*upto, out)
        }
    }
}

// Puts writes, with a semicolon between any two.
fn put_writes(alloc: Global, writes: &[WriteOp], out: &mut List<u8>) -> Result<(), NoMemory> {
    let mut first = true;
    for write in writes {
        if !first {
            out.extend(b"; ")?;
        }
        first = false;
        put_object(write.oid, out)?;
        out.push(b' ')?;
        put_op(alloc, write, out)?;
    }
    Ok(())
}

fn put_op(alloc: Global, write: &WriteOp, out: &mut List<u8>) -> Result<(), NoMemory> {
    match op_of::<AnyKind>(alloc, write)? {
        Some(op) => spell_op(alloc, &op, out),
        None => out.extend(b"no op"),
    }
}

fn put_reads(reads: &[ReadMark], out: &mut List<u8>) -> Result<(), NoMemory> {
    for read in reads {
        out.extend(b"; read ")?;
        put_object(read.oid, out)?;
        out.extend(b" at version ")?;
        put_number(read.version, out)?;
    }
    Ok(())
}
