//! Rows of objects: states and ops as bytes, and ops, asks and answers as words.

use crate::bytes::put_place;
use crate::hex::put_bytes;
use std::alloc::Global;
use tg_any::{
    AnyAns, AnyKind, AnyOp, ans_of, ask_of, op_of, put_number, spell_ans, spell_ask, spell_op,
};
use tg_base::{List, NoMemory, Oid};
use tg_kind::{Kind, KindFault};

/// The objects of the header, beside the directory: ctr0 and map3.
const OBJECTS: [Oid; 2] = [Oid(0x0100_0000), Oid(0x0300_0003)];

const NONE: &[u8] = b"none";

/// Puts what a copy of the state that bytes spell is saved as, or the place where they spell none.
pub fn put_state(
    alloc: Global,
    oid: Oid,
    bytes: &[u8],
    out: &mut List<u8>,
) -> Result<(), NoMemory> {
    match AnyKind::load(alloc, oid, bytes) {
        Ok(state) => put_saved(alloc, &state, out),
        Err(KindFault::BadBytes { at }) => put_place(at, out),
        Err(KindFault::NoMemory) => Err(NoMemory),
    }
}

fn put_saved(alloc: Global, state: &AnyKind, out: &mut List<u8>) -> Result<(), NoMemory> {
    let copy = state.copy()?;
    let saved = copy.save(alloc)?;
    put_bytes(alloc, saved.as_slice(), out)
}

/// Puts how many of the bytes spell an op, and its words, or the place where they spell none.
pub fn put_op_in(alloc: Global, bytes: &[u8], out: &mut List<u8>) -> Result<(), NoMemory> {
    match AnyKind::get_op(alloc, bytes) {
        Ok((op, len)) => {
            put_number(len, out)?;
            out.push(b' ')?;
            spell_op(alloc, &op, out)
        }
        Err(KindFault::BadBytes { at }) => put_place(at, out),
        Err(KindFault::NoMemory) => Err(NoMemory),
    }
}

/// Puts the op that words are, and the bytes of a copy.
pub fn put_op(alloc: Global, words: &[&str], out: &mut List<u8>) -> Result<(), NoMemory> {
    match op_of(alloc, words)? {
        Some(op) => put_spelled(alloc, &op, out),
        None => out.extend(NONE),
    }
}

fn put_spelled(alloc: Global, op: &AnyOp, out: &mut List<u8>) -> Result<(), NoMemory> {
    spell_op(alloc, op, out)?;
    out.extend(b" = ")?;
    let copy = AnyKind::copy_op(op)?;
    let mut bytes = List::new(alloc);
    AnyKind::put_op(alloc, &copy, &mut bytes)?;
    put_bytes(alloc, bytes.as_slice(), out)
}

/// Puts the ask that words are.
pub fn put_ask(alloc: Global, words: &[&str], out: &mut List<u8>) -> Result<(), NoMemory> {
    match ask_of(alloc, words)? {
        Some(ask) => spell_ask(alloc, &ask, out),
        None => out.extend(NONE),
    }
}

/// Puts the answer that words are, to the ask that other words are.
pub fn put_answer(
    alloc: Global,
    ask: &[&str],
    words: &[&str],
    out: &mut List<u8>,
) -> Result<(), NoMemory> {
    match answer_in(alloc, ask, words)? {
        Some(answer) => spell_ans(alloc, &answer, out),
        None => out.extend(NONE),
    }
}

fn answer_in(alloc: Global, ask: &[&str], words: &[&str]) -> Result<Option<AnyAns>, NoMemory> {
    match ask_of(alloc, ask)? {
        Some(ask) => ans_of(alloc, &ask, words),
        None => Ok(None),
    }
}

/// Puts what an object is saved as, that was new before these ops.
pub fn put_played(
    alloc: Global,
    oid: Oid,
    ops: &[&[&str]],
    out: &mut List<u8>,
) -> Result<(), NoMemory> {
    match played(alloc, oid, ops)? {
        Some(state) => put_saved(alloc, &state, out),
        None => out.extend(NONE),
    }
}

/// Puts what an object answers, that was new before these ops, and was then saved and loaded.
pub fn put_asked(
    alloc: Global,
    oid: Oid,
    ask: &[&str],
    ops: &[&[&str]],
    out: &mut List<u8>,
) -> Result<(), NoMemory> {
    match played(alloc, oid, ops)? {
        Some(state) => put_loaded(alloc, oid, &state, ask, out),
        None => out.extend(NONE),
    }
}

fn put_loaded(
    alloc: Global,
    oid: Oid,
    state: &AnyKind,
    ask: &[&str],
    out: &mut List<u8>,
) -> Result<(), NoMemory> {
    let saved = state.save(alloc)?;
    match AnyKind::load(alloc, oid, saved.as_slice()) {
        Ok(loaded) => put_answered(alloc, &loaded, ask, out),
        Err(KindFault::BadBytes { at }) => put_place(at, out),
        Err(KindFault::NoMemory) => Err(NoMemory),
    }
}

fn put_answered(
    alloc: Global,
    state: &AnyKind,
    ask: &[&str],
    out: &mut List<u8>,
) -> Result<(), NoMemory> {
    match ask_of(alloc, ask)? {
        Some(ask) => {
            let copy = AnyKind::copy_ask(&ask)?;
            let answer = state.ask(alloc, &copy)?;
            spell_ans(alloc, &answer, out)
        }
        None => out.extend(NONE),
    }
}

fn played(alloc: Global, oid: Oid, ops: &[&[&str]]) -> Result<Option<AnyKind>, NoMemory> {
    let mut state = AnyKind::fresh(alloc, oid, &OBJECTS)?;
    for words in ops {
        match op_of(alloc, words)? {
            Some(op) => state = state.apply(&op)?,
            None => return Ok(None),
        }
    }
    Ok(Some(state))
}
