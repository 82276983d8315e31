//! Rows, which are lines: a word that names a call, and what the call is given. What it gives is printed as a line.
//! An empty row and one that begins with `#` are printed as they are.

use crate::bytes::{Coding, put_again, put_fronts, put_tops};
use crate::fault::Fault;
use crate::hex::bytes_of;
use crate::objects::{put_answer, put_ask, put_asked, put_op, put_op_in, put_played, put_state};
use crate::reading::read_all;
use crate::units::put_said;
use crate::words::{
    Fails, Size, put_form, put_header, put_line, put_load, put_transcript, put_verdict,
};
use std::alloc::Global;
use std::str;
use tg_any::{number, object};
use tg_base::{List, NoMemory};
use tg_io::{IoErr, Sink, Source, write_all};

/// What is printed where a row is none.
const NO_ROW: &[u8] = b"no row";

/// Reads rows from the source, and writes to the sink what is printed of them.
pub fn print_answers<S: Source, K: Sink>(
    alloc: Global,
    source: &mut S,
    sink: &mut K,
) -> Result<(), Fault> {
    let text = match read_all(alloc, source) {
        Ok(text) => text,
        Err(IoErr::Failed) => return Err(Fault::Read),
        Err(IoErr::NoMemory) => return Err(Fault::NoMemory),
    };
    let out = answers(alloc, text.as_slice())?;
    match write_all(sink, out.as_slice()) {
        Ok(()) => Ok(()),
        Err(IoErr::Failed) => Err(Fault::Write),
        Err(IoErr::NoMemory) => Err(Fault::NoMemory),
    }
}

fn answers(alloc: Global, text: &[u8]) -> Result<List<u8>, NoMemory> {
    let mut out = List::new(alloc);
    match str::from_utf8(text) {
        Ok(text) => put_rows(alloc, text, &mut out)?,
        Err(_) => out.extend(NO_ROW)?,
    }
    Ok(out)
}

fn put_rows(alloc: Global, text: &str, out: &mut List<u8>) -> Result<(), NoMemory> {
    let text = text.strip_suffix('\n').unwrap_or(text);
    for row in text.split('\n') {
        put_row(alloc, row, out)?;
        out.push(b'\n')?;
    }
    Ok(())
}

fn put_row(alloc: Global, row: &str, out: &mut List<u8>) -> Result<(), NoMemory> {
    if row.is_empty() || row.starts_with('#') {
        return out.extend(row.as_bytes());
    }
    match row.split_once(' ') {
        Some((word, given)) => put_call(alloc, word, given, out),
        None => put_call(alloc, row, "", out),
    }
}

fn put_call(alloc: Global, word: &str, given: &str, out: &mut List<u8>) -> Result<(), NoMemory> {
    match word {
        "header" => put_header(alloc, given, out),
        "line" => put_line(alloc, Size::Largest, given.as_bytes(), out),
        "narrow" => put_line(alloc, Size::Smallest, given.as_bytes(), out),
        "transcript" => put_transcript(alloc, given, out),
        "audit" => put_verdict(alloc, Fails::Nothing, given, out),
        "audit-read" => put_verdict(alloc, Fails::Read, given, out),
        "audit-write" => put_verdict(alloc, Fails::Write, given, out),
        "state" => put_object_row(alloc, given, out),
        "no-words" => put_form(alloc, &[], out),
        "op" | "ask" | "answer" | "form" | "load" | "play" | "asked" | "unit" => {
            put_call_of_words(alloc, word, given, out)
        }
        _ => put_call_of_bytes(alloc, word, given, out),
    }
}

fn put_call_of_bytes(
    alloc: Global,
    word: &str,
    given: &str,
    out: &mut List<u8>,
) -> Result<(), NoMemory> {
    let Some(bytes) = bytes_of(alloc, given)? else {
        return out.extend(NO_ROW);
    };
    let bytes = bytes.as_slice();
    match word {
        "entry" => put_again(alloc, Coding::Entry, bytes, out),
        "packet" => put_again(alloc, Coding::Packet, bytes, out),
        "entry-fronts" => put_fronts(alloc, Coding::Entry, bytes, out),
        "packet-fronts" => put_fronts(alloc, Coding::Packet, bytes, out),
        "entry-tops" => put_tops(alloc, Coding::Entry, bytes, out),
        "packet-tops" => put_tops(alloc, Coding::Packet, bytes, out),
        "op-in" => put_op_in(alloc, bytes, out),
        "line-in" => put_line(alloc, Size::Largest, bytes, out),
        _ => out.extend(NO_ROW),
    }
}

// A state's object, and its bytes.
fn put_object_row(alloc: Global, given: &str, out: &mut List<u8>) -> Result<(), NoMemory> {
    let (name, given) = match given.split_once(' ') {
        Some((name, given)) => (name, given),
        None => (given, ""),
    };
    let Some(oid) = object(name.as_bytes()) else {
        return out.extend(NO_ROW);
    };
    match bytes_of(alloc, given)? {
        Some(bytes) => put_state(alloc, oid, bytes.as_slice(), out),
        None => out.extend(NO_ROW),
    }
}

fn put_call_of_words(
    alloc: Global,
    word: &str,
    given: &str,
    out: &mut List<u8>,
) -> Result<(), NoMemory> {
    let words: Vec<&str> = given.split(' ').collect(alloc)?;
    let words = words.as_slice();
    match word {
        "op" => put_op(alloc, words, out),
        "ask" => put_ask(alloc, words, out),
        "form" => put_form(alloc, words, out),
        "load" => put_load_row(alloc, words, out),
        _ => put_call_of_groups(alloc, word, words, out),
    }
}

fn put_load_row(alloc: Global, words: &[&str], out: &mut List<u8>) -> Result<(), NoMemory> {
    match words {
        [start, count] => match (number(start.as_bytes()), number(count.as_bytes())) {
            (Some(start), Some(count)) => put_load(alloc, start, count.min(9) as u32, out),
            _ => out.extend(NO_ROW),
        },
        _ => out.extend(NO_ROW),
    }
}

// Words with a semicolon between any two groups: an ask and its answer, or an object, an ask of it, and ops.
fn put_call_of_groups(
    alloc: Global,
    word: &str,
    words: &[&str],
    out: &mut List<u8>,
) -> Result<(), NoMemory> {
    let groups: Vec<&[&str]> = words.split(|word| *word == ";").collect(alloc)?;
    match groups.as_slice() {
        requests if word == "unit" => put_said(alloc, requests, out),
        [ask, answer] if word == "answer" => put_answer(alloc, ask, answer, out),
        [[name], ops @ ..] if word == "play" => match object(name.as_bytes()) {
            Some(oid) => put_played(alloc, oid, ops, out),
            None => out.extend(NO_ROW),
        },
        [[name, ask @ ..], ops @ ..] if word == "asked" => put_asked_row(
            alloc, name, ask, ops, out,
        ),
        _ => out.extend(NO_ROW),
    }
}

fn put_asked_row(
    alloc: Global,
    name: &str,
    ask: &[&str],
    ops: &[&[&str]],
    out: &mut List<u8>,
) -> Result<(), NoMemory> {
    match object(name.as_bytes()) {
        Some(oid) => put_asked(alloc, oid, ask, ops, out),
        None => out.extend(NO_ROW),
    }
}
