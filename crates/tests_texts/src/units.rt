//! Rows of requests to a new unit, and what it says to each.

use std::alloc::Global;
use tg_any::{number, put_number};
use tg_base::{Blob, Cell, Epoch, List, Msg, NoMemory};
use tg_unit::Unit;

/// Puts what a new unit says to these requests, or has where words ask for that, each with a semicolon.
pub fn put_said(alloc: Global, requests: &[&[&str]], out: &mut List<u8>) -> Result<(), NoMemory> {
    let mut unit = Unit::new(alloc, 0);
    for words in requests {
        unit = after(alloc, unit, words, out)?;
        out.push(b';')?;
    }
    Ok(())
}

// The unit after a request, whose answer is put last.
fn after(alloc: Global, unit: Unit, words: &[&str], out: &mut List<u8>) -> Result<Unit, NoMemory> {
    match request_of(alloc, words)? {
        Some(message) => step(alloc, unit, &message, out),
        None => {
            put_had(&unit, words, out)?;
            Ok(unit)
        }
    }
}

fn step(alloc: Global, unit: Unit, message: &Msg, out: &mut List<u8>) -> Result<Unit, NoMemory> {
    let (unit, says) = unit.step(alloc, message)?;
    put_answer(&says, out)?;
    Ok(unit)
}

// A request: its epoch, its word and its numbers. A page has one byte.
fn request_of(alloc: Global, words: &[&str]) -> Result<Option<Msg>, NoMemory> {
    match words {
        [epoch, word, fields @ ..] => match number(epoch.as_bytes()) {
            Some(epoch) => {
                let numbers = numbers_of(alloc, fields)?;
                request(alloc, epoch, word, numbers.as_slice())
            }
            None => Ok(None),
        },
        _ => Ok(None),
    }
}

fn numbers_of(alloc: Global, words: &[&str]) -> Result<List<u64>, NoMemory> {
    let mut numbers = List::new(alloc);
    for word in words {
        if let Some(number) = number(word.as_bytes()) {
            numbers.push(number)?;
        }
    }
    Ok(numbers)
}

fn request(
    alloc: Global,
    epoch: Epoch,
    word: &str,
    numbers: &[u64],
) -> Result<Option<Msg>, NoMemory> {
    match numbers {
        [] => Ok(alone(epoch, word)),
        [pos] => Ok(at(epoch, word, *pos)),
        [pos, byte] => with_page(alloc, epoch, word, *pos, *byte),
        [lo, hi, step] if word == "has" => Ok(Some(Msg::Has {
            epoch,
            lo: *lo,
            hi: *hi,
            step: *step,
        })),
        _ => Ok(None),
    }
}

fn alone(epoch: Epoch, word: &str) -> Option<Msg> {
    match word {
        "seal" => Some(Msg::Seal { epoch }),
        "latest" => Some(Msg::AskLatest),
        _ => None,
    }
}

fn at(epoch: Epoch, word: &str, pos: u64) -> Option<Msg> {
    match word {
        "read" => Some(Msg::Read { epoch, pos }),
        "fill" => Some(Msg::Fill { epoch, pos }),
        "trim" => Some(Msg::Trim { epoch, below: pos }),
        "copy" => Some(Msg::Copy {
            epoch,
            pos,
            cell: Cell::Junk,
        }),
        _ => None,
    }
}

fn with_page(
    alloc: Global,
    epoch: Epoch,
    word: &str,
    pos: u64,
    byte: u64,
) -> Result<Option<Msg>, NoMemory> {
    let mut bytes = List::new(alloc);
    bytes.push(byte.min(255) as u8)?;
    let Some(page) = Blob::new(alloc, bytes)? else {
        return Ok(None);
    };
    match word {
        "write" => Ok(Some(Msg::Write { epoch, pos, page })),
        "copy" => Ok(Some(Msg::Copy {
            epoch,
            pos,
            cell: Cell::Data(page),
        })),
        _ => Ok(None),
    }
}

fn put_answer(says: &Option<Msg>, out: &mut List<u8>) -> Result<(), NoMemory> {
    match says {
        Some(Msg::Held) => out.extend(b"held"),
        Some(Msg::Taken { cell }) => put_cell(cell, out),
        Some(Msg::Unwritten) => out.extend(b"unwritten"),
        Some(Msg::Gone { below }) => put_told(b"gone", &[*below], out),
        Some(Msg::Fenced { epoch }) => put_told(b"fenced", &[*epoch], out),
        Some(Msg::Sealed { epoch, high }) => put_told(b"sealed", &[*epoch, *high], out),
        Some(Msg::Missing { pos }) => put_told(b"missing", &[*pos], out),
        Some(Msg::Whole) => out.extend(b"whole"),
        Some(_) => out.extend(b"another"),
        None => out.extend(b"nothing"),
    }
}

fn put_cell(cell: &Cell, out: &mut List<u8>) -> Result<(), NoMemory> {
    match cell {
        Cell::Junk => out.extend(b"taken junk"),
        Cell::Data(page) => {
            out.extend(b"taken")?;
            for byte in page.as_slice() {
                out.push(b' ')?;
                put_number(*byte, out)?;
            }
            Ok(())
        }
    }
}

fn put_told(word: &[u8], numbers: &[u64], out: &mut List<u8>) -> Result<(), NoMemory> {
    out.extend(word)?;
    for number in numbers {
        out.push(b' ')?;
        put_number(*number, out)?;
    }
    Ok(())
}

// What the unit has: its epoch, the position below which it is trimmed and the one above all pages, a segment's words
// and how many cells it has, or a cell.
fn put_had(unit: &Unit, words: &[&str], out: &mut List<u8>) -> Result<(), NoMemory> {
    match words {
        ["bounds"] => put_told(b"bounds", &[unit.epoch(), unit.low(), unit.high()], out),
        ["segment", num] => match number(num.as_bytes()) {
            Some(num) => put_segment(unit, num, out),
            None => out.extend(b"no row"),
        },
        ["peek", pos] => match number(pos.as_bytes()) {
            Some(pos) => put_peeked(unit, pos, out),
            None => out.extend(b"no row"),
        },
        _ => out.extend(b"no row"),
    }
}

fn put_segment(unit: &Unit, num: u64, out: &mut List<u8>) -> Result<(), NoMemory> {
    match unit.segment(num) {
        Some(segment) => {
            let cells = segment.cells.len() as u64;
            put_told(b"segment", &[segment.held, segment.junk, cells], out)
        }
        None => out.extend(b"none"),
    }
}

fn put_peeked(unit: &Unit, pos: u64, out: &mut List<u8>) -> Result<(), NoMemory> {
    match unit.peek(pos) {
        Some(cell) => put_cell(cell, out),
        None => out.extend(b"none"),
    }
}
