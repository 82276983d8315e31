//! Texts that are cut into lines.

ghost use Rattle.std.specs.Prelude.{◌≡◌, ◌≤◌, length, take, drop, IfOk};
ghost use Rattle.tg_any.specs.Words.{texts};
ghost use Rattle.tests_texts.specs.Texts.{pieces, whole_lines};

use std::alloc::Global;
use tg_base::{List, NoMemory};

/// How many lines a header has.
const HEADER: usize = 3;

/// The pieces of a text between its line feeds.
pub fn pieces(alloc: Global, text: &[u8]) -> Result<Vec<&[u8]>, NoMemory>
    ensures { IfOk result (λ ps. texts ps.items ≡ pieces text.now) }
{
    let pieces: Vec<&[u8]> = text.split(|byte| *byte == b'\n').collect(alloc)?;
    Ok(pieces)
}

/// The lines that these pieces are: all, but for the empty one behind the last line feed.
pub fn whole_lines<'a, 'b>(pieces: &'b [&'a [u8]]) -> &'b [&'a [u8]]
    ensures { texts result.now ≡ whole_lines (texts pieces.now) }
{
    &pieces[..line_count(pieces)]
}

// How many of these pieces are lines.
fn line_count(pieces: &[&[u8]]) -> usize
    ensures few { result ≤ length pieces.now }
    ensures lines { texts (take result pieces.now) ≡ whole_lines (texts pieces.now) }
{
    let Some((last, lines)) = pieces.split_last() else {
        return 0;
    };
    if last.is_empty() {
        lines.len()
    } else {
        pieces.len()
    }
}

/// The first three lines, or as many as there are, and the others.
pub fn header_and_events<'a, 'b>(lines: &'b [&'a [u8]]) -> (&'b [&'a [u8]], &'b [&'a [u8]])
    ensures header { texts result.0.now ≡ take 3 (texts lines.now) }
    ensures few { length result.0.now ≤ 3 }
    ensures events { texts result.1.now ≡ drop 3 (texts lines.now) }
{
    lines.split_at(lines.len().min(HEADER))
}

/// Copies of lines.
pub fn copies(alloc: Global, lines: &[&[u8]]) -> Result<List<List<u8>>, NoMemory>
    ensures { IfOk result (λ ls. ls ≡ texts lines.now) }
{
    let mut copies = List::new(alloc);
    for line in lines {
        copies.push(copy(alloc, line)?)?;
    }
    Ok(copies)
}

// A copy of a line.
fn copy(alloc: Global, line: &[u8]) -> Result<List<u8>, NoMemory>
    ensures { IfOk result (λ l. l ≡ line.now) }
{
    let mut copy = List::new(alloc);
    copy.extend(line)?;
    Ok(copy)
}
