//! Texts that are cut into lines, and lines into words.

ghost use Rattle.std.specs.Prelude.{◌≡◌, ◌==◌, IfOk, IfSome, IfNone, map, codes, take, drop};
ghost use Rattle.std.specs.List.{slice_split};
ghost use Rattle.std.specs.Str.{IsAscii, bytes_eq};
ghost use Rattle.tg_any.specs.Words.{texts};
ghost use Rattle.tg_trace.specs.Lines.{words_of};
ghost use Rattle.tg_trace.specs.Reading.{pieces};

use std::alloc::Global;
use std::str;
use tg_base::NoMemory;

/// The bytes as text, which they are if they are ASCII. It takes no memory.
pub fn text_of(line: &[u8]) -> Option<&str>
    ensures found { IfSome result (λ text. text.now ≡ line.now) }
    ensures none { IfNone result (¬ (IsAscii line.now)) }
{
    str::from_utf8(line).ok()
}

/// The pieces of a text between its line feeds.
pub fn pieces(alloc: Global, text: &[u8]) -> Result<Vec<&[u8]>, NoMemory>
    ensures { IfOk result (λ ps. texts ps.items ≡ pieces text.now) }
{
    let pieces: Vec<&[u8]> = text.split(|byte| *byte == b'\n').collect(alloc)?;
    Ok(pieces)
}

/// The words of a line.
pub fn words(alloc: Global, line: &str) -> Result<Vec<&str>, NoMemory>
    ensures { IfOk result (λ ws. texts ws.items ≡ words_of line.now) }
{
    let words: Vec<&str> = line.split(' ').collect(alloc)?;
    Ok(words)
}

/// The words between semicolons.
pub fn by_semicolons<'a, 'b>(
    alloc: Global,
    words: &'b [&'a str],
) -> Result<Vec<&'b [&'a str]>, NoMemory>
    ensures { IfOk result (λ ws. map (λ part. texts part.now) ws.items ≡ slice_split (bytes_eq (codes ";")) (texts words.now)) }
{
    let parts: Vec<&'b [&'a str]> = words.split(|word| *word == ";").collect(alloc)?;
    Ok(parts)
}

/// The first words, as many as there are up to a count, and the others. It takes no memory.
pub fn cut_at<'a, 'b>(count: usize, words: &'b [&'a str]) -> (&'b [&'a str], &'b [&'a str])
    ensures front { texts result.0.now ≡ take count (texts words.now) }
    ensures rest { texts result.1.now ≡ drop count (texts words.now) }
{
    words.split_at(count.min(words.len()))
}
