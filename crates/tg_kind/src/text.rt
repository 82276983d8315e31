//! Texts of objects.

ghost use Rattle.std.specs.Prelude.{◌≡◌, ◌≤◌, ◌++◌, length, IfOk, OnOk};
ghost use Rattle.std.specs.List.{list_all};
ghost use Rattle.tg_codec.specs.Reading.{Gives};
ghost use Rattle.tg_kind.specs.Texts.{text_format, text_of, is_letter, IsText};

use std::alloc::Global;
use std::marker::Model;
use tg_base::{List, NoMemory};
use tg_codec::{ReadFault, put_text, raw_in, u16_in};

/// From 1 to 4,096 of the letters, the digits, the underscore, the full stop and the hyphen.
#[derive(Drop)]
pub struct Text {
    text: String,
}

impl Model for Text {
    ghost use Rattle.std.specs.Prelude.{ℕ, List};
    ghost use Rattle.std.specs.Prelude.{string_bytes};
    ghost use Rattle.tg_kind.specs.Texts.{IsText};

    ghost Value = { List ℕ };

    ghost view = { λ t. string_bytes t.text };

    ghost invariant = { λ t. IsText (string_bytes t.text) };
}

// Whether a byte may stand in a text.
fn is_letter(byte: u8) -> bool
    ensures { result ≡ is_letter byte }
{
    matches!(byte, b'A'..=b'Z' | b'a'..=b'z' | b'0'..=b'9' | b'_' | b'.' | b'-')
}

// Whether each byte may stand in a text.
fn are_letters(bytes: &[u8]) -> bool
    ensures { result ≡ list_all is_letter bytes.now }
{
    bytes.iter().all(|byte| is_letter(*byte))
}

// Whether a word is a text.
fn is_text(word: &str) -> bool
    ensures { result ≡ text_format.fits word.now }
{
    let bytes = word.as_bytes();
    if bytes.is_empty() || bytes.len() > 4096 {
        return false;
    }
    are_letters(bytes)
}

impl Text {
    /// The text that a word is, None where the word is none. An `Err` is want of memory.
    pub fn of(alloc: Global, word: &str) -> Result<Option<Text>, NoMemory>
        ensures { IfOk result (λ t. t ≡ text_of word.now) }
    {
        if !is_text(word) {
            return Ok(None);
        }
        let text = String::from_str(alloc, word)?;
        Ok(Some(Text { text }))
    }

    /// The text.
    pub fn as_str(&self) -> &str
        ensures value { result.now ≡ self.now }
        ensures known { IsText self.now }
        ensures fits { length self.now ≤ 4096 }
    {
        self.text.as_str()
    }

    /// An equal text. An `Err` is want of memory.
    pub fn copy(&self) -> Result<Text, NoMemory>
        ensures { IfOk result (λ t. t ≡ self.now) }
    {
        Ok(Text {
            text: self.text.clone()?,
        })
    }
}

const RANGES: [(u64, u64); 6] = [(65, 90), (97, 122), (48, 57), (95, 95), (46, 46), (45, 45)];

/// A text behind its length in two bytes.
pub fn text_in(alloc: Global, bytes: &[u8]) -> Result<(Text, &[u8]), ReadFault>
    ensures { Gives (λ x. (x.0, x.1.now)) result (text_format.read bytes.now) }
{
    let (len, rest) = u16_in(&[(1, 4096)], bytes)?;
    let (text, rest) = raw_in(&RANGES, len as usize, rest)?;
    let text = str::from_utf8(text).unwrap();
    let text = String::from_str(alloc, text)?;
    Ok((Text { text }, rest))
}

/// Puts the bytes of a text last, behind their length in two bytes.
pub fn put_word(text: &Text, out: &mut List<u8>) -> Result<(), NoMemory>
    ensures { OnOk result (out.new ≡ out.old ++ text_format.spell text.now) }
{
    put_text(text.as_str().as_bytes(), out)
}
