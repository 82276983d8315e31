//! Paths of trees.

ghost use Rattle.std.specs.Prelude.{◌≡◌, ◌≤◌, ◌++◌, length, IfOk, OnOk};
ghost use Rattle.tg_codec.specs.Reading.{Gives};
ghost use Rattle.tg_codec.specs.Codec.{u8};
ghost use Rattle.tg_tree.specs.Paths.{IsPath, next_bytes, path_byte, path_body, path_format, path_of};

use std::alloc::Global;
use std::marker::Model;
use tg_base::{List, NoMemory};
use tg_codec::{ReadFault, put_text, u8_in, u16_in};

/// A slash, or one or more times a slash and a name, which is a text of the letters, the digits, the
/// underscore, the full stop and the hyphen; at most 4,096 bytes.
#[derive(Drop)]
pub struct Path {
    text: String,
}

impl Model for Path {
    ghost use Rattle.std.specs.Prelude.{ℕ, List};
    ghost use Rattle.std.specs.Prelude.{string_bytes};
    ghost use Rattle.tg_tree.specs.Paths.{IsPath};

    ghost Value = { List ℕ };

    ghost view = { λ p. string_bytes p.text };

    ghost invariant = { λ p. IsPath (string_bytes p.text) };
}

impl Path {
    /// The path that a word is, None where the word is none. An `Err` is want of memory.
    pub fn of(alloc: Global, word: &str) -> Result<Option<Path>, NoMemory>
        ensures { IfOk result (λ p. p ≡ path_of word.now) }
    {
        if !is_path(word.as_bytes()) {
            return Ok(None);
        }
        let text = String::from_str(alloc, word)?;
        Ok(Some(Path { text }))
    }

    /// The path.
    pub fn as_str(&self) -> &str
        ensures value { result.now ≡ self.now }
        ensures known { IsPath self.now }
        ensures fits { length self.now ≤ 4096 }
    {
        self.text.as_str()
    }

    /// An equal path. An `Err` is want of memory.
    pub fn copy(&self) -> Result<Path, NoMemory>
        ensures { IfOk result (λ p. p ≡ self.now) }
    {
        Ok(Path {
            text: self.text.clone()?,
        })
    }

    /// The bytes of the path. It takes no memory.
    pub(crate) fn into_bytes(self) -> Vec<u8>
        ensures { result.items ≡ self }
    {
        self.text.into_bytes()
    }
}

const SLASH: [(u64, u64); 1] = [(47, 47)];

const NAMES: [(u64, u64); 6] = [(65, 90), (97, 122), (48, 57), (95, 95), (46, 46), (45, 45)];

const BOTH: [(u64, u64); 7] = [
    (47, 47),
    (65, 90),
    (97, 122),
    (48, 57),
    (95, 95),
    (46, 46),
    (45, 45),
];

// The next byte of a path, of which so many are to come, behind a byte that is 0 at the start.
fn byte_in(left: usize, before: u8, bytes: &[u8]) -> Result<(u8, &[u8]), ReadFault>
    ensures { Gives (λ x. (x.0, x.1.now)) result ((path_byte (left, before)).read bytes.now) }
{
    if before == 0 {
        return u8_in(&SLASH, bytes);
    }
    if before == b'/' || left == 1 {
        return u8_in(&NAMES, bytes);
    }
    u8_in(&BOTH, bytes)
}

// The bytes of a path of this length.
fn body_in(count: usize, bytes: &[u8]) -> Result<(&[u8], &[u8]), ReadFault>
    ensures exact { Gives (λ x. (x.0.now, x.1.now)) result ((path_body count).read bytes.now) }
    ensures len { IfOk result (λ x. length x.0.now ≡ count) }
{
    let mut before = 0;
    let mut rest = bytes;
    for place in 0..count {
        let (byte, after) = byte_in(count - place, before, rest)?;
        before = byte;
        rest = after;
    }
    Ok(bytes.split_at(count))
}

/// A path behind its length in two bytes.
pub fn path_in(alloc: Global, bytes: &[u8]) -> Result<(Path, &[u8]), ReadFault>
    ensures { Gives (λ x. (x.0, x.1.now)) result (path_format.read bytes.now) }
{
    let (len, rest) = u16_in(&[(1, 4096)], bytes)?;
    let (text, rest) = body_in(len as usize, rest)?;
    let text = str::from_utf8(text).unwrap();
    let text = String::from_str(alloc, text)?;
    Ok((Path { text }, rest))
}

/// Puts the bytes of a path last, behind their length in two bytes.
pub fn put_path(path: &Path, out: &mut List<u8>) -> Result<(), NoMemory>
    ensures { OnOk result (out.new ≡ out.old ++ path_format.spell path.now) }
{
    put_text(path.as_str().as_bytes(), out)
}

// Whether a path goes on with a byte, where so many are to come, behind a byte that is 0 at the start.
fn goes_on(left: usize, before: u8, byte: u8) -> bool
    ensures { result ≡ (path_byte (left, before)).fits byte }
{
    let letter = matches!(byte, b'A'..=b'Z' | b'a'..=b'z' | b'0'..=b'9' | b'_' | b'.' | b'-');
    if before == 0 {
        return byte == b'/';
    }
    if before == b'/' || left == 1 {
        return letter;
    }
    letter || byte == b'/'
}

// Whether bytes are those of a path, but for their length.
fn is_body(bytes: &[u8]) -> bool
    ensures { result ≡ (path_body (length bytes.now)).fits bytes.now }
{
    let mut before = 0;
    for (place, byte) in bytes.iter().enumerate() {
        if !goes_on(bytes.len() - place, before, *byte) {
            return false;
        }
        before = *byte;
    }
    true
}

// Whether bytes are a path.
fn is_path(bytes: &[u8]) -> bool
    ensures { result ≡ path_format.fits bytes.now }
{
    !bytes.is_empty() && bytes.len() <= 4096 && is_body(bytes)
}
