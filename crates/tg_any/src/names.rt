//! Objects as words: the kind's name and the index.

ghost use Rattle.std.specs.Prelude.{◌≡◌, ◌≤◌, ◌++◌, ◌^◌, OnOk, option_map, option_copied};
ghost use Rattle.tg_kind.specs.Parts.{tag_of};
ghost use Rattle.tg_any.specs.Fronts.{after};
ghost use Rattle.tg_any.specs.Names.{kind_name, object_word, numbered, object_at, object_in, mark_word, mark_in};

use crate::decimal::{number, number_front, put_number};
use tg_base::{List, NoMemory, Oid, Pos};

// The first index above the last. An index stands below the byte of the kind.
const INDICES: u32 = 1 << 24;

// What follows this word.
#[tactic(auto, unfolding(crate::specs::Fronts::after))]
fn strip<'a>(word: &[u8], text: &'a [u8]) -> Option<&'a [u8]>
    ensures { option_copied result ≡ after word.now text.now }
{
    text.strip_prefix(word)
}

// An object of a kind, whose index is below a limit, after the kind's name.
#[tactic(auto, unfolding(crate::specs::Names::numbered))]
fn numbered(tag: u32, limit: u32, text: &[u8]) -> Option<(Oid, &[u8])>
    requires tag { tag ≤ 6 }
    requires limit { limit ≤ 2 ^ 24 }
    ensures { option_map (λ x. (x.0, x.1.now)) result ≡ numbered tag limit text.now }
{
    let (index, rest) = number_front(text)?;
    if index < u64::from(limit) {
        Some((Oid(tag * INDICES + index as u32), rest))
    } else {
        None
    }
}

/// The object that a text begins with, and what follows it.
#[tactic(auto, unfolding(crate::specs::Names::object_at))]
pub fn object_front(text: &[u8]) -> Option<(Oid, &[u8])>
    ensures { option_map (λ x. (x.0, x.1.now)) result ≡ object_at text.now }
{
    if let Some(rest) = strip(b"dir", text) {
        return numbered(0, 1, rest);
    }
    if let Some(rest) = strip(b"ctr", text) {
        return numbered(1, INDICES, rest);
    }
    if let Some(rest) = strip(b"reg", text) {
        return numbered(2, INDICES, rest);
    }
    if let Some(rest) = strip(b"map", text) {
        return numbered(3, INDICES, rest);
    }
    if let Some(rest) = strip(b"list", text) {
        return numbered(4, INDICES, rest);
    }
    if let Some(rest) = strip(b"tree", text) {
        return numbered(5, INDICES, rest);
    }
    if let Some(rest) = strip(b"set", text) {
        return numbered(6, INDICES, rest);
    }
    None
}

/// The object whose word this is.
#[tactic(auto, unfolding(crate::specs::Names::object_in))]
pub fn object(word: &[u8]) -> Option<Oid>
    ensures { result ≡ object_in word.now }
{
    let (oid, rest) = object_front(word)?;
    if rest.is_empty() { Some(oid) } else { None }
}

/// The object and the mark whose word this is.
#[tactic(auto, unfolding(crate::specs::Names::mark_in))]
pub fn mark(word: &[u8]) -> Option<(Oid, Pos)>
    ensures { result ≡ mark_in word.now }
{
    let (oid, rest) = object_front(word)?;
    let mark = number(strip(b"=", rest)?)?;
    Some((oid, mark))
}

// The name of the kind that has a tag.
fn kind_name(tag: u32) -> &'static [u8]
    ensures { result.now ≡ kind_name tag }
{
    match tag {
        0 => b"dir",
        1 => b"ctr",
        2 => b"reg",
        3 => b"map",
        4 => b"list",
        5 => b"tree",
        _ => b"set",
    }
}

/// Puts an object's word last.
pub fn put_object(oid: Oid, out: &mut List<u8>) -> Result<(), NoMemory>
    ensures { OnOk result (out.new ≡ out.old ++ object_word oid) }
{
    out.extend(kind_name(oid.0 / INDICES))?;
    put_number(oid.0 % INDICES, out)
}

/// Puts the word of an object and its mark last.
pub fn put_mark(mark: &(Oid, Pos), out: &mut List<u8>) -> Result<(), NoMemory>
    ensures { OnOk result (out.new ≡ out.old ++ mark_word mark.now) }
{
    put_object(mark.0, out)?;
    out.push(b'=')?;
    put_number(mark.1, out)
}
