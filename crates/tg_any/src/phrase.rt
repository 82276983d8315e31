//! Values that are several words of a line.

ghost use Rattle.std.specs.Prelude.{◌≡◌, [], ◌∷◌, ◌++◌, IfOk, OnOk, option_map, map, codes};
ghost use Rattle.tg_any.specs.Fronts.{after};
ghost use Rattle.tg_any.specs.Words.{texts, none_read, one_read, two_read, maybe_read, maybe_words, before, items_read, is_empty_list, list_read, bracketed, list, joined};

use crate::field::Field;
use std::alloc::Global;
use tg_base::{List, NoMemory};

/// No word. It takes no memory.
pub fn nothing(fields: &[&str]) -> Option<()>
    ensures { result ≡ none_read (texts fields.now) }
{
    match fields {
        [] => Some(()),
        _ => None,
    }
}

/// The value whose one word this is.
pub fn one<A: Field>(alloc: Global, fields: &[&str]) -> Result<Option<A>, NoMemory>
    ensures { IfOk result (λ x. x ≡ one_read A.word (texts fields.now)) }
{
    match fields {
        [field] => A::of(alloc, field),
        _ => Ok(None),
    }
}

/// The two values whose words these are.
pub fn two<A: Field, B: Field>(alloc: Global, fields: &[&str]) -> Result<Option<(A, B)>, NoMemory>
    ensures { IfOk result (λ p. p ≡ two_read A.word B.word (texts fields.now)) }
{
    let [first, rest @ ..] = fields else {
        return Ok(None);
    };
    let Some(x) = A::of(alloc, first)? else {
        return Ok(None);
    };
    let Some(y) = one(alloc, rest)? else {
        return Ok(None);
    };
    Ok(Some((x, y)))
}

/// Puts a verb and its field.
pub fn put_one<A: Field>(verb: &[u8], x: &A, out: &mut List<u8>) -> Result<(), NoMemory>
    ensures { OnOk result (out.new ≡ out.old ++ joined (verb.now ∷ A.word.spell x.now ∷ [])) }
{
    out.extend(verb)?;
    out.push(b' ')?;
    x.put(out)
}

/// Puts a verb and its two fields.
pub fn put_two<A: Field, B: Field>(
    verb: &[u8],
    x: &A,
    y: &B,
    out: &mut List<u8>,
) -> Result<(), NoMemory>
    ensures { OnOk result (out.new ≡ out.old ++ joined (verb.now ∷ A.word.spell x.now ∷ B.word.spell y.now ∷ [])) }
{
    put_one(verb, x, out)?;
    out.push(b' ')?;
    y.put(out)
}

/// The value after `some`, or `none`.
pub fn maybe<A: Field>(alloc: Global, words: &[&str]) -> Result<Option<Option<A>>, NoMemory>
    ensures { IfOk result (λ x. x ≡ maybe_read A.word (texts words.now)) }
{
    let [verb, fields @ ..] = words else {
        return Ok(None);
    };
    match *verb {
        "some" => {
            let Some(x) = one(alloc, fields)? else {
                return Ok(None);
            };
            Ok(Some(Some(x)))
        }
        "none" => Ok(nothing(fields).map(|()| None)),
        _ => Ok(None),
    }
}

/// Puts `some` and the value's word, or `none`.
pub fn put_maybe<A: Field>(value: &Option<A>, out: &mut List<u8>) -> Result<(), NoMemory>
    ensures { OnOk result (out.new ≡ out.old ++ joined (maybe_words A.word value.now)) }
{
    match value {
        None => out.extend(b"none"),
        Some(x) => {
            out.extend(b"some ")?;
            x.put(out)
        }
    }
}

// What follows the opening bracket.
fn opened(word: &str) -> Option<&str>
    ensures { option_map (λ w. w.now) result ≡ after (codes "[") word.now }
{
    word.strip_prefix('[')
}

// What stands before the closing bracket.
fn closed(word: &str) -> Option<&str>
    ensures { option_map (λ w. w.now) result ≡ before (codes "]") word.now }
{
    word.strip_suffix(']')
}

// The items whose first word is at hand, and whose last is closed.
fn items<A: Field>(alloc: Global, first: &str, rest: &[&str]) -> Result<Option<List<A>>, NoMemory>
    ensures { IfOk result (λ xs. xs ≡ items_read A.word first.now (texts rest.now)) }
{
    let mut items = List::new(alloc);
    let mut word = first;
    for next in rest {
        let Some(item) = A::of(alloc, word)? else {
            return Ok(None);
        };
        items.push(item)?;
        word = *next;
    }
    let Some(word) = closed(word) else {
        return Ok(None);
    };
    let Some(item) = A::of(alloc, word)? else {
        return Ok(None);
    };
    items.push(item)?;
    Ok(Some(items))
}

// Whether the words are those of the empty list.
fn is_empty_list(words: &[&str]) -> bool
    ensures { result ≡ is_empty_list (texts words.now) }
{
    match words {
        [word] => *word == "[]",
        _ => false,
    }
}

/// The list that stands in brackets.
pub fn list<A: Field>(alloc: Global, words: &[&str]) -> Result<Option<List<A>>, NoMemory>
    ensures { IfOk result (λ xs. xs ≡ list_read A.word (texts words.now)) }
{
    if is_empty_list(words) {
        return Ok(Some(List::new(alloc)));
    }
    let [word, rest @ ..] = words else {
        return Ok(None);
    };
    let Some(first) = opened(word) else {
        return Ok(None);
    };
    items(alloc, first, rest)
}

// Puts the items' words with a space between any two.
fn put_items<A: Field>(first: &A, rest: &[A], out: &mut List<u8>) -> Result<(), NoMemory>
    ensures { OnOk result (out.new ≡ out.old ++ joined (map A.word.spell (first.now ∷ rest.now))) }
{
    first.put(out)?;
    for item in rest {
        out.push(b' ')?;
        item.put(out)?;
    }
    Ok(())
}

// Puts items in brackets.
fn put_some<A: Field>(first: &A, rest: &[A], out: &mut List<u8>) -> Result<(), NoMemory>
    ensures { OnOk result (out.new ≡ out.old ++ joined (bracketed (map A.word.spell (first.now ∷ rest.now)))) }
{
    out.push(b'[')?;
    put_items(first, rest, out)?;
    out.push(b']')?;
    Ok(())
}

/// Puts a list in brackets.
pub fn put_list<A: Field>(items: &[A], out: &mut List<u8>) -> Result<(), NoMemory>
    ensures { OnOk result (out.new ≡ out.old ++ joined ((list A.word).spell items.now)) }
{
    match items {
        [] => out.extend(b"[]"),
        [first, rest @ ..] => put_some(first, rest, out),
    }
}
