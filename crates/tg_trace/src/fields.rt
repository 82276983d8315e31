//! The fields of replies, as they are read.

ghost use Rattle.std.specs.Prelude.{◌≡◌, codes, IfOk, OnOk, option_map, option_copied, Some, None, if◌then◌else◌};
ghost use Rattle.tg_any.specs.Fronts.{after};
ghost use Rattle.tg_any.specs.AnyWords.{op_read, ask_read, answer_read};
ghost use Rattle.tg_any.specs.Words.{texts, number, object, one_read, two_read};
ghost use Rattle.tg_trace.specs.Lines.{lettered, first_at, after_name, first};
ghost use Rattle.tg_trace.specs.Fields.{waiting, crowd, fate, is_key, key, unit, client, versions, clash, any_op, ask_len, told_at, answered};
ghost use Rattle.tg_trace.specs.Transcripts.{write};

use crate::cut::cut_at;
use std::alloc::Global;
use tg_any::{AnyAns, AnyAsk, AnyOp, Field, ans_of, ask_of, number, one, op_of};
use tg_base::{Blob, List, Many, NoMemory, Oid, Part, Pos};
use tg_kind::Text;
use tg_model::Word;
use tg_tree::Path;

/// The first word's value, and the other words.
pub fn first<'a, 'b, A: Field>(
    alloc: Global,
    words: &'b [&'a str],
) -> Result<Option<(A, &'b [&'a str])>, NoMemory>
    ensures { IfOk result (λ x. option_map (λ p. (p.0, texts p.1.now)) x ≡ first_at A.word (texts words.now)) }
{
    let [word, rest @ ..] = words else {
        return Ok(None);
    };
    let Some(x) = A::of(alloc, word)? else {
        return Ok(None);
    };
    Ok(Some((x, rest)))
}

/// The words after a name. It takes no memory.
pub fn named<'a, 'b>(name: &str, words: &'b [&'a str]) -> Option<&'b [&'a str]>
    ensures { option_map (λ rest. texts rest.now) result ≡ after_name name.now (texts words.now) }
{
    let [word, rest @ ..] = words else {
        return None;
    };
    if *word == name { Some(rest) } else { None }
}

// The number after a letter.
fn lettered(letter: &[u8], word: &str) -> Option<u16>
    ensures { result ≡ (lettered letter.now).read word.now }
{
    let n = number(strip(letter, word.as_bytes())?)?;
    if n < 65_536 { Some(n as u16) } else { None }
}

// What follows the front.
#[tactic(auto, unfolding(tg_any::specs::Fronts::after))]
fn strip<'a>(front: &[u8], text: &'a [u8]) -> Option<&'a [u8]>
    ensures { option_copied result ≡ after front.now text.now }
{
    text.strip_prefix(front)
}

/// The number after a letter in the first word, and the other words. It takes no memory.
pub fn node<'a, 'b>(letter: &[u8], words: &'b [&'a str]) -> Option<(u16, &'b [&'a str])>
    ensures { option_map (λ p. (p.0, texts p.1.now)) result ≡ first_at (lettered letter.now) (texts words.now) }
{
    let [word, rest @ ..] = words else {
        return None;
    };
    let n = lettered(letter, word)?;
    Some((n, rest))
}

/// The unit that is the only word. It takes no memory.
pub fn unit(words: &[&str]) -> Option<u16>
    ensures { result ≡ one_read unit (texts words.now) }
{
    match words {
        [word] => lettered(b"u", word),
        _ => None,
    }
}

// Whether a record is committed, or that there is none.
fn fate(word: &str) -> Option<Option<bool>>
    ensures { result ≡ fate.read word.now }
{
    match word {
        "none" => Some(None),
        "yes" => Some(Some(true)),
        "no" => Some(Some(false)),
        _ => None,
    }
}

// The fate that is the only word.
fn one_fate(words: &[&str]) -> Option<Option<bool>>
    ensures { result ≡ one_read fate (texts words.now) }
{
    match words {
        [word] => fate(word),
        _ => None,
    }
}

/// A position, and the fate of the record there.
pub fn fate_at(alloc: Global, words: &[&str]) -> Result<Option<(Pos, Option<bool>)>, NoMemory>
    ensures { IfOk result (λ x. x ≡ two_read number fate (texts words.now)) }
{
    let [word, rest @ ..] = words else {
        return Ok(None);
    };
    let Some(at) = number(word.as_bytes()) else {
        return Ok(None);
    };
    let Some(yes) = one_fate(rest) else {
        return Ok(None);
    };
    Ok(Some((at, yes)))
}

// Whether a word is a text or a path. An `Err` is want of memory.
fn is_key(alloc: Global, word: &str) -> Result<bool, NoMemory>
    ensures { IfOk result (λ b. b ≡ is_key word.now) }
{
    if Text::of(alloc, word)?.is_some() {
        return Ok(true);
    }
    Ok(Path::of(alloc, word)?.is_some())
}

// The text or path that a word is.
fn key(alloc: Global, word: &str) -> Result<Option<Blob>, NoMemory>
    ensures { IfOk result (λ x. x ≡ key.read word.now) }
{
    if !is_key(alloc, word)? {
        return Ok(None);
    }
    let mut bytes = List::new(alloc);
    bytes.extend(word.as_bytes())?;
    Blob::new(alloc, bytes)
}

// The version that was read, and the one that stands there now.
fn versions(alloc: Global, words: &[&str]) -> Result<Option<(u64, u64)>, NoMemory>
    ensures { IfOk result (λ x. x ≡ versions.read (texts words.now)) }
{
    let Some(rest) = named("seen", words) else {
        return Ok(None);
    };
    let Some((seen, rest)) = first(alloc, rest)? else {
        return Ok(None);
    };
    let Some(rest) = named("now", rest) else {
        return Ok(None);
    };
    let Some(now) = one(alloc, rest)? else {
        return Ok(None);
    };
    Ok(Some((seen, now)))
}

// A text or path, and its two versions.
fn key_versions(alloc: Global, words: &[&str]) -> Result<Option<(Blob, (u64, u64))>, NoMemory>
    ensures { IfOk result (λ x. x ≡ (first key versions).read (texts words.now)) }
{
    let [word, rest @ ..] = words else {
        return Ok(None);
    };
    let Some(text) = key(alloc, word)? else {
        return Ok(None);
    };
    let Some(both) = versions(alloc, rest)? else {
        return Ok(None);
    };
    Ok(Some((text, both)))
}

// A number, and its two versions.
fn number_versions(alloc: Global, words: &[&str]) -> Result<Option<(u64, (u64, u64))>, NoMemory>
    ensures { IfOk result (λ x. x ≡ (first number versions).read (texts words.now)) }
{
    let Some((number, rest)) = first(alloc, words)? else {
        return Ok(None);
    };
    let Some(both) = versions(alloc, rest)? else {
        return Ok(None);
    };
    Ok(Some((number, both)))
}

/// A part, and its two versions.
pub fn clash(alloc: Global, words: &[&str]) -> Result<Option<(Part, (u64, u64))>, NoMemory>
    ensures { IfOk result (λ x. x ≡ clash.read (texts words.now)) }
{
    let [verb, fields @ ..] = words else {
        return Ok(None);
    };
    match *verb {
        "all" => {
            let Some(both) = versions(alloc, fields)? else {
                return Ok(None);
            };
            Ok(Some((Part::All, both)))
        }
        "key" => {
            let Some((text, both)) = key_versions(alloc, fields)? else {
                return Ok(None);
            };
            Ok(Some((Part::Text(text), both)))
        }
        "num" => {
            let Some((number, both)) = number_versions(alloc, fields)? else {
                return Ok(None);
            };
            Ok(Some((Part::Num(number), both)))
        }
        _ => Ok(None),
    }
}

// The op that has these words.
fn op(alloc: Global, words: &[&str]) -> Result<Option<AnyOp>, NoMemory>
    ensures { IfOk result (λ x. x ≡ op_read (texts words.now)) }
{
    op_of(alloc, words)
}

// The ask that has these words.
fn ask(alloc: Global, words: &[&str]) -> Result<Option<AnyAsk>, NoMemory>
    ensures { IfOk result (λ x. x ≡ ask_read (texts words.now)) }
{
    ask_of(alloc, words)
}

// The answer of the ask's form that has these words.
fn answer(alloc: Global, ask: &AnyAsk, words: &[&str]) -> Result<Option<AnyAns>, NoMemory>
    ensures { IfOk result (λ x. x ≡ answer_read ask.now (texts words.now)) }
{
    ans_of(alloc, ask, words)
}

/// An object and an op.
pub fn write(alloc: Global, words: &[&str]) -> Result<Option<(Oid, AnyOp)>, NoMemory>
    ensures { IfOk result (λ x. x ≡ write.read (texts words.now)) }
{
    let Some((oid, rest)) = first(alloc, words)? else {
        return Ok(None);
    };
    let Some(op) = op(alloc, rest)? else {
        return Ok(None);
    };
    Ok(Some((oid, op)))
}

// How many words an ask has, by its verb.
fn ask_len(verb: &str) -> usize
    ensures { result ≡ ask_len verb.now }
{
    match verb {
        "count" | "between" => 3,
        "find" | "get" | "at" | "data" | "has" | "children" | "member" => 2,
        _ => 1,
    }
}

// A position, and the answer there.
fn told_at(alloc: Global, ask: &AnyAsk, words: &[&str]) -> Result<Option<(Pos, AnyAns)>, NoMemory>
    ensures { IfOk result (λ x. x ≡ (told_at ask.now).read (texts words.now)) }
{
    let Some(rest) = named("at", words) else {
        return Ok(None);
    };
    let Some((at, rest)) = first(alloc, rest)? else {
        return Ok(None);
    };
    let Some(rest) = named("=", rest) else {
        return Ok(None);
    };
    let Some(answer) = answer(alloc, ask, rest)? else {
        return Ok(None);
    };
    Ok(Some((at, answer)))
}

// An ask, and how it was answered at a position.
fn answered(alloc: Global, words: &[&str]) -> Result<Option<(AnyAsk, (Pos, AnyAns))>, NoMemory>
    ensures { IfOk result (λ x. x ≡ answered.read (texts words.now)) }
{
    let [verb, ..] = words else {
        return Ok(None);
    };
    let (front, rest) = cut_at(ask_len(verb), words);
    let Some(ask) = ask(alloc, front)? else {
        return Ok(None);
    };
    let Some(told) = told_at(alloc, &ask, rest)? else {
        return Ok(None);
    };
    Ok(Some((ask, told)))
}

/// An object, an ask, and how it was answered at a position.
pub fn asked(
    alloc: Global,
    words: &[&str],
) -> Result<Option<(Oid, (AnyAsk, (Pos, AnyAns)))>, NoMemory>
    ensures { IfOk result (λ x. x ≡ (first object answered).read (texts words.now)) }
{
    let Some((oid, rest)) = first(alloc, words)? else {
        return Ok(None);
    };
    let Some(told) = answered(alloc, rest)? else {
        return Ok(None);
    };
    Ok(Some((oid, told)))
}

/// The command of a word. It takes no memory.
pub fn command(words: &[&str]) -> Option<Word>
    ensures { result ≡ one_read waiting (texts words.now) }
{
    match words {
        [word] => command_in(word),
        _ => None,
    }
}

fn command_in(word: &str) -> Option<Word>
    ensures { result ≡ waiting.read word.now }
{
    match word {
        "host" => Some(Word::Host),
        "begin" => Some(Word::Begin),
        "put" => Some(Word::Put),
        "ask" => Some(Word::Ask),
        "end" => Some(Word::End),
        "drop" => Some(Word::Drop),
        "fate" => Some(Word::Fate),
        "decide" => Some(Word::Decide),
        "checkpoint" => Some(Word::Checkpoint),
        "forget" => Some(Word::Forget),
        "trim" => Some(Word::Trim),
        "reconf" => Some(Word::Reconf),
        "copy" => Some(Word::Copy),
        "ask-at" => Some(Word::AskAt),
        "rescue" => Some(Word::Rescue),
        _ => None,
    }
}

/// What there are too many of, by its word. It takes no memory.
pub fn crowd(words: &[&str]) -> Option<Many>
    ensures { result ≡ one_read crowd (texts words.now) }
{
    match words {
        [word] => crowd_in(word),
        _ => None,
    }
}

fn crowd_in(word: &str) -> Option<Many>
    ensures { result ≡ crowd.read word.now }
{
    match word {
        "streams" => Some(Many::Streams),
        "reads" => Some(Many::Reads),
        "writes" => Some(Many::Writes),
        "hosted" => Some(Many::Hosted),
        "ranges" => Some(Many::Ranges),
        "units" => Some(Many::Units),
        _ => None,
    }
}
