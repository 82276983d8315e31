//! Reading transcripts.

ghost use Rattle.std.specs.Prelude.{◌≡◌, ◌<◌, ◌≤◌, ◌+◌, ◌^◌, true, length, IfOk, MatchResult};
ghost use Rattle.tg_base.specs.declared.fault.TextFault.TheVariants as fault;
ghost use Rattle.tg_any.specs.Words.{texts};
ghost use Rattle.tg_trace.specs.declared.beginning.Beginning.{Beginning};
ghost use Rattle.tg_trace.specs.Transcripts.{rendered, is_transcript};
ghost use Rattle.tg_trace.specs.declared.transcript.Transcript.{Transcript};
ghost use Rattle.tg_trace.specs.Reading.{IsFirstOutside, OnOutside, Parses, next_entry, is_above, after_replies, step_past, step_words, step, run, whole, ended, parsed};

use crate::beginning::{Beginning, Past};
use crate::cut::{pieces, text_of, words};
use crate::lines::{count, entry, objects, reply};
use crate::transcript::{AnyDone, AnyMark, Transcript};
use std::alloc::Global;
use tg_base::{List, NoMemory, Oid, Pos, TextFault};

/// The transcript that a text is: the one that [`render`](crate::render) prints as this text.
///
/// # Errors
/// `Outside` names the first line, from 1, that may not follow the lines before it: where lines are missing
/// the one after the last, and where all are there one more. A line that isn't ended is such a line too.
pub fn read(alloc: Global, text: &[u8]) -> Result<Transcript, TextFault>
    ensures found { IfOk result (λ t. (text.now ≡ rendered t) × (is_transcript t ≡ true)) }
    // Its lines have numbers of 64 bits.
    ensures numbered { IfOk result (λ t. length t.trace + length t.history + 3 < 2 ^ 64) }
    ensures only { (t : Transcript) → is_transcript t ≡ true → text.now ≡ rendered t → MatchResult result (λ x. x ≡ t) (λ e. e ≡ fault.NoMemory) }
    ensures outside { OnOutside result (λ line. IsFirstOutside text.now line) }
{
    let _bytes = text.len();
    let pieces = pieces(alloc, text)?;
    parse(alloc, pieces.as_slice())
}

// The transcript of these lines, of which the last isn't ended.
fn parse(alloc: Global, pieces: &[&[u8]]) -> Result<Transcript, TextFault>
    ensures { Parses result (parsed (texts pieces.now)) }
{
    let line = pieces.len() as u64;
    let Some((last, lines)) = pieces.split_last() else {
        return Err(TextFault::Outside { line });
    };
    let so_far = run(alloc, lines)?;
    ended(line, whole(so_far), last)
}

// The transcript, if nothing stands behind its last line. Else this line is the first outside.
fn ended(line: u64, transcript: Option<Transcript>, rest: &[u8]) -> Result<Transcript, TextFault>
    ensures { Parses result (ended line transcript rest.now) }
{
    let Some(transcript) = transcript else {
        return Err(TextFault::Outside { line });
    };
    match rest {
        [] => Ok(transcript),
        _ => Err(TextFault::Outside { line }),
    }
}

// What the lines make.
fn run(alloc: Global, lines: &[&[u8]]) -> Result<Option<Beginning>, TextFault>
    ensures { Parses result (run 1 None (texts lines.now)) }
{
    let mut so_far = None;
    let mut number = 1;
    for line in lines {
        so_far = step(alloc, so_far, line)?;
        if so_far.is_none() {
            return Err(TextFault::Outside { line: number });
        }
        number += 1;
    }
    Ok(so_far)
}

// What one more line makes of what was read, None where it may not follow.
#[tactic(auto, unfolding(crate::specs::Reading::step))]
fn step(
    alloc: Global,
    so_far: Option<Beginning>,
    line: &[u8],
) -> Result<Option<Beginning>, NoMemory>
    ensures { IfOk result (λ x. x ≡ step so_far line.now) }
{
    let Some(text) = text_of(line) else {
        return Ok(None);
    };
    let words = words(alloc, text)?;
    step_words(alloc, so_far, words.as_slice())
}

fn step_words(
    alloc: Global,
    so_far: Option<Beginning>,
    words: &[&str],
) -> Result<Option<Beginning>, NoMemory>
    ensures { IfOk result (λ x. x ≡ step_words so_far (texts words.now)) }
{
    match so_far {
        None => begin(alloc, words),
        Some(begun) => go_on(alloc, begun, words),
    }
}

// What the line of the objects begins.
fn begin(alloc: Global, words: &[&str]) -> Result<Option<Beginning>, NoMemory>
    ensures { IfOk result (λ x. x ≡ step_words None (texts words.now)) }
{
    let Some(objects) = objects(alloc, words)? else {
        return Ok(None);
    };
    Ok(Some(Beginning {
        objects,
        trace: List::new(alloc),
        history: None,
    }))
}

// What a line makes of what was begun.
fn go_on(alloc: Global, begun: Beginning, words: &[&str]) -> Result<Option<Beginning>, NoMemory>
    ensures { IfOk result (λ x. x ≡ step_past begun begun.history (texts words.now)) }
{
    let Beginning {
        objects,
        trace,
        history,
    } = begun;
    match history {
        None => after_replies(alloc, objects, trace, words),
        Some(past) => after_entries(alloc, objects, trace, past, words),
    }
}

// What a reply's line, or the one that counts the history, makes.
fn after_replies(
    alloc: Global,
    objects: List<Oid>,
    trace: List<AnyMark>,
    words: &[&str],
) -> Result<Option<Beginning>, NoMemory>
    ensures { IfOk result (λ x. x ≡ after_replies (record { objects = objects; trace = trace; history = None }) (texts words.now)) }
{
    if let Some(mark) = reply(alloc, words)? {
        let mut trace = trace;
        trace.push(mark)?;
        return Ok(Some(Beginning {
            objects,
            trace,
            history: None,
        }));
    }
    let Some(count) = count(alloc, words)? else {
        return Ok(None);
    };
    let entries = List::new(alloc);
    Ok(Some(Beginning {
        objects,
        trace,
        history: Some(Past { count, entries }),
    }))
}

// What a transaction's line makes.
fn after_entries(
    alloc: Global,
    objects: List<Oid>,
    trace: List<AnyMark>,
    past: Past,
    words: &[&str],
) -> Result<Option<Beginning>, NoMemory>
    ensures { IfOk result (λ x. x ≡ step_past (record { objects = objects; trace = trace; history = Some past }) (Some past) (texts words.now)) }
{
    let Some(done) = next_entry(alloc, &past, words)? else {
        return Ok(None);
    };
    let Past { count, mut entries } = past;
    entries.push(done)?;
    Ok(Some(Beginning {
        objects,
        trace,
        history: Some(Past { count, entries }),
    }))
}

// The transaction of a line, if one is still to come and its place is above those so far.
fn next_entry(alloc: Global, past: &Past, words: &[&str]) -> Result<Option<AnyDone>, NoMemory>
    ensures { IfOk result (λ x. x ≡ next_entry past.now (texts words.now)) }
{
    if past.entries.len() as u64 >= past.count {
        return Ok(None);
    }
    let Some(done) = entry(alloc, words)? else {
        return Ok(None);
    };
    if is_above(past.entries.as_slice(), done.stamp) {
        Ok(Some(done))
    } else {
        Ok(None)
    }
}

// Whether a place is above those so far.
fn is_above(entries: &[AnyDone], stamp: Pos) -> bool
    ensures { result ≡ is_above entries.now stamp }
{
    match entries.split_last() {
        None => true,
        Some((last, _)) => last.stamp < stamp,
    }
}

// The transcript, if all its lines were read.
fn whole(so_far: Option<Beginning>) -> Option<Transcript>
    ensures { result ≡ whole so_far }
{
    let Beginning {
        objects,
        trace,
        history,
    } = so_far?;
    let Past { count, entries } = history?;
    if entries.len() as u64 == count {
        Some(Transcript {
            objects,
            trace,
            history: entries,
        })
    } else {
        None
    }
}
