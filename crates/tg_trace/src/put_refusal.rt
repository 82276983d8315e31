//! The words of refusals, as they are put.

ghost use Rattle.std.specs.Prelude.{◌≡◌, ◌++◌, [], ◌∷◌, OnOk};
ghost use Rattle.tg_trace.specs.Lines.{spaced};
ghost use Rattle.tg_trace.specs.Fields.{command_word, many_word, unit};
ghost use Rattle.tg_trace.specs.Refusals.{refusal_words};
ghost use Rattle.tg_any.specs.Words.{number};

use crate::put::{put_field, put_lettered, put_one, put_two, put_word};
use tg_base::{List, Many, NoMemory, Pos};
use tg_model::{Refusal, Word};

// The word of the command that waits.
fn command_word(command: Word) -> &'static [u8]
    ensures { result.now ≡ command_word command }
{
    match command {
        Word::Host => b"host",
        Word::Begin => b"begin",
        Word::Put => b"put",
        Word::Ask => b"ask",
        Word::End => b"end",
        Word::Drop => b"drop",
        Word::Fate => b"fate",
        Word::Decide => b"decide",
        Word::Checkpoint => b"checkpoint",
        Word::Forget => b"forget",
        Word::Trim => b"trim",
        Word::Reconf => b"reconf",
        Word::Copy => b"copy",
        Word::AskAt => b"ask-at",
        Word::Rescue => b"rescue",
    }
}

// The word of what there are too many of.
fn many_word(what: Many) -> &'static [u8]
    ensures { result.now ≡ many_word what }
{
    match what {
        Many::Streams => b"streams",
        Many::Reads => b"reads",
        Many::Writes => b"writes",
        Many::Hosted => b"hosted",
        Many::Ranges => b"ranges",
        Many::Units => b"units",
    }
}

// Puts a verb and a word.
fn put_named(verb: &[u8], word: &[u8], out: &mut List<u8>) -> Result<(), NoMemory>
    ensures { OnOk result (out.new ≡ out.old ++ spaced (verb.now ∷ word.now ∷ [])) }
{
    put_word(verb, out)?;
    put_word(word, out)
}

// Puts a verb and a range or a count.
fn put_size(verb: &[u8], size: usize, out: &mut List<u8>) -> Result<(), NoMemory>
    ensures { OnOk result (out.new ≡ out.old ++ spaced (verb.now ∷ number.spell size ∷ [])) }
{
    put_one(verb, &(size as u64), out)
}

// Puts a verb, a range and a stripe.
fn put_stripe(verb: &[u8], range: usize, stripe: usize, out: &mut List<u8>) -> Result<(), NoMemory>
    ensures { OnOk result (out.new ≡ out.old ++ spaced (verb.now ∷ number.spell range ∷ number.spell stripe ∷ [])) }
{
    put_two(verb, &(range as u64), &(stripe as u64), out)
}

// Puts a verb and a unit.
fn put_unit(verb: &[u8], id: u16, out: &mut List<u8>) -> Result<(), NoMemory>
    ensures { OnOk result (out.new ≡ out.old ++ spaced (verb.now ∷ unit.spell id ∷ [])) }
{
    put_word(verb, out)?;
    put_lettered(b"u", id, out)
}

// Puts a verb, a unit and a position.
fn put_hole(verb: &[u8], id: u16, pos: Pos, out: &mut List<u8>) -> Result<(), NoMemory>
    ensures { OnOk result (out.new ≡ out.old ++ spaced (verb.now ∷ unit.spell id ∷ number.spell pos ∷ [])) }
{
    put_unit(verb, id, out)?;
    put_field(&pos, out)
}

/// Puts a refusal.
pub fn put_refusal(why: &Refusal, out: &mut List<u8>) -> Result<(), NoMemory>
    ensures { OnOk result (out.new ≡ out.old ++ spaced (refusal_words why.now)) }
{
    match *why {
        Refusal::Busy { command } => put_named(b"busy", command_word(command), out),
        Refusal::NoTx => put_word(b"no-tx", out),
        Refusal::TxOpen => put_word(b"tx-open", out),
        Refusal::NotHosted { oid } => put_one(b"not-hosted", &oid, out),
        Refusal::NotRegistered { oid } => put_one(b"not-registered", &oid, out),
        Refusal::WrongKind { oid } => put_one(b"wrong-kind", &oid, out),
        Refusal::TooLarge { bytes } => put_size(b"too-large", bytes, out),
        Refusal::Undecided { pos, missing } => put_two(b"undecided", &pos, &missing, out),
        Refusal::LogFull { limit } => put_one(b"log-full", &limit, out),
        Refusal::Forgotten { at, below } => put_two(b"forgotten", &at, &below, out),
        Refusal::NoReplica { range, stripe } => put_stripe(b"no-replica", range, stripe, out),
        Refusal::Returned { unit } => put_unit(b"returned", unit, out),
        Refusal::Overtaken { epoch } => put_one(b"overtaken", &epoch, out),
        Refusal::OpenDecision { pos } => put_one(b"open-decision", &pos, out),
        Refusal::NoCheckpoint { oid } => put_one(b"no-checkpoint", &oid, out),
        Refusal::TooMany { what } => put_named(b"too-many", many_word(what), out),
        Refusal::NotClosed { range } => put_size(b"not-closed", range, out),
        Refusal::NoStripe { range, stripe } => put_stripe(b"no-stripe", range, stripe, out),
        Refusal::InChain { unit } => put_unit(b"in-chain", unit, out),
        Refusal::NotWhole { unit, pos } => put_hole(b"not-whole", unit, pos, out),
        Refusal::Ahead { tail } => put_one(b"ahead", &tail, out),
    }
}
