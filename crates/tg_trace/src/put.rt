//! Words that are put behind others, each behind a space.

ghost use Rattle.std.specs.Prelude.{◌≡◌, [], ◌∷◌, ◌++◌, OnOk};
ghost use Rattle.tg_any.specs.AnyWords.{op_words, ask_words, answer_words};
ghost use Rattle.tg_trace.specs.Lines.{spaced, lettered};

use std::alloc::Global;
use tg_any::{AnyAns, AnyAsk, AnyOp, Field, put_number, spell_ans, spell_ask, spell_op};
use tg_base::{List, NoMemory};

/// Puts a word.
pub fn put_word(word: &[u8], out: &mut List<u8>) -> Result<(), NoMemory>
    ensures { OnOk result (out.new ≡ out.old ++ spaced (word.now ∷ [])) }
{
    out.push(b' ')?;
    out.extend(word)
}

/// Puts a field.
pub fn put_field<A: Field>(x: &A, out: &mut List<u8>) -> Result<(), NoMemory>
    ensures { OnOk result (out.new ≡ out.old ++ spaced (A.word.spell x.now ∷ [])) }
{
    out.push(b' ')?;
    x.put(out)
}

/// Puts a verb and its field.
pub fn put_one<A: Field>(verb: &[u8], x: &A, out: &mut List<u8>) -> Result<(), NoMemory>
    ensures { OnOk result (out.new ≡ out.old ++ spaced (verb.now ∷ A.word.spell x.now ∷ [])) }
{
    put_word(verb, out)?;
    put_field(x, out)
}

/// Puts a verb and its two fields.
pub fn put_two<A: Field, B: Field>(
    verb: &[u8],
    x: &A,
    y: &B,
    out: &mut List<u8>,
) -> Result<(), NoMemory>
    ensures { OnOk result (out.new ≡ out.old ++ spaced (verb.now ∷ A.word.spell x.now ∷ B.word.spell y.now ∷ [])) }
{
    put_one(verb, x, out)?;
    put_field(y, out)
}

/// Puts a letter and a number, as `u3`.
pub fn put_lettered(letter: &[u8], number: u16, out: &mut List<u8>) -> Result<(), NoMemory>
    ensures { OnOk result (out.new ≡ out.old ++ spaced ((lettered letter.now).spell number ∷ [])) }
{
    put_word(letter, out)?;
    put_number(number, out)
}

/// Puts an op.
pub fn put_op(alloc: Global, op: &AnyOp, out: &mut List<u8>) -> Result<(), NoMemory>
    ensures { OnOk result (out.new ≡ out.old ++ spaced (op_words op.now)) }
{
    out.push(b' ')?;
    spell_op(alloc, op, out)?;
    Ok(())
}

/// Puts an ask.
pub fn put_ask(alloc: Global, ask: &AnyAsk, out: &mut List<u8>) -> Result<(), NoMemory>
    ensures { OnOk result (out.new ≡ out.old ++ spaced (ask_words ask.now)) }
{
    out.push(b' ')?;
    spell_ask(alloc, ask, out)?;
    Ok(())
}

/// Puts an answer.
pub fn put_answer(alloc: Global, answer: &AnyAns, out: &mut List<u8>) -> Result<(), NoMemory>
    ensures { OnOk result (out.new ≡ out.old ++ spaced (answer_words answer.now)) }
{
    out.push(b' ')?;
    spell_ans(alloc, answer, out)?;
    Ok(())
}
