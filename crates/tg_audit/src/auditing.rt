//! Verdicts on transcripts and on their texts.

ghost use Rattle.std.specs.Prelude.{◌≡◌, ◌+◌, ◌^◌, ◌<◌, true, length, IfOk, MatchResult};
ghost use Rattle.tg_base.specs.declared.fault.TextFault.TheVariants as fault;
ghost use Rattle.tg_kind.specs.Of.{meaning_of};
ghost use Rattle.tg_trace.specs.Reading.{IsFirstOutside, OnOutside};
ghost use Rattle.tg_trace.specs.Transcripts.{rendered, is_transcript};
ghost use Rattle.tg_trace.specs.declared.transcript.Transcript.{Transcript};
ghost use Rattle.tg_audit.specs.Told.{verdict_of};
ghost use Rattle.tg_audit.specs.Same.{same_op as op_test, same_answer as answer_test};
ghost use Rattle.tg_audit.specs.SameLaws as exact;

use crate::judged::Judged;
use crate::judging::verdict_on;
use crate::same::{same_answer, same_op};
use crate::verdict::Verdict;
use std::alloc::Global;
use tg_any::{AnyAns, AnyKind, AnyOp};
use tg_base::{NoMemory, TextFault};
use tg_kind::Registry;
use tg_trace::{Transcript, read};

impl Judged for AnyKind {
    ghost same_ops = { op_test };

    ghost same_answers = { answer_test };

    fn is_same_op(one: &AnyOp, other: &AnyOp) -> bool {
        same_op(one, other)
    }

    fn is_same_answer(one: &AnyAns, other: &AnyAns) -> bool {
        same_answer(one, other)
    }

    ghost same_ops_exact = { exact.same_op_exact };

    ghost same_answers_exact = { exact.same_answer_exact };
}

/// The verdict on a transcript that has a text, whose lines have numbers of 64 bits. An `Err` is want of memory.
pub fn judge(alloc: Global, transcript: &Transcript) -> Result<Verdict, NoMemory>
    requires lawful { is_transcript transcript.now ≡ true }
    requires numbered { length transcript.now.trace + length transcript.now.history + 3 < 2 ^ 64 }
    ensures { IfOk result (λ v. v ≡ verdict_of (meaning_of ⟦<AnyKind as Registry>⟧) op_test answer_test transcript.now.objects transcript.now.history transcript.now.trace) }
{
    verdict_on::<AnyKind>(
        alloc,
        transcript.objects.as_slice(),
        transcript.history.as_slice(),
        transcript.trace.as_slice(),
    )
}

/// The verdict on the run that a text tells of.
///
/// # Errors
/// `Outside` names the first line, from 1, that may not follow the lines before it, where the text is no transcript's.
pub fn audit(alloc: Global, text: &[u8]) -> Result<Verdict, TextFault>
    ensures only { (t : Transcript) → is_transcript t ≡ true → text.now ≡ rendered t → MatchResult result (λ v. v ≡ verdict_of (meaning_of ⟦<AnyKind as Registry>⟧) op_test answer_test t.objects t.history t.trace) (λ e. e ≡ fault.NoMemory) }
    ensures outside { OnOutside result (λ line. IsFirstOutside text.now line) }
{
    let transcript = read(alloc, text)?;
    Ok(judge(alloc, &transcript)?)
}
