//! A judge: a transcript is read from a source, and the verdict on it is written to a sink.

ghost use Rattle.std.specs.Prelude.{◌≡◌, ◌≤◌, ◌≢◌, ◌⊎◌, ℕ, List, true, IfOk, IfSome};
ghost use Rattle.tg_base.specs.declared.fault.Clause.{Clause};
ghost use Rattle.tg_io.specs.Bytes.{Takes};
ghost use Rattle.tg_io.specs.Faults.{Rose, StaysSure};
ghost use Rattle.tg_io.specs.declared.status.Status.TheVariants.{Done, Illegal, Script as AtLine, ReadFault, WriteFault, NoMemory as OutOfMemory};
ghost use Rattle.tg_trace.specs.Reading.{IsFirstOutside, OnOutside};
ghost use Rattle.tg_trace.specs.Transcripts.{rendered, is_transcript};
ghost use Rattle.tg_trace.specs.declared.transcript.Transcript.{Transcript};
ghost use Rattle.tg_audit.specs.declared.verdict.Verdict.TheVariants as verdict;
ghost use Rattle.tg_audit_run.specs.Verdicts.{HasVerdict, judged, status_of as told_by};
ghost use Rattle.tg_audit_run.specs.Outcomes.{Told, Written, IsToldOf, IsRefused, IsCutShort, IsOfJudge, IsSilent};

use crate::line::{line_of, status_of};
use std::alloc::Global;
use tg_audit::Verdict;
use tg_base::TextFault;
use tg_io::{IoErr, Sink, Source, Status, write_all};
use tg_lines::read_all;
use tg_trace::read;

/// Reads a transcript from the source, and writes the verdict on it to the sink.
pub fn judge<S: Source, K: Sink>(alloc: Global, source: &mut S, sink: &mut K) -> Status
    // At `Done` the text is a transcript's, which is legal, and that was written.
    ensures done { result ≡ Done → Told (S.left source.old) (K.written sink.old) (K.written sink.new) (IsToldOf verdict.Legal) }
    // At `Illegal` this line of it is the first that fails, and the clause the first that fails there, and that was written.
    ensures illegal { (line : ℕ) (clause : Clause) → result ≡ Illegal line clause →
        Told (S.left source.old) (K.written sink.old) (K.written sink.new) (IsToldOf (verdict.Illegal line clause)) }
    // A line is refused that is the first outside.
    ensures script { (line : ℕ) → result ≡ AtLine line → Told (S.left source.old) (K.written sink.old) (K.written sink.new) (IsRefused line) }
    // A fault has its cause in a count that rose.
    ensures read_fault { result ≡ ReadFault → Rose (S.faults source.old) (S.faults source.new) }
    ensures write_fault { result ≡ WriteFault → Rose (K.faults sink.old) (K.faults sink.new) }
    // What is written then is a front of the verdict's line, or nothing.
    ensures cut_short { (result ≡ WriteFault) ⊎ (result ≡ OutOfMemory) → Told (S.left source.old) (K.written sink.old) (K.written sink.new) IsCutShort }
    // Nothing is written of a text that is refused or that a fault cut off.
    ensures silent { IsSilent result → K.written sink.new ≡ K.written sink.old }
    ensures ways { IsOfJudge result }
    // Without a fault each text has its status, unless memory runs out.
    ensures complete { (Rose (S.faults source.old) (S.faults source.new) → ⊥) → (Rose (K.faults sink.old) (K.faults sink.new) → ⊥) →
        IfSome (S.left source.old) (λ text. (t : Transcript) → is_transcript t ≡ true → text ≡ rendered t → (result ≡ told_by (judged t)) ⊎ (result ≡ OutOfMemory)) }
    ensures refuses { (Rose (S.faults source.old) (S.faults source.new) → ⊥) → (Rose (K.faults sink.old) (K.faults sink.new) → ⊥) →
        IfSome (S.left source.old) (λ text. (line : ℕ) → IsFirstOutside text line → (result ≡ AtLine line) ⊎ (result ≡ OutOfMemory)) }
    // No count of faults falls, and each rises only where its fault, or want of memory, is answered.
    ensures read_later { S.faults source.old ≤ S.faults source.new }
    ensures write_later { K.faults sink.old ≤ K.faults sink.new }
    ensures read_still { result ≢ ReadFault → result ≢ OutOfMemory → S.faults source.new ≡ S.faults source.old }
    ensures write_still { result ≢ WriteFault → result ≢ OutOfMemory → K.faults sink.new ≡ K.faults sink.old }
    // What is sure never to fail stays so.
    ensures source { StaysSure (S.sure source.old) (S.sure source.new) (S.faults source.old) (S.faults source.new) }
    ensures sink { StaysSure (K.sure sink.old) (K.sure sink.new) (K.faults sink.old) (K.faults sink.new) }
{
    read_and_tell(alloc, source, sink)
}

// What is written, with each status.
fn read_and_tell<S: Source, K: Sink>(alloc: Global, source: &mut S, sink: &mut K) -> Status
    ensures written { Told (S.left source.old) (K.written sink.old) (K.written sink.new) (λ text out. Written text result out) }
    ensures silent { IsSilent result → K.written sink.new ≡ K.written sink.old }
    ensures read_fault { result ≡ ReadFault → Rose (S.faults source.old) (S.faults source.new) }
    ensures write_fault { result ≡ WriteFault → Rose (K.faults sink.old) (K.faults sink.new) }
    ensures ways { IsOfJudge result }
    ensures read_later { S.faults source.old ≤ S.faults source.new }
    ensures write_later { K.faults sink.old ≤ K.faults sink.new }
    ensures read_still { result ≢ ReadFault → result ≢ OutOfMemory → S.faults source.new ≡ S.faults source.old }
    ensures write_still { result ≢ WriteFault → result ≢ OutOfMemory → K.faults sink.new ≡ K.faults sink.old }
    ensures source { StaysSure (S.sure source.old) (S.sure source.new) (S.faults source.old) (S.faults source.new) }
    ensures sink { StaysSure (K.sure sink.old) (K.sure sink.new) (K.faults sink.old) (K.faults sink.new) }
{
    match read_all(alloc, source) {
        Ok(text) => tell(alloc, text.as_slice(), sink),
        Err(IoErr::Failed) => Status::ReadFault,
        Err(IoErr::NoMemory) => Status::NoMemory,
    }
}

// Judges a text, and writes the verdict on it.
fn tell<K: Sink>(alloc: Global, text: &[u8], sink: &mut K) -> Status
    ensures written { (out : List ℕ) × Takes (K.written sink.old) out (K.written sink.new) × Written text.now result out }
    ensures silent { IsSilent result → K.written sink.new ≡ K.written sink.old }
    ensures write_fault { result ≡ WriteFault → Rose (K.faults sink.old) (K.faults sink.new) }
    ensures ways { IsOfJudge result }
    ensures no_read { result ≢ ReadFault }
    ensures write_later { K.faults sink.old ≤ K.faults sink.new }
    ensures write_still { result ≢ WriteFault → result ≢ OutOfMemory → K.faults sink.new ≡ K.faults sink.old }
    ensures sink { StaysSure (K.sure sink.old) (K.sure sink.new) (K.faults sink.old) (K.faults sink.new) }
{
    match verdict_on(alloc, text) {
        Ok(verdict) => write_verdict(alloc, verdict, sink),
        Err(TextFault::Outside { line }) => Status::Script { line },
        Err(TextFault::NoMemory) => Status::NoMemory,
    }
}

// The verdict on a text, which is a transcript's.
fn verdict_on(alloc: Global, text: &[u8]) -> Result<Verdict, TextFault>
    ensures judged { IfOk result (λ v. HasVerdict text.now v) }
    ensures outside { OnOutside result (λ line. IsFirstOutside text.now line) }
{
    let transcript = read(alloc, text)?;
    Ok(tg_audit::judge(alloc, &transcript)?)
}

// Writes the line of a verdict.
fn write_verdict<K: Sink>(alloc: Global, verdict: Verdict, sink: &mut K) -> Status
    ensures written { (text : List ℕ) → HasVerdict text verdict → (out : List ℕ) × Takes (K.written sink.old) out (K.written sink.new) × Written text result out }
    ensures silent { IsSilent result → K.written sink.new ≡ K.written sink.old }
    ensures write_fault { result ≡ WriteFault → Rose (K.faults sink.old) (K.faults sink.new) }
    ensures ways { IsOfJudge result }
    ensures no_read { result ≢ ReadFault }
    ensures write_later { K.faults sink.old ≤ K.faults sink.new }
    ensures write_still { result ≢ WriteFault → result ≢ OutOfMemory → K.faults sink.new ≡ K.faults sink.old }
    ensures sink { StaysSure (K.sure sink.old) (K.sure sink.new) (K.faults sink.old) (K.faults sink.new) }
{
    let Ok(line) = line_of(alloc, verdict) else {
        return Status::NoMemory;
    };
    match write_all(sink, line.as_slice()) {
        Ok(()) => status_of(verdict),
        Err(IoErr::Failed) => Status::WriteFault,
        Err(IoErr::NoMemory) => Status::NoMemory,
    }
}
