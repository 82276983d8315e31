//! The top call: a script is read from a source, and the picture of its run is written to a sink.

ghost use Rattle.std.specs.Prelude.{◌≡◌, ◌≢◌, ◌⊎◌, ℕ, List, None, Some, map, IfSome, IfOk, IsSome, string_bytes};
ghost use Rattle.tg_base.specs.declared.fault.Which.{Which};
ghost use Rattle.tg_io.specs.Bytes.{Takes};
ghost use Rattle.tg_io.specs.Faults.{Rose, StaysSure};
ghost use Rattle.tg_io.specs.declared.status.Status as status;
ghost use Rattle.tg_io.specs.declared.status.Status.TheVariants.{Done, Words, Script as AtLine, ReadFault, WriteFault, Limit, NoMemory as OutOfMemory};
ghost use Rattle.tg_replay.specs.Runs.{Script, IsScript, IsWithin, Tells, FirstOutside, PassesLimit};
ghost use Rattle.tg_replay.specs.Outcomes.{IsOfReplay, Told};
ghost use Rattle.tg_replay.specs.Stages.{Finished, status_of};
ghost use Rattle.space_time.specs.declared.cut.Cut.{Cut as Lines};
ghost use Rattle.space_time.specs.Cuts.{cut_of};
ghost use Rattle.space_time.specs.Endings.{EndsAsReplay, IsDrawnAt};
ghost use Rattle.space_time.specs.Pictures.{IsPictured};
ghost use Rattle.space_time.specs.Records.{finish_in, HasRecord};

use crate::cut::Cut;
use crate::drawing::picture_of;
use crate::reading::record_script;
use crate::recording::Recorded;
use crate::words::cut_of;
use std::alloc::Global;
use tg_base::{List, NoMemory};
use tg_io::{IoErr, Sink, Source, Status, write_all};
use tg_picture::draw;

/// Runs the program. `words` are those after its name.
pub fn space_time<S: Source, K: Sink>(
    alloc: Global,
    words: &[String],
    source: &mut S,
    sink: &mut K,
) -> Status
    // Words that name no cut are told so, and no others; nothing is read or written then.
    ensures words { result ≡ Words → cut_of (map string_bytes words.now) ≡ None }
    ensures no_form { cut_of (map string_bytes words.now) ≡ None → result ≡ Words }
    ensures no_output { cut_of (map string_bytes words.now) ≡ None → (source.new ≡ source.old) × (sink.new ≡ sink.old) }
    // Else a picture of the run is written that a replay of the text ends in, cut by the lines that the words name.
    ensures pictured { (cut : Lines) → cut_of (map string_bytes words.now) ≡ Some cut → IsDrawnAt result → Told (S.left source.old) (K.written sink.old) (K.written sink.new) (IsPictured cut result) }
    // The status is one with which a replay of the text may end.
    ensures as_replay { IsSome (cut_of (map string_bytes words.now)) → IfSome (S.left source.old) (EndsAsReplay result) }
    ensures ways { IsSome (cut_of (map string_bytes words.now)) → IsOfReplay result }
    // A fault has its cause in a count that rose.
    ensures read_fault { result ≡ ReadFault → Rose (S.faults source.old) (S.faults source.new) }
    ensures write_fault { result ≡ WriteFault → Rose (K.faults sink.old) (K.faults sink.new) }
    ensures silent { result ≡ ReadFault → K.written sink.new ≡ K.written sink.old }
    // Without a fault each text has its status, unless memory runs out.
    ensures complete { IsSome (cut_of (map string_bytes words.now)) → (Rose (S.faults source.old) (S.faults source.new) → ⊥) → (Rose (K.faults sink.old) (K.faults sink.new) → ⊥) →
        IfSome (S.left source.old) (λ text. (s : Script) → IsScript s → IsWithin s → Tells text s → (result ≡ Done) ⊎ (result ≡ OutOfMemory)) }
    ensures refuses { IsSome (cut_of (map string_bytes words.now)) → (Rose (S.faults source.old) (S.faults source.new) → ⊥) → (Rose (K.faults sink.old) (K.faults sink.new) → ⊥) →
        IfSome (S.left source.old) (λ text. (line : ℕ) (s : Script) → FirstOutside text line s → (result ≡ AtLine line) ⊎ (result ≡ OutOfMemory)) }
    ensures limits { IsSome (cut_of (map string_bytes words.now)) → (Rose (S.faults source.old) (S.faults source.new) → ⊥) → (Rose (K.faults sink.old) (K.faults sink.new) → ⊥) →
        IfSome (S.left source.old) (λ text. (which : Which) (s : Script) → PassesLimit text which s → (result ≡ Limit which) ⊎ (result ≡ OutOfMemory)) }
    // What is sure never to fail stays so.
    ensures source { StaysSure (S.sure source.old) (S.sure source.new) (S.faults source.old) (S.faults source.new) }
    ensures sink { StaysSure (K.sure sink.old) (K.sure sink.new) (K.faults sink.old) (K.faults sink.new) }
{
    match cut_of(words) {
        None => Status::Words,
        Some(cut) => read_and_draw(alloc, cut, source, sink),
    }
}

// Reads a script, and writes the picture of its run.
fn read_and_draw<S: Source, K: Sink>(
    alloc: Global,
    cut: Cut,
    source: &mut S,
    sink: &mut K,
) -> Status
    ensures pictured { IsDrawnAt result → Told (S.left source.old) (K.written sink.old) (K.written sink.new) (IsPictured cut result) }
    ensures as_replay { IfSome (S.left source.old) (EndsAsReplay result) }
    ensures ways { IsOfReplay result }
    ensures read_fault { result ≡ ReadFault → Rose (S.faults source.old) (S.faults source.new) }
    ensures write_fault { result ≡ WriteFault → Rose (K.faults sink.old) (K.faults sink.new) }
    ensures silent { result ≡ ReadFault → K.written sink.new ≡ K.written sink.old }
    ensures source { StaysSure (S.sure source.old) (S.sure source.new) (S.faults source.old) (S.faults source.new) }
    ensures sink { StaysSure (K.sure sink.old) (K.sure sink.new) (K.faults sink.old) (K.faults sink.new) }
{
    match record_script(alloc, source) {
        Ok(recorded) => report(alloc, recorded, cut, sink),
        Err(IoErr::Failed) => Status::ReadFault,
        Err(IoErr::NoMemory) => Status::NoMemory,
    }
}

// Writes the picture of what reading has come to.
fn report<K: Sink>(alloc: Global, recorded: Recorded, cut: Cut, sink: &mut K) -> Status
    requires { HasRecord recorded }
    ensures pictured { IsDrawnAt result → (text : List ℕ) → Finished text (finish_in recorded) → (out : List ℕ) × Takes (K.written sink.old) out (K.written sink.new) × IsPictured cut result text out }
    ensures as_replay { (text : List ℕ) → Finished text (finish_in recorded) → EndsAsReplay result text }
    ensures ways { IsOfReplay result }
    ensures write_fault { result ≡ WriteFault → Rose (K.faults sink.old) (K.faults sink.new) }
    ensures no_read { result ≢ ReadFault }
    ensures sink { StaysSure (K.sure sink.old) (K.sure sink.new) (K.faults sink.old) (K.faults sink.new) }
{
    let Ok(text) = text_of(alloc, &recorded, cut) else {
        return Status::NoMemory;
    };
    match write_all(sink, text.as_slice()) {
        Ok(()) => recorded.end.status(),
        Err(IoErr::Failed) => Status::WriteFault,
        Err(IoErr::NoMemory) => Status::NoMemory,
    }
}

// The text of the picture, or nothing where no header was read.
fn text_of(alloc: Global, recorded: &Recorded, cut: Cut) -> Result<List<u8>, NoMemory>
    requires { HasRecord recorded.now }
    ensures { IfOk result (λ out. (text : List ℕ) → Finished text (finish_in recorded.now) → IsPictured cut (status_of recorded.now.end) text out) }
{
    match &recorded.recording {
        None => Ok(List::new(alloc)),
        Some(recording) => {
            let picture = picture_of(alloc, recording, recorded.end, cut)?;
            draw(alloc, &picture)
        }
    }
}
