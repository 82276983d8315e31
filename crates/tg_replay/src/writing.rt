//! A replay: a script is read from a source, and the transcript of its run is written to a sink.

ghost use Rattle.std.specs.Prelude.{◌≡◌, ◌≢◌, ◌≤◌, ◌⊎◌, ℕ, List, IfOk, IfSome};
ghost use Rattle.tg_base.specs.declared.fault.Which.{Which};
ghost use Rattle.tg_io.specs.Bytes.{Takes};
ghost use Rattle.tg_io.specs.Faults.{Rose, StaysSure};
ghost use Rattle.tg_io.specs.declared.status.Status as status;
ghost use Rattle.tg_io.specs.declared.status.Status.TheVariants.{Done, Script as AtLine, ReadFault, WriteFault, Limit, NoMemory as OutOfMemory};
ghost use Rattle.tg_lines.specs.Feeds.{NoneOutside};
ghost use Rattle.tg_protocol.specs.Worlds as seen;
ghost use Rattle.tg_world.specs.Kept.{KeepsWorld};
ghost use Rattle.tg_any.specs.AllKinds.{all_kinds};
ghost use Rattle.tg_replay.specs.Runs.{IsOutsideAt, Script, IsScript, IsWithin, Tells, FirstOutside, PassesLimit, Replayed, Refused, Limited, Outcome, transcript};
ghost use Rattle.tg_replay.specs.Stages.{Finished, Ends};
ghost use Rattle.tg_replay.specs.Outcomes.{Told, Written, IsCutShort, IsOfReplay};

use crate::reading::read_script;
use crate::stages::{Finish, Run};
use std::alloc::Global;
use tg_base::{List, NoMemory};
use tg_io::{IoErr, Sink, Source, Status, write_all};
use tg_trace::render;

/// Reads a script from the source, and writes the transcript of its run to the sink.
pub fn replay<S: Source, K: Sink>(alloc: Global, source: &mut S, sink: &mut K) -> Status
    // At `Done` the text was read to its end, and what was written is the transcript of the world of its script.
    ensures done { result ≡ Done → Told (S.left source.old) (K.written sink.old) (K.written sink.new) Replayed }
    // A line is refused that is the first outside, after the transcript of the events before it.
    ensures script { (line : ℕ) → result ≡ AtLine line → Told (S.left source.old) (K.written sink.old) (K.written sink.new) (λ text out. Refused text line out) }
    // A limit stops a run, after the transcript of the steps before it.
    ensures limit { (which : Which) → result ≡ Limit which → Told (S.left source.old) (K.written sink.old) (K.written sink.new) (λ text out. Limited text which out) }
    // A fault has its cause in a count that rose.
    ensures read_fault { result ≡ ReadFault → Rose (S.faults source.old) (S.faults source.new) }
    ensures write_fault { result ≡ WriteFault → Rose (K.faults sink.old) (K.faults sink.new) }
    // A read fault is answered only where none of the lines that came whole before it is outside.
    ensures first { result ≡ ReadFault → IfSome (S.left source.old) (λ text. NoneOutside text (S.left source.new) (IsOutsideAt text)) }
    // No count of faults falls, and each rises only where its fault, or want of memory, is answered.
    ensures read_later { S.faults source.old ≤ S.faults source.new }
    ensures write_later { K.faults sink.old ≤ K.faults sink.new }
    ensures read_still { result ≢ ReadFault → result ≢ OutOfMemory → S.faults source.new ≡ S.faults source.old }
    ensures write_still { result ≢ WriteFault → result ≢ OutOfMemory → K.faults sink.new ≡ K.faults sink.old }
    // What is written then is a front of a transcript, or nothing.
    ensures cut_short { (result ≡ WriteFault) ⊎ (result ≡ OutOfMemory) → Told (S.left source.old) (K.written sink.old) (K.written sink.new) IsCutShort }
    ensures silent { result ≡ ReadFault → K.written sink.new ≡ K.written sink.old }
    ensures ways { IsOfReplay result }
    // Without a fault each text has its status, unless memory runs out.
    ensures complete { (Rose (S.faults source.old) (S.faults source.new) → ⊥) → (Rose (K.faults sink.old) (K.faults sink.new) → ⊥) →
        IfSome (S.left source.old) (λ text. (s : Script) → IsScript s → IsWithin s → Tells text s → (result ≡ Done) ⊎ (result ≡ OutOfMemory)) }
    ensures refuses { (Rose (S.faults source.old) (S.faults source.new) → ⊥) → (Rose (K.faults sink.old) (K.faults sink.new) → ⊥) →
        IfSome (S.left source.old) (λ text. (line : ℕ) (s : Script) → FirstOutside text line s → (result ≡ AtLine line) ⊎ (result ≡ OutOfMemory)) }
    ensures limits { (Rose (S.faults source.old) (S.faults source.new) → ⊥) → (Rose (K.faults sink.old) (K.faults sink.new) → ⊥) →
        IfSome (S.left source.old) (λ text. (which : Which) (s : Script) → PassesLimit text which s → (result ≡ Limit which) ⊎ (result ≡ OutOfMemory)) }
    // What is sure never to fail stays so.
    ensures source { StaysSure (S.sure source.old) (S.sure source.new) (S.faults source.old) (S.faults source.new) }
    ensures sink { StaysSure (K.sure sink.old) (K.sure sink.new) (K.faults sink.old) (K.faults sink.new) }
{
    read_and_write(alloc, source, sink)
}

// What is written, with each status.
fn read_and_write<S: Source, K: Sink>(alloc: Global, source: &mut S, sink: &mut K) -> Status
    ensures written { Told (S.left source.old) (K.written sink.old) (K.written sink.new) (λ text out. Written text result out) }
    ensures silent { result ≡ ReadFault → K.written sink.new ≡ K.written sink.old }
    ensures read_fault { result ≡ ReadFault → Rose (S.faults source.old) (S.faults source.new) }
    ensures write_fault { result ≡ WriteFault → Rose (K.faults sink.old) (K.faults sink.new) }
    ensures first { result ≡ ReadFault → IfSome (S.left source.old) (λ text. NoneOutside text (S.left source.new) (IsOutsideAt text)) }
    ensures read_later { S.faults source.old ≤ S.faults source.new }
    ensures write_later { K.faults sink.old ≤ K.faults sink.new }
    ensures read_still { result ≢ ReadFault → result ≢ OutOfMemory → S.faults source.new ≡ S.faults source.old }
    ensures write_still { result ≢ WriteFault → result ≢ OutOfMemory → K.faults sink.new ≡ K.faults sink.old }
    ensures ways { IsOfReplay result }
    ensures source { StaysSure (S.sure source.old) (S.sure source.new) (S.faults source.old) (S.faults source.new) }
    ensures sink { StaysSure (K.sure sink.old) (K.sure sink.new) (K.faults sink.old) (K.faults sink.new) }
{
    match read_script(alloc, source) {
        Ok(finish) => report(alloc, finish, sink),
        Err(IoErr::Failed) => Status::ReadFault,
        Err(IoErr::NoMemory) => Status::NoMemory,
    }
}

// Writes the transcript of what reading has come to.
fn report<K: Sink>(alloc: Global, finish: Finish, sink: &mut K) -> Status
    ensures written { (text : List ℕ) → Finished text finish → (out : List ℕ) × Takes (K.written sink.old) out (K.written sink.new) × Written text result out }
    ensures write_fault { result ≡ WriteFault → Rose (K.faults sink.old) (K.faults sink.new) }
    ensures ways { IsOfReplay result }
    ensures no_read { result ≢ ReadFault }
    ensures write_later { K.faults sink.old ≤ K.faults sink.new }
    ensures write_still { result ≢ WriteFault → result ≢ OutOfMemory → K.faults sink.new ≡ K.faults sink.old }
    ensures sink { StaysSure (K.sure sink.old) (K.sure sink.new) (K.faults sink.old) (K.faults sink.new) }
{
    let Ok(text) = text_of(alloc, &finish.run) else {
        return Status::NoMemory;
    };
    match write_all(sink, text.as_slice()) {
        Ok(()) => finish.end.status(),
        Err(IoErr::Failed) => Status::WriteFault,
        Err(IoErr::NoMemory) => Status::NoMemory,
    }
}

// The transcript of a run, or nothing of none.
fn text_of(alloc: Global, run: &Option<Run>) -> Result<List<u8>, NoMemory>
    ensures { IfOk result (λ out. (text : List ℕ) (end : status.Status) → Ends text end run.now → Outcome text end out) }
{
    match run {
        None => Ok(List::new(alloc)),
        Some(run) => run.transcript(alloc),
    }
}

impl Run {
    /// The transcript of its world. An `Err` is want of memory.
    pub fn transcript(&self, alloc: Global) -> Result<List<u8>, NoMemory>
        ensures { (w : seen.World all_kinds) → KeepsWorld all_kinds self.now.world w → IfOk result (λ text. text ≡ transcript self.now.cluster w) }
    {
        let history = self.world.history(alloc)?;
        render(
            alloc,
            self.cluster.objects.as_slice(),
            self.world.trace(),
            history.as_slice(),
        )
    }
}
