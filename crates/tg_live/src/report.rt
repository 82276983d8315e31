//! A live run: a script is read from a source, its packets go over a link, and the recording and its transcript are
//! written to a sink.

ghost use Rattle.std.specs.Prelude.{◌≡◌, ◌≢◌, ◌≤◌, ◌⊎◌, ℕ, List, Option, IfOk, IfSome};
ghost use Rattle.tg_base.specs.Clusters.{Header};
ghost use Rattle.tg_base.specs.declared.fault.Which.{Which};
ghost use Rattle.tg_io.specs.Bytes.{Takes};
ghost use Rattle.tg_io.specs.Faults.{Rose, StaysSure};
ghost use Rattle.tg_io.specs.declared.status.Status as status;
ghost use Rattle.tg_io.specs.declared.status.Status.TheVariants.{Done, Script as AtLine, ReadFault, WriteFault, LinkFault, Limit, NoMemory as OutOfMemory};
ghost use Rattle.tg_lines.specs.Feeds.{NoneOutside};
ghost use Rattle.tg_protocol.specs.Worlds as seen;
ghost use Rattle.tg_world.specs.Kept.{KeepsWorld};
ghost use Rattle.tg_any.specs.AllKinds.{all_kinds};
ghost use Rattle.tg_replay.specs.Outcomes.{Told};
ghost use Rattle.tg_replay.specs.Runs.{Script, Tells, transcript};
ghost use Rattle.tg_live.specs.Kept.{Keeps};
ghost use Rattle.tg_live.specs.Breaks.{IsDone};
ghost use Rattle.tg_live.specs.Sends.{Carried, carried};
ghost use Rattle.tg_live.specs.Lives.{Live as live};
ghost use Rattle.tg_live.specs.Outcomes.{Written, IsCutShort, IsOfLive, IsOrStops};
ghost use Rattle.tg_live.specs.Scripts.{IsOutsideAt, Over, IsLiveScript, Replayed, FirstOutside, Refused, Limited, PassesLimit, PassesNone, Outcome, printed};
ghost use Rattle.tg_live.specs.Stages.{Finished, Ends, over};

use crate::live::Live;
use crate::running::run_script;
use crate::stages::{Finish, Stop};
use std::alloc::Global;
use tg_base::{List, NoMemory};
use tg_io::{IoErr, Link, Sink, Source, Status, write_all};
use tg_script::print_header;
use tg_trace::render;

/// Runs a script without `deliver` and `lose` lines over a link. It writes the recording, which is a script, the line
/// `transcript`, and the recording's transcript.
pub fn run<S: Source, K: Sink, L: Link>(
    alloc: Global,
    source: &mut S,
    sink: &mut K,
    link: &mut L,
) -> Status
    // At `Done` the text was read to its end, and a live run of its script took the answers that the link handed over and
    // sent the packets of its world, in the order of one list in which a packet goes out when its step is made; and it was
    // printed: its recording, whose world is the run's, and its transcript.
    ensures done { result ≡ Done → Told (S.left source.old) (K.written sink.old) (K.written sink.new) (Replayed (over (L.handed link.old) (L.handed link.new) (carried (L.sent link.old) (L.acts link.old)) (carried (L.sent link.new) (L.acts link.new)))) }
    // A line is refused that is the first outside, after the live run of the lines before it.
    ensures script { (line : ℕ) → result ≡ AtLine line → Told (S.left source.old) (K.written sink.old) (K.written sink.new) (λ text out. Refused (over (L.handed link.old) (L.handed link.new) (carried (L.sent link.old) (L.acts link.old)) (carried (L.sent link.new) (L.acts link.new))) text line out) }
    // A limit stops a run, which is printed as far as it came.
    ensures limit { (which : Which) → result ≡ Limit which → Told (S.left source.old) (K.written sink.old) (K.written sink.new) (λ text out. Limited (over (L.handed link.old) (L.handed link.new) (carried (L.sent link.old) (L.acts link.old)) (carried (L.sent link.new) (L.acts link.new))) text which out) }
    // A fault has its cause in a count that rose.
    ensures read_fault { result ≡ ReadFault → Rose (S.faults source.old) (S.faults source.new) }
    ensures write_fault { result ≡ WriteFault → Rose (K.faults sink.old) (K.faults sink.new) }
    ensures link_fault { result ≡ LinkFault → Rose (L.faults link.old) (L.faults link.new) }
    // A read fault is answered only where none of the lines that came whole before it is outside.
    ensures first { result ≡ ReadFault → IfSome (S.left source.old) (λ text. NoneOutside text (S.left source.new) (IsOutsideAt text)) }
    // No count of faults falls, and each rises only where its fault, or want of memory, is answered.
    ensures read_later { S.faults source.old ≤ S.faults source.new }
    ensures write_later { K.faults sink.old ≤ K.faults sink.new }
    ensures link_later { L.faults link.old ≤ L.faults link.new }
    ensures read_still { result ≢ ReadFault → result ≢ OutOfMemory → S.faults source.new ≡ S.faults source.old }
    ensures write_still { result ≢ WriteFault → result ≢ OutOfMemory → K.faults sink.new ≡ K.faults sink.old }
    ensures link_still { result ≢ LinkFault → result ≢ OutOfMemory → L.faults link.new ≡ L.faults link.old }
    // What is written then is a front of what a run prints, or nothing.
    ensures cut_short { (result ≡ WriteFault) ⊎ (result ≡ OutOfMemory) → Told (S.left source.old) (K.written sink.old) (K.written sink.new) (IsCutShort (over (L.handed link.old) (L.handed link.new) (carried (L.sent link.old) (L.acts link.old)) (carried (L.sent link.new) (L.acts link.new)))) }
    ensures silent { (result ≡ ReadFault) ⊎ (result ≡ LinkFault) → K.written sink.new ≡ K.written sink.old }
    // Whatever the status, a front was done with the link of what a live run does of lines with which the text begins, or
    // nothing.
    ensures acts { IfSome (S.left source.old) (λ text. IsDone text (L.acts link.old) (L.acts link.new)) }
    ensures ways { IsOfLive result }
    // Without a fault the run of a text ends by it or by a limit, whatever the link tells, unless memory runs out.
    ensures ends { (Rose (S.faults source.old) (S.faults source.new) → ⊥) → (Rose (K.faults sink.old) (K.faults sink.new) → ⊥) → (Rose (L.faults link.old) (L.faults link.new) → ⊥) →
        IfSome (S.left source.old) (λ text. (s : Script) → IsLiveScript s → Tells text s → IsOrStops result Done) }
    ensures refuses_or_ends { (Rose (S.faults source.old) (S.faults source.new) → ⊥) → (Rose (K.faults sink.old) (K.faults sink.new) → ⊥) → (Rose (L.faults link.old) (L.faults link.new) → ⊥) →
        IfSome (S.left source.old) (λ text. (line : ℕ) (before : Script) → FirstOutside text line before → IsOrStops result (AtLine line)) }
    // Of a link that tells what it handed: each text has its status, since the answers say whether a limit is passed.
    ensures complete { (Rose (S.faults source.old) (S.faults source.new) → ⊥) → (Rose (K.faults sink.old) (K.faults sink.new) → ⊥) → (Rose (L.faults link.old) (L.faults link.new) → ⊥) →
        IfSome (S.left source.old) (λ text. (s : Script) → IsLiveScript s → Tells text s → PassesNone (over (L.handed link.old) (L.handed link.new) (carried (L.sent link.old) (L.acts link.old)) (carried (L.sent link.new) (L.acts link.new))) text → (result ≡ Done) ⊎ (result ≡ OutOfMemory)) }
    ensures refuses { (Rose (S.faults source.old) (S.faults source.new) → ⊥) → (Rose (K.faults sink.old) (K.faults sink.new) → ⊥) → (Rose (L.faults link.old) (L.faults link.new) → ⊥) →
        IfSome (S.left source.old) (λ text. (line : ℕ) (before : Script) → FirstOutside text line before → PassesNone (over (L.handed link.old) (L.handed link.new) (carried (L.sent link.old) (L.acts link.old)) (carried (L.sent link.new) (L.acts link.new))) text → (result ≡ AtLine line) ⊎ (result ≡ OutOfMemory)) }
    ensures limits { (Rose (S.faults source.old) (S.faults source.new) → ⊥) → (Rose (K.faults sink.old) (K.faults sink.new) → ⊥) → (Rose (L.faults link.old) (L.faults link.new) → ⊥) →
        IfSome (S.left source.old) (λ text. IfSome (L.handed link.old) (λ handed. (which : Which) → PassesLimit (over (L.handed link.old) (L.handed link.new) (carried (L.sent link.old) (L.acts link.old)) (carried (L.sent link.new) (L.acts link.new))) text which → (result ≡ Limit which) ⊎ (result ≡ OutOfMemory))) }
    // What is sure never to fail stays so.
    ensures source { StaysSure (S.sure source.old) (S.sure source.new) (S.faults source.old) (S.faults source.new) }
    ensures sink { StaysSure (K.sure sink.old) (K.sure sink.new) (K.faults sink.old) (K.faults sink.new) }
    ensures link { StaysSure (L.sure link.old) (L.sure link.new) (L.faults link.old) (L.faults link.new) }
{
    run_and_write(alloc, source, sink, link)
}

// What is written, with each status.
fn run_and_write<S: Source, K: Sink, L: Link>(
    alloc: Global,
    source: &mut S,
    sink: &mut K,
    link: &mut L,
) -> Status
    ensures written { Told (S.left source.old) (K.written sink.old) (K.written sink.new) (λ text out. Written (over (L.handed link.old) (L.handed link.new) (carried (L.sent link.old) (L.acts link.old)) (carried (L.sent link.new) (L.acts link.new))) text result out) }
    ensures acts { IfSome (S.left source.old) (λ text. IsDone text (L.acts link.old) (L.acts link.new)) }
    ensures silent { (result ≡ ReadFault) ⊎ (result ≡ LinkFault) → K.written sink.new ≡ K.written sink.old }
    ensures read_fault { result ≡ ReadFault → Rose (S.faults source.old) (S.faults source.new) }
    ensures write_fault { result ≡ WriteFault → Rose (K.faults sink.old) (K.faults sink.new) }
    ensures link_fault { result ≡ LinkFault → Rose (L.faults link.old) (L.faults link.new) }
    ensures first { result ≡ ReadFault → IfSome (S.left source.old) (λ text. NoneOutside text (S.left source.new) (IsOutsideAt text)) }
    ensures read_later { S.faults source.old ≤ S.faults source.new }
    ensures write_later { K.faults sink.old ≤ K.faults sink.new }
    ensures link_later { L.faults link.old ≤ L.faults link.new }
    ensures read_still { result ≢ ReadFault → result ≢ OutOfMemory → S.faults source.new ≡ S.faults source.old }
    ensures write_still { result ≢ WriteFault → result ≢ OutOfMemory → K.faults sink.new ≡ K.faults sink.old }
    ensures link_still { result ≢ LinkFault → result ≢ OutOfMemory → L.faults link.new ≡ L.faults link.old }
    ensures ways { IsOfLive result }
    ensures source { StaysSure (S.sure source.old) (S.sure source.new) (S.faults source.old) (S.faults source.new) }
    ensures sink { StaysSure (K.sure sink.old) (K.sure sink.new) (K.faults sink.old) (K.faults sink.new) }
    ensures link { StaysSure (L.sure link.old) (L.sure link.new) (L.faults link.old) (L.faults link.new) }
{
    match run_script(alloc, source, link) {
        Ok(finish) => report(alloc, finish, sink),
        Err(Stop::Read) => Status::ReadFault,
        Err(Stop::Carry) => Status::LinkFault,
        Err(Stop::NoMemory) => Status::NoMemory,
    }
}

// Writes what a run has come to.
fn report<K: Sink>(alloc: Global, finish: Finish, sink: &mut K) -> Status
    ensures written { (o : Over) (text : List ℕ) → Finished o text finish → (out : List ℕ) × Takes (K.written sink.old) out (K.written sink.new) × Written o text result out }
    ensures write_fault { result ≡ WriteFault → Rose (K.faults sink.old) (K.faults sink.new) }
    ensures ways { IsOfLive result }
    ensures write_later { K.faults sink.old ≤ K.faults sink.new }
    ensures write_still { result ≢ WriteFault → result ≢ OutOfMemory → K.faults sink.new ≡ K.faults sink.old }
    ensures no_read { result ≢ ReadFault }
    ensures no_link { result ≢ LinkFault }
    ensures sink { StaysSure (K.sure sink.old) (K.sure sink.new) (K.faults sink.old) (K.faults sink.new) }
{
    let Ok(text) = text_of(alloc, &finish.live) else {
        return Status::NoMemory;
    };
    match write_all(sink, text.as_slice()) {
        Ok(()) => finish.end.status(),
        Err(IoErr::Failed) => Status::WriteFault,
        Err(IoErr::NoMemory) => Status::NoMemory,
    }
}

// What is printed of a live run, or nothing of none.
fn text_of(alloc: Global, live: &Option<Live>) -> Result<List<u8>, NoMemory>
    ensures { IfOk result (λ out. (o : Over) (text : List ℕ) (end : status.Status) → Ends o text end live.now → Outcome o text end out) }
{
    match live {
        None => Ok(List::new(alloc)),
        Some(live) => live.text(alloc),
    }
}

impl Live {
    // The recording, the line `transcript`, and the transcript. An `Err` is want of memory.
    fn text(&self, alloc: Global) -> Result<List<u8>, NoMemory>
        ensures { (h : Header) (first : Carried) (now : Carried) (l : live) → Keeps h first now self.now l → IfOk result (λ out. out ≡ printed h l) }
    {
        let transcript = self.transcript(alloc)?;
        let mut text = List::new(alloc);
        print_header(alloc, &self.cluster, &mut text)?;
        text.extend(self.recording.as_slice())?;
        text.extend(b"transcript\n")?;
        text.extend(transcript.as_slice())?;
        Ok(text)
    }

    // The transcript of its world. An `Err` is want of memory.
    fn transcript(&self, alloc: Global) -> Result<List<u8>, NoMemory>
        ensures { (w : seen.World all_kinds) → KeepsWorld all_kinds self.now.world w → IfOk result (λ text. text ≡ transcript self.now.cluster w) }
    {
        let history = self.world.history(alloc)?;
        render(
            alloc,
            self.cluster.objects.as_slice(),
            self.world.trace(),
            history.as_slice(),
        )
    }
}
