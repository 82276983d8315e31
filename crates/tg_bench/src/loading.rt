//! A made load is run as a replay runs its script, and the summary of its run is written.

ghost use Rattle.std.specs.Prelude.{◌≡◌, ◌≢◌, ◌≤◌, ◌⊎◌, ℕ, List, Some, IfOk, IsErrOf, IsSome};
ghost use Rattle.tg_base.specs.declared.fault.Which.{Which};
ghost use Rattle.tg_io.specs.Bytes.{Takes};
ghost use Rattle.tg_io.specs.Faults.{Rose, StaysSure};
ghost use Rattle.tg_io.specs.declared.fault.IoErr.TheVariants.{Failed};
ghost use Rattle.tg_io.specs.declared.status.Status.TheVariants.{Done, WriteFault, Limit, NoMemory as OutOfMemory};
ghost use Rattle.tg_protocol.specs.Worlds as seen;
ghost use Rattle.tg_world.specs.Kept.{KeepsWorld};
ghost use Rattle.tg_gen.specs.Loads.{load_text};
ghost use Rattle.tg_any.specs.AllKinds.{all_kinds};
ghost use Rattle.tg_replay.specs.Runs.{Script, IsScript, IsWithin, Tells, run_of, world_of};
ghost use Rattle.tg_replay.specs.Stages.{Finished, Ends, status_of};
ghost use Rattle.tg_replay.specs.declared.stages.End.{End};
ghost use Rattle.tg_bench.specs.Loads.{load, summary_at, summary, IsFront, IsSummed, Written, IsOfLoad};

use crate::summary::Summary;
use std::alloc::Global;
use tg_any::AnyKind;
use tg_base::{List, NoMemory};
use tg_gen::script;
use tg_io::{IoErr, MemSource, Sink, Status, write_all};
use tg_replay::{Finish, Run, read_script};

/// Runs the load that a start and a count of rounds give, as a replay does, and writes the eight lines of its summary.
pub fn bench<K: Sink>(alloc: Global, start: u64, count: u32, sink: &mut K) -> Status
    // The load is a script, and the one that its text tells.
    ensures load { IsScript (load start count) × Tells (load_text start count) (load start count) }
    // At `Done` no limit stopped its run, and what was written is the summary.
    ensures done { result ≡ Done → IsWithin (load start count) × Takes (K.written sink.old) (summary (load start count)) (K.written sink.new) }
    // At a limit the summary is that of the steps before it.
    ensures limit { (which : Which) → result ≡ Limit which → ((run_of (load start count)).stopped ≡ Some which) × Takes (K.written sink.old) (summary (load start count)) (K.written sink.new) }
    // A fault has its cause in the sink's count, which rose. A front of the summary is written then, which may be nothing.
    ensures write_fault { result ≡ WriteFault → Rose (K.faults sink.old) (K.faults sink.new) }
    ensures cut_short { (result ≡ WriteFault) ⊎ (result ≡ OutOfMemory) → IsFront (load start count) (K.written sink.old) (K.written sink.new) }
    // It ends by no other status.
    ensures ways { IsOfLoad result }
    // Without a fault each load has its status, unless memory runs out.
    ensures complete { (Rose (K.faults sink.old) (K.faults sink.new) → ⊥) → IsWithin (load start count) → (result ≡ Done) ⊎ (result ≡ OutOfMemory) }
    ensures limits { (Rose (K.faults sink.old) (K.faults sink.new) → ⊥) → (which : Which) → (run_of (load start count)).stopped ≡ Some which → (result ≡ Limit which) ⊎ (result ≡ OutOfMemory) }
    // The count of faults doesn't fall, and rises only where a fault, or want of memory, is answered.
    ensures write_later { K.faults sink.old ≤ K.faults sink.new }
    ensures write_still { result ≢ WriteFault → result ≢ OutOfMemory → K.faults sink.new ≡ K.faults sink.old }
    // What is sure never to fail stays so.
    ensures sink { StaysSure (K.sure sink.old) (K.sure sink.new) (K.faults sink.old) (K.faults sink.new) }
{
    run_and_write(alloc, start, count, sink)
}

// What is written, with each status.
fn run_and_write<K: Sink>(alloc: Global, start: u64, count: u32, sink: &mut K) -> Status
    ensures written { Written (load start count) result (K.written sink.old) (K.written sink.new) }
    ensures write_fault { result ≡ WriteFault → Rose (K.faults sink.old) (K.faults sink.new) }
    ensures write_later { K.faults sink.old ≤ K.faults sink.new }
    ensures write_still { result ≢ WriteFault → result ≢ OutOfMemory → K.faults sink.new ≡ K.faults sink.old }
    ensures sink { StaysSure (K.sure sink.old) (K.sure sink.new) (K.faults sink.old) (K.faults sink.new) }
{
    match run_load(alloc, start, count) {
        Ok(finish) => report(alloc, finish, sink),
        Err(IoErr::NoMemory) => Status::NoMemory,
        // The text's source names no call that fails.
        Err(IoErr::Failed) => unreachable!(),
    }
}

// Reads the load's text to its end, or to where a limit stops its run.
fn run_load(alloc: Global, start: u64, count: u32) -> Result<Finish, IoErr>
    ensures finished { IfOk result (Finished (load_text start count)) }
    ensures never_fails { IsErrOf result Failed → ⊥ }
{
    let text = script(alloc, start, count)?;
    let mut source = MemSource::new(text, List::new(alloc));
    read_script(alloc, &mut source)
}

// Writes the summary of what reading has come to.
fn report<K: Sink>(alloc: Global, finish: Finish, sink: &mut K) -> Status
    requires { IsSome finish.run }
    ensures written { (s : Script) (text : List ℕ) → IsScript s → Tells text s → Finished text finish → Written s result (K.written sink.old) (K.written sink.new) }
    ensures write_fault { result ≡ WriteFault → Rose (K.faults sink.old) (K.faults sink.new) }
    ensures write_later { K.faults sink.old ≤ K.faults sink.new }
    ensures write_still { result ≢ WriteFault → result ≢ OutOfMemory → K.faults sink.new ≡ K.faults sink.old }
    ensures sink { StaysSure (K.sure sink.old) (K.sure sink.new) (K.faults sink.old) (K.faults sink.new) }
{
    let Ok(text) = text_of(alloc, &finish.run) else {
        return Status::NoMemory;
    };
    match write_all(sink, text.as_slice()) {
        Ok(()) => finish.end.status(),
        Err(IoErr::Failed) => Status::WriteFault,
        Err(IoErr::NoMemory) => Status::NoMemory,
    }
}

// The summary of a run. An `Err` is want of memory.
fn text_of(alloc: Global, run: &Option<Run>) -> Result<List<u8>, NoMemory>
    requires { IsSome run.now }
    ensures { IfOk result (λ out. (s : Script) (text : List ℕ) (end : End) → IsScript s → Tells text s → Ends text (status_of end) run.now → IsSummed s end out) }
{
    match run {
        None => unreachable!(),
        Some(run) => summary_of(alloc, run),
    }
}

// The summary of a run's world. An `Err` is want of memory.
fn summary_of(alloc: Global, run: &Run) -> Result<List<u8>, NoMemory>
    ensures { (w : seen.World all_kinds) → KeepsWorld all_kinds run.now.world w → IfOk result (λ text. text ≡ summary_at run.now.world.event w) }
{
    let history = run.world.history(alloc)?;
    Summary::of::<AnyKind>(
        run.world.event(),
        run.world.sent(),
        run.world.trace(),
        history.as_slice(),
    )
    .text(alloc)
}
