//! Reading a script from a source.

ghost use Rattle.std.specs.Prelude.{◌≡◌, ◌<◌, ◌+◌, ◌^◌, ℕ, List, length, IfOk, IfSome, IsErrOf};
ghost use Rattle.tg_io.specs.Faults.{HasCause, StaysSure};
ghost use Rattle.tg_io.specs.declared.fault.IoErr.TheVariants.{Failed};
ghost use Rattle.tg_lines.specs.Feeds.{NoneOutside};
ghost use Rattle.tg_lines.specs.Lines.{ahead};
ghost use Rattle.tg_world.specs.Kept.{IsWorld};
ghost use Rattle.tg_any.specs.AllKinds.{all_kinds};
ghost use Rattle.tg_replay.specs.Runs.{IsOutsideAt};
ghost use Rattle.tg_replay.specs.Stages.{Finished, Reads};

use crate::stages::{End, Fed, Finish, Run};
use std::alloc::Global;
use tg_io::{IoErr, Source};
use tg_lines::{LineReader, Opening, read_header};

/// Reads a script to its end, or to where its run ends.
pub fn read_script<S: Source>(alloc: Global, source: &mut S) -> Result<Finish, IoErr>
    ensures finished { IfSome (S.left source.old) (λ text. IfOk result (Finished text)) }
    ensures cause { HasCause (S.faults source.old) (S.faults source.new) result }
    ensures sure { StaysSure (S.sure source.old) (S.sure source.new) (S.faults source.old) (S.faults source.new) }
    // Where the source fails, none of the lines that came whole is outside.
    ensures first { IsErrOf result Failed → IfSome (S.left source.old) (λ text. NoneOutside text (S.left source.new) (IsOutsideAt text)) }
    ensures still { IfOk result (λ finish. S.faults source.new ≡ S.faults source.old) }
{
    let mut reader = LineReader::new();
    match read_header(alloc, &mut reader, source)? {
        Opening::Outside { line } => Ok(Finish {
            end: End::Outside { line },
            run: None,
        }),
        Opening::Opens(cluster) => {
            let run = Run::start(alloc, cluster)?;
            read_events(alloc, run, &mut reader, source)
        }
    }
}

// Reads the events of a script.
fn read_events<S: Source>(
    alloc: Global,
    run: Run,
    reader: &mut LineReader,
    source: &mut S,
) -> Result<Finish, IoErr>
    requires kept { IsWorld all_kinds run.world }
    // A source gives fewer than 2^64 bytes, and each line takes one at least.
    requires room { run.world.event + 3 + (length reader.old + S.room source.old) < 2 ^ 64 }
    ensures finished { IfSome (ahead reader.old (S.left source.old)) (λ rest. (text : List ℕ) → Reads text run rest → IfOk result (Finished text)) }
    ensures cause { HasCause (S.faults source.old) (S.faults source.new) result }
    ensures sure { StaysSure (S.sure source.old) (S.sure source.new) (S.faults source.old) (S.faults source.new) }
    ensures first { IsErrOf result Failed → IfSome (ahead reader.old (S.left source.old)) (λ rest. (text : List ℕ) → Reads text run rest → NoneOutside text (S.left source.new) (IsOutsideAt text)) }
    ensures still { IfOk result (λ finish. S.faults source.new ≡ S.faults source.old) }
{
    let mut run = run;
    while let Some(line) = reader.next(alloc, source)? {
        match run.feed(alloc, line.as_slice())? {
            Fed::Goes(next) => run = next,
            Fed::Stops(finish) => return Ok(finish),
        }
    }
    Ok(Finish {
        end: End::Whole,
        run: Some(run),
    })
}
