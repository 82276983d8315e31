//! Reading a script from a source.

ghost use Rattle.std.specs.Prelude.{◌≡◌, ◌<◌, ◌+◌, ◌^◌, ◌++◌, ◌∷◌, [], ℕ, List, length, None, Some, IfOk, IfSome, IsTrue, ◌↔◌};
ghost use Rattle.tg_io.specs.Faults.{HasCause, StaysSure};
ghost use Rattle.tg_lines.specs.Lines.{ahead, lines};
ghost use Rattle.tg_protocol.specs.Worlds as seen;
ghost use Rattle.tg_world.specs.Kept.{KeepsWorld};
ghost use Rattle.tg_script.specs.Lines.{IsLine};
ghost use Rattle.tg_script.specs.declared.line.Line.{Line as Parsed};
ghost use Rattle.tg_base.specs.declared.fault.Which.{Which as Limits};
ghost use Rattle.tg_any.specs.AllKinds.{all_kinds};
ghost use Rattle.tg_replay.specs.Runs.{Script, MayCome, line_on};
ghost use Rattle.tg_replay.specs.Stages.{Finished, Reads, Took, IsRunOf, IsMade, IsOutside};
ghost use Rattle.tg_replay.specs.declared.stages.End.TheVariants as end;
ghost use Rattle.space_time.specs.declared.reading.Fed.TheVariants as fed;
ghost use Rattle.space_time.specs.Records.{IsRecorded, HasRecord, GoesOnRecorded, CountsOn, run_in, finish_in};

use crate::going::{Went, play_line};
use crate::recording::{Recorded, Recording};
use std::alloc::Global;
use tg_base::{Cluster, List, NoMemory};
use tg_io::{IoErr, Source};
use tg_lines::{LineReader, Opening, read_header};
use tg_model::Event;
use tg_replay::End;
use tg_script::{Line, parse_line};

/// Reads a script to its end, or to where its run ends, and records its steps.
pub fn record_script<S: Source>(alloc: Global, source: &mut S) -> Result<Recorded, IoErr>
    // What has come of the text is what a replay of it comes to.
    ensures finished { IfSome (S.left source.old) (λ text. IfOk result (λ r. Finished text (finish_in r))) }
    ensures recorded { IfOk result HasRecord }
    ensures cause { HasCause (S.faults source.old) (S.faults source.new) result }
    ensures sure { StaysSure (S.sure source.old) (S.sure source.new) (S.faults source.old) (S.faults source.new) }
{
    let mut reader = LineReader::new();
    match read_header(alloc, &mut reader, source)? {
        Opening::Outside { line } => Ok(Recorded {
            end: End::Outside { line },
            recording: None,
        }),
        Opening::Opens(cluster) => {
            let recording = Recording::start(alloc, cluster)?;
            record_events(alloc, recording, &mut reader, source)
        }
    }
}

// Reads the events of a script.
fn record_events<S: Source>(
    alloc: Global,
    recording: Recording,
    reader: &mut LineReader,
    source: &mut S,
) -> Result<Recorded, IoErr>
    requires recorded { IsRecorded recording }
    // A source gives fewer than 2^64 bytes, and each line takes one at least.
    requires room { recording.run.world.event + 3 + (length reader.old + S.room source.old) < 2 ^ 64 }
    ensures finished { IfSome (ahead reader.old (S.left source.old)) (λ rest. (text : List ℕ) → Reads text recording.run rest → IfOk result (λ r. Finished text (finish_in r))) }
    ensures recorded { IfOk result HasRecord }
    ensures cause { HasCause (S.faults source.old) (S.faults source.new) result }
    ensures sure { StaysSure (S.sure source.old) (S.sure source.new) (S.faults source.old) (S.faults source.new) }
{
    let mut recording = recording;
    while let Some(line) = reader.next(alloc, source)? {
        match recording.feed(alloc, line)? {
            Fed::Goes(next) => recording = next,
            Fed::Stops(recorded) => return Ok(recorded),
        }
    }
    Ok(Recorded {
        end: End::Whole,
        recording: Some(recording),
    })
}

/// What comes of a line: reading goes on, or it has ended.
#[derive(Drop)]
pub enum Fed {
    Goes(Recording),
    Stops(Recorded),
}

impl Recording {
    /// Takes the next event line. An `Err` is want of memory, or of numbers.
    fn feed(self, alloc: Global, line: List<u8>) -> Result<Fed, NoMemory>
        requires recorded { IsRecorded self }
        requires room { self.run.world.event + 4 < 2 ^ 64 }
        ensures kept { IfOk result GoesOnRecorded }
        ensures counts { IfOk result (CountsOn self.run.world.event) }
        ensures took { (text : List ℕ) (read more : List (List ℕ)) (s : Script) → lines text ≡ read ++ line ∷ more → IsRunOf read self.run s → IfOk result (λ f. Took text (read ++ line ∷ []) (run_in f)) }
    {
        let Some(event) = line_of(alloc, &self.run.cluster, &line)? else {
            return Ok(self.outside());
        };
        if !self.may_come(&event) {
            return Ok(self.outside());
        }
        self.play(alloc, line, event)
    }

    // The next event line is outside.
    fn outside(self) -> Fed
        requires recorded { IsRecorded self }
        requires room { self.run.world.event + 4 < 2 ^ 64 }
        ensures kept { GoesOnRecorded result }
        ensures counts { CountsOn self.run.world.event result }
        ensures outside { IsOutside self.run (run_in result) }
    {
        let line = self.run.world.event() + 4;
        Fed::Stops(Recorded {
            end: End::Outside { line },
            recording: Some(self),
        })
    }

    // Whether a line may come next: a packet that is delivered or lost was sent.
    fn may_come(&self, line: &Line) -> bool
        ensures { (w : seen.World all_kinds) → KeepsWorld all_kinds self.now.run.world w → IsTrue result ↔ MayCome w line.now }
    {
        match line {
            Line::Event {
                event: Event::Deliver { packet } | Event::Lose { packet },
            } => *packet < self.run.world.sent(),
            _ => true,
        }
    }

    // Makes a line's steps, as far as the limits allow.
    fn play(self, alloc: Global, text: List<u8>, line: Line) -> Result<Fed, NoMemory>
        requires recorded { IsRecorded self }
        requires room { self.run.world.event + 4 < 2 ^ 64 }
        ensures kept { IfOk result GoesOnRecorded }
        ensures counts { IfOk result (CountsOn self.run.world.event) }
        ensures made { (w : seen.World all_kinds) → KeepsWorld all_kinds self.run.world w → IfOk result (λ f. IsMade self.run (line_on w line) (run_in f)) }
    {
        let begun = self.begin(text)?;
        Ok(after(play_line(alloc, begun, line)?))
    }
}

// The value of a line. None where it is outside the grammar or names a node that the header doesn't declare.
fn line_of(alloc: Global, cluster: &Cluster, text: &List<u8>) -> Result<Option<Line>, NoMemory>
    ensures found { IfOk result (λ x. IfSome x (IsLine cluster.now text.now)) }
    ensures only { (l : Parsed) → IsLine cluster.now text.now l → IfOk result (λ x. x ≡ Some l) }
{
    parse_line(alloc, cluster, text.as_slice())
}

// What comes of a line whose steps were made.
fn after(went: Went) -> Fed
    ensures goes { went.stopped ≡ None → result ≡ fed.Goes went.recording }
    ensures stops { (which : Limits) → went.stopped ≡ Some which → result ≡ fed.Stops (record { end = end.Limited which; recording = Some went.recording }) }
{
    match went.stopped {
        None => Fed::Goes(went.recording),
        Some(which) => Fed::Stops(Recorded {
            end: End::Limited { which },
            recording: Some(went.recording),
        }),
    }
}
