//! A live run, line by line of its script.

ghost use Rattle.std.specs.Prelude.{◌≡◌, ◌+◌, ◌≤◌, ◌<◌, ◌^◌, ℕ, false, List, Option, Some, length, IfOk, IfSome, IsErrOf, OnOk, OnErr};
ghost use Rattle.tg_base.specs.Clusters.{Header};
ghost use Rattle.tg_io.specs.Faults.{HasCause, StaysSure};
ghost use Rattle.tg_lines.specs.Feeds.{NoneOutside, TakesFeeds};
ghost use Rattle.tg_lines.specs.Lines.{ahead, lines, TakesLine};
ghost use Rattle.tg_lines.specs.Openings.{Opened, OnOpens, IsNoLine};
ghost use Rattle.tg_script.specs.Lines.{IsLine};
ghost use Rattle.tg_script.specs.declared.line.Line.{Line as event_line};
ghost use Rattle.tg_live.specs.Causes.{of_source, of_link, HasCauses, HasReadCause, HasLinkCause};
ghost use Rattle.tg_live.specs.Kept.{IsSound, Keeps, Made};
ghost use Rattle.tg_live.specs.Breaks.{Broken, BreaksOff, BrokenOff, IsDone};
ghost use Rattle.tg_live.specs.Sends.{Carried, carried};
ghost use Rattle.tg_live.specs.Lives.{Live as live, IsFed};
ghost use Rattle.tg_live.specs.Scripts.{IsOutsideAt, is_delivery};
ghost use Rattle.tg_live.specs.declared.live.Went.{Went as went_so};
ghost use Rattle.tg_live.specs.declared.stages.Stop.TheVariants.{Read, Carry};
ghost use Rattle.tg_live.specs.declared.stages.Running.{Running as running};
ghost use Rattle.tg_live.specs.Stages.{Finished, Reads, IsOutside, IsAfter, GoesOnKept, CountsOn, Handed, over, Feeds};

use crate::live::{Live, Went};
use crate::stages::{Fed, Finish, Running, Stop};
use std::alloc::Global;
use tg_base::{Cluster, List, NoMemory};
use tg_io::{IoErr, Link, Source};
use tg_lines::{LineReader, Opening, read_header};
use tg_model::Event;
use tg_replay::End;
use tg_script::{Line, parse_line};

/// Runs a script to its end, or to where its run ends.
pub(crate) fn run_script<S: Source, L: Link>(
    alloc: Global,
    source: &mut S,
    link: &mut L,
) -> Result<Finish, Stop>
    ensures finished { IfSome (S.left source.old) (λ text. IfOk result (Finished (over (L.handed link.old) (L.handed link.new) (carried (L.sent link.old) (L.acts link.old)) (carried (L.sent link.new) (L.acts link.new))) text)) }
    // Where it is broken off, a front was done of what a live run does of lines with which the text begins, or nothing.
    ensures broken { OnErr result (IfSome (S.left source.old) (λ text. IsDone text (L.acts link.old) (L.acts link.new))) }
    ensures causes { HasCauses (S.faults source.old) (S.faults source.new) (L.faults link.old) (L.faults link.new) result }
    ensures source { StaysSure (S.sure source.old) (S.sure source.new) (S.faults source.old) (S.faults source.new) }
    // Neither count rises where no fault or want of memory ends it, nor that of the one where the other fails.
    ensures still { IfOk result (λ finish. S.faults source.new ≡ S.faults source.old) }
    ensures link_still { OnOk result (L.faults link.new ≡ L.faults link.old) }
    ensures read_alone { IsErrOf result Read → L.faults link.new ≡ L.faults link.old }
    ensures carry_alone { IsErrOf result Carry → S.faults source.new ≡ S.faults source.old }
    ensures link { StaysSure (L.sure link.old) (L.sure link.new) (L.faults link.old) (L.faults link.new) }
    // Where the source fails, none of the lines that came whole is outside.
    ensures first { IsErrOf result Read → IfSome (S.left source.old) (λ text. NoneOutside text (S.left source.new) (IsOutsideAt text)) }
{
    let mut reader = LineReader::new();
    match open(alloc, &mut reader, source)? {
        Opening::Outside { line } => Ok(Finish {
            end: End::Outside { line },
            live: None,
        }),
        Opening::Opens(cluster) => {
            let live = Live::start(alloc, cluster)?;
            run_lines(alloc, Running { live, lines: 0 }, &mut reader, source, link)
        }
    }
}

// Runs the lines of a script.
fn run_lines<S: Source, L: Link>(
    alloc: Global,
    running: Running,
    reader: &mut LineReader,
    source: &mut S,
    link: &mut L,
) -> Result<Finish, Stop>
    requires kept { IsSound running.live.world running.live.recording }
    // A source gives fewer bytes than 2^64, and a line takes one at least.
    requires room { running.lines + 3 + (length reader.old + S.room source.old) < 2 ^ 64 }
    ensures finished { IfSome (ahead reader.old (S.left source.old)) (λ rest. (handed : Handed) (before : Carried) (text : List ℕ) → Reads (over handed (L.handed link.old) before (carried (L.sent link.old) (L.acts link.old))) text running rest → IfOk result (Finished (over handed (L.handed link.new) before (carried (L.sent link.new) (L.acts link.new))) text)) }
    ensures broken { OnErr result (IfSome (ahead reader.old (S.left source.old)) (λ rest. (handed : Handed) (first : Carried) (text : List ℕ) → Reads (over handed (L.handed link.old) first (carried (L.sent link.old) (L.acts link.old))) text running rest → BrokenOff text first.acts (L.acts link.new))) }
    ensures causes { HasCauses (S.faults source.old) (S.faults source.new) (L.faults link.old) (L.faults link.new) result }
    ensures source { StaysSure (S.sure source.old) (S.sure source.new) (S.faults source.old) (S.faults source.new) }
    ensures still { IfOk result (λ finish. S.faults source.new ≡ S.faults source.old) }
    ensures link_still { OnOk result (L.faults link.new ≡ L.faults link.old) }
    ensures read_alone { IsErrOf result Read → L.faults link.new ≡ L.faults link.old }
    ensures carry_alone { IsErrOf result Carry → S.faults source.new ≡ S.faults source.old }
    ensures link { StaysSure (L.sure link.old) (L.sure link.new) (L.faults link.old) (L.faults link.new) }
    ensures first { IsErrOf result Read → IfSome (ahead reader.old (S.left source.old)) (λ rest. (handed : Handed) (before : Carried) (text : List ℕ) → Reads (over handed (L.handed link.old) before (carried (L.sent link.old) (L.acts link.old))) text running rest → NoneOutside text (S.left source.new) (IsOutsideAt text)) }
{
    let mut running = running;
    while let Some(line) = next_line(alloc, reader, source)? {
        match running.fed(alloc, link, line.as_slice())? {
            Fed::Goes(next) => running = next,
            Fed::Stops(finish) => return Ok(finish),
        }
    }
    Ok(Finish {
        end: End::Whole,
        live: Some(running.live),
    })
}

// The header, where only the source can fail.
fn open<S: Source>(alloc: Global, reader: &mut LineReader, source: &mut S) -> Result<Opening, Stop>
    ensures opened { IfOk result (Opened (ahead reader.old (S.left source.old)) (ahead reader.new (S.left source.new))) }
    ensures less { IfOk result (λ opening. OnOpens opening (length reader.new + S.room source.new + 3 ≤ length reader.old + S.room source.old)) }
    ensures cause { HasReadCause (S.faults source.old) (S.faults source.new) result }
    ensures still { IfOk result (λ opening. S.faults source.new ≡ S.faults source.old) }
    ensures sure { StaysSure (S.sure source.old) (S.sure source.new) (S.faults source.old) (S.faults source.new) }
    ensures feeds { IfOk result (λ opening. TakesFeeds 3 (ahead reader.old (S.left source.old)) (ahead reader.new (S.left source.new))) }
    ensures first { IsErrOf result Read → IfSome (ahead reader.old (S.left source.old)) (λ text. NoneOutside text (S.left source.new) (IsNoLine (lines text))) }
{
    match read_header(alloc, reader, source) {
        Ok(opening) => Ok(opening),
        Err(error) => Err(source_stop(error)),
    }
}

// The next line, where only the source can fail.
fn next_line<S: Source>(
    alloc: Global,
    reader: &mut LineReader,
    source: &mut S,
) -> Result<Option<List<u8>>, Stop>
    ensures line { IfOk result (TakesLine (ahead reader.old (S.left source.old)) (ahead reader.new (S.left source.new))) }
    ensures less { IfOk result (λ line. IfSome line (λ l. length reader.new + S.room source.new < length reader.old + S.room source.old)) }
    ensures cause { HasReadCause (S.faults source.old) (S.faults source.new) result }
    ensures still { IfOk result (λ line. S.faults source.new ≡ S.faults source.old) }
    ensures sure { StaysSure (S.sure source.old) (S.sure source.new) (S.faults source.old) (S.faults source.new) }
    ensures feeds { IfOk result (λ line. TakesFeeds 1 (ahead reader.old (S.left source.old)) (ahead reader.new (S.left source.new))) }
    ensures first { IsErrOf result Read → TakesFeeds 0 (ahead reader.old (S.left source.old)) (S.left source.new) }
{
    match reader.next(alloc, source) {
        Ok(line) => Ok(line),
        Err(error) => Err(source_stop(error)),
    }
}

// Why the source gave nothing.
fn source_stop(error: IoErr) -> Stop
    ensures { result ≡ of_source error }
{
    match error {
        IoErr::Failed => Stop::Read,
        IoErr::NoMemory => Stop::NoMemory,
    }
}

// Why the link gave nothing.
fn link_stop(error: IoErr) -> Stop
    ensures { result ≡ of_link error }
{
    match error {
        IoErr::Failed => Stop::Carry,
        IoErr::NoMemory => Stop::NoMemory,
    }
}

impl Running {
    // Takes the next line, where only the link can fail.
    fn fed<L: Link>(self, alloc: Global, link: &mut L, line: &[u8]) -> Result<Fed, Stop>
        requires kept { IsSound self.live.world self.live.recording }
        requires room { self.lines + 4 < 2 ^ 64 }
        ensures kept { IfOk result GoesOnKept }
        ensures counts { IfOk result (CountsOn self.lines) }
        ensures took { IfOk result (Feeds self line.now (L.handed link.old) (L.handed link.new) (carried (L.sent link.old) (L.acts link.old)) (carried (L.sent link.new) (L.acts link.new))) }
        ensures broken { OnErr result (BreaksOff self line.now (L.handed link.old) (carried (L.sent link.old) (L.acts link.old)) (L.acts link.new)) }
        ensures cause { HasLinkCause (L.faults link.old) (L.faults link.new) result }
        ensures sure { StaysSure (L.sure link.old) (L.sure link.new) (L.faults link.old) (L.faults link.new) }
        ensures still { OnOk result (L.faults link.new ≡ L.faults link.old) }
    {
        match self.feed(alloc, link, line) {
            Ok(fed) => Ok(fed),
            Err(error) => Err(link_stop(error)),
        }
    }

    // Takes the next line. An `Err` is a fault of the link, or want of memory.
    fn feed<L: Link>(self, alloc: Global, link: &mut L, line: &[u8]) -> Result<Fed, IoErr>
        requires kept { IsSound self.live.world self.live.recording }
        requires room { self.lines + 4 < 2 ^ 64 }
        ensures kept { IfOk result GoesOnKept }
        ensures counts { IfOk result (CountsOn self.lines) }
        ensures took { IfOk result (Feeds self line.now (L.handed link.old) (L.handed link.new) (carried (L.sent link.old) (L.acts link.old)) (carried (L.sent link.new) (L.acts link.new))) }
        ensures broken { OnErr result (BreaksOff self line.now (L.handed link.old) (carried (L.sent link.old) (L.acts link.old)) (L.acts link.new)) }
        ensures cause { HasCause (L.faults link.old) (L.faults link.new) result }
        ensures sure { StaysSure (L.sure link.old) (L.sure link.new) (L.faults link.old) (L.faults link.new) }
        ensures still { OnOk result (L.faults link.new ≡ L.faults link.old) }
    {
        let Some(event) = live_line(alloc, &self.live.cluster, line)? else {
            return Ok(self.outside());
        };
        self.take(alloc, link, event)
    }

    // A line of the script. An `Err` is a fault of the link, or want of memory.
    fn take<L: Link>(self, alloc: Global, link: &mut L, line: Line) -> Result<Fed, IoErr>
        requires kept { IsSound self.live.world self.live.recording }
        requires room { self.lines + 4 < 2 ^ 64 }
        ensures kept { IfOk result GoesOnKept }
        ensures counts { IfOk result (CountsOn self.lines) }
        ensures made { IfOk result (λ f. (h : Header) (first : Carried) (l : live) → Keeps h first (carried (L.sent link.old) (L.acts link.old)) self.live l → (w : went_so) × Made (IsFed line) h first (carried (L.sent link.new) (L.acts link.new)) (L.handed link.old) (L.handed link.new) l w × IsAfter self w f) }
        ensures broken { OnErr result ((h : Header) (first : Carried) (l : live) → Keeps h first (carried (L.sent link.old) (L.acts link.old)) self.live l → Broken (IsFed line) first.acts (L.acts link.new) l) }
        ensures cause { HasCause (L.faults link.old) (L.faults link.new) result }
        ensures sure { StaysSure (L.sure link.old) (L.sure link.new) (L.faults link.old) (L.faults link.new) }
        ensures still { OnOk result (L.faults link.new ≡ L.faults link.old) }
    {
        let Running { live, lines } = self;
        let went = live.play(alloc, link, line)?;
        Ok(after(lines + 1, went))
    }

    // The next line is outside. It takes no memory.
    fn outside(self) -> Fed
        requires { self.lines + 4 < 2 ^ 64 }
        ensures { IsOutside self result }
    {
        let line = self.lines + 4;
        Fed::Stops(Finish {
            end: End::Outside { line },
            live: Some(self.live),
        })
    }
}

// A run after a line, which goes on unless a limit was reached.
fn after(lines: u64, went: Went) -> Fed
    ensures after { (r : running) → lines ≡ r.lines + 1 → IsAfter r went result }
    ensures counts { (n : ℕ) → lines ≡ n + 1 → CountsOn n result }
    ensures kept { IsSound went.live.world went.live.recording → GoesOnKept result }
{
    let Went { live, stopped } = went;
    match stopped {
        None => Fed::Goes(Running { live, lines }),
        Some(which) => Fed::Stops(Finish {
            end: End::Limited { which },
            live: Some(live),
        }),
    }
}

impl Live {
    // A line's steps, as far as the limits allow. An `Err` is a fault of the link, or want of memory.
    fn play<L: Link>(self, alloc: Global, link: &mut L, line: Line) -> Result<Went, IoErr>
        requires { IsSound self.world self.recording }
        ensures kept { IfOk result (λ w. IsSound w.live.world w.live.recording) }
        ensures fed { (h : Header) (first : Carried) (l : live) → Keeps h first (carried (L.sent link.old) (L.acts link.old)) self l → IfOk result (Made (IsFed line) h first (carried (L.sent link.new) (L.acts link.new)) (L.handed link.old) (L.handed link.new) l) }
        ensures broken { (h : Header) (first : Carried) (l : live) → Keeps h first (carried (L.sent link.old) (L.acts link.old)) self l → OnErr result (Broken (IsFed line) first.acts (L.acts link.new) l) }
        ensures cause { HasCause (L.faults link.old) (L.faults link.new) result }
        ensures sure { StaysSure (L.sure link.old) (L.sure link.new) (L.faults link.old) (L.faults link.new) }
        ensures still { OnOk result (L.faults link.new ≡ L.faults link.old) }
    {
        match line {
            Line::Drain => self.drain(alloc, link),
            Line::Settle => self.settle(alloc, link),
            Line::Event { event } => self.recorded(alloc, link, Line::Event { event }),
            Line::Update { client, oid, op } => {
                self.recorded(alloc, link, Line::Update { client, oid, op })
            }
        }
    }
}

// The value of a line that a live script may have: None where it is outside the grammar, names a node that the header
// doesn't declare, or delivers or loses a packet by number. An `Err` is want of memory.
fn live_line(alloc: Global, cluster: &Cluster, line: &[u8]) -> Result<Option<Line>, NoMemory>
    ensures found { IfOk result (λ x. IfSome x (IsLine cluster.now line.now)) }
    ensures free { IfOk result (λ x. IfSome x (λ l. is_delivery l ≡ false)) }
    ensures only { (l : event_line) → IsLine cluster.now line.now l → is_delivery l ≡ false → IfOk result (λ x. x ≡ Some l) }
{
    let Some(event) = parse_line(alloc, cluster, line)? else {
        return Ok(None);
    };
    if is_delivery(&event) {
        return Ok(None);
    }
    Ok(Some(event))
}

// Whether a line delivers or loses a packet by number.
fn is_delivery(line: &Line) -> bool
    ensures { result ≡ is_delivery line.now }
{
    match line {
        Line::Event {
            event: Event::Deliver { .. } | Event::Lose { .. },
        } => true,
        _ => false,
    }
}
