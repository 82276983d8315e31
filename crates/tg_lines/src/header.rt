//! The header of a script.

ghost use Rattle.std.specs.Prelude.{◌≡◌, ◌+◌, ◌≤◌, ℕ, length, IfOk, IfSome, IfNone, IsErrOf};
ghost use Rattle.tg_io.specs.Faults.{HasCause, StaysSure};
ghost use Rattle.tg_io.specs.declared.fault.IoErr.TheVariants.{Failed};
ghost use Rattle.tg_lines.specs.Feeds.{NoneOutside, TakesFeeds};
ghost use Rattle.tg_lines.specs.Lines.{ahead, lines};
ghost use Rattle.tg_lines.specs.Openings.{OnOpens, Opened, Took, IsOpening, IsNoLine};
ghost use Rattle.tg_script.specs.Headers.{IsFirstOutside};

use crate::line_reader::LineReader;
use std::alloc::Global;
use tg_base::{Cluster, List, NoMemory, TextFault};
use tg_io::{IoErr, Source};
use tg_script::parse_header;

/// How many lines a header has.
const HEADER: usize = 3;

/// What the first lines of a script are.
#[derive(Drop)]
pub enum Opening {
    /// A header, which declares a cluster.
    Opens(Cluster),
    /// The first line, from 1, that no header has after the lines before it. Where lines are missing it is the one after
    /// the last.
    Outside { line: u64 },
}

/// Reads the header of a script. A line that is outside is refused as soon as it is read.
///
/// An `Err` is a fault of the source, or want of memory.
pub fn read_header<S: Source>(
    alloc: Global,
    reader: &mut LineReader,
    source: &mut S,
) -> Result<Opening, IoErr>
    ensures opened { IfOk result (Opened (ahead reader.old (S.left source.old)) (ahead reader.new (S.left source.new))) }
    ensures cause { HasCause (S.faults source.old) (S.faults source.new) result }
    ensures sure { StaysSure (S.sure source.old) (S.sure source.new) (S.faults source.old) (S.faults source.new) }
    // No line is taken after the one that is outside.
    ensures took { IfOk result (Took (ahead reader.old (S.left source.old)) (ahead reader.new (S.left source.new))) }
    ensures still { IfOk result (λ _. S.faults source.new ≡ S.faults source.old) }
    // The three lines of a header took three bytes at least of what may come.
    ensures less { IfOk result (λ opening. OnOpens opening (length reader.new + S.room source.new + 3 ≤ length reader.old + S.room source.old)) }
    // What is taken has three line feeds at most.
    ensures feeds { IfOk result (λ opening. TakesFeeds 3 (ahead reader.old (S.left source.old)) (ahead reader.new (S.left source.new))) }
    // Where the source fails, each line that came whole is one of the three, and none is outside.
    ensures first { IsErrOf result Failed → IfSome (ahead reader.old (S.left source.old)) (λ text. NoneOutside text (S.left source.new) (IsNoLine (lines text))) }
{
    let mut lines: List<List<u8>> = List::new(alloc);
    while lines.len() < HEADER {
        // A line that is outside is refused before more is read.
        if let Some(line) = refused(alloc, lines.as_slice())? {
            return Ok(Opening::Outside { line });
        }
        match reader.next(alloc, source)? {
            Some(line) => lines.push(line)?,
            None => return Ok(whole_header(alloc, lines.as_slice())?),
        }
    }
    Ok(whole_header(alloc, lines.as_slice())?)
}

// The first line that is outside, if one of these is.
#[tactic(auto, using(crate::proofs::Openings::not_before, crate::proofs::Openings::whole_front))]
fn refused(alloc: Global, lines: &[List<u8>]) -> Result<Option<u64>, NoMemory>
    requires { length lines.now ≤ 3 }
    ensures some { IfOk result (λ r. IfSome r (λ n. (n ≤ length lines.now) × IsFirstOutside lines.now n)) }
    ensures none { IfOk result (λ r. IfNone r ((n : ℕ) → n ≤ length lines.now → IsFirstOutside lines.now n → ⊥)) }
{
    match parse_header(alloc, lines) {
        Ok(cluster) => {
            cluster.rules();
            Ok(None)
        }
        Err(TextFault::Outside { line }) if line <= lines.len() as u64 => Ok(Some(line)),
        Err(TextFault::NoMemory) => Err(NoMemory),
        Err(TextFault::Outside { .. }) => Ok(None),
    }
}

// What these lines are, after which none is read.
fn whole_header(alloc: Global, lines: &[List<u8>]) -> Result<Opening, NoMemory>
    requires { length lines.now ≤ 3 }
    ensures { IfOk result (IsOpening lines.now) }
{
    match parse_header(alloc, lines) {
        Ok(cluster) => Ok(Opening::Opens(cluster)),
        Err(TextFault::Outside { line }) => Ok(Opening::Outside { line }),
        Err(TextFault::NoMemory) => Err(NoMemory),
    }
}
