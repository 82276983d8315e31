//! The header of a node's text.

ghost use Rattle.std.specs.Prelude.{◌≡◌, ◌<◌, ◌≤◌, ◌∷◌, ◌+◌, ◌↔◌, ℕ, [], codes, length, true, IfOk, IfSome, IfNone, IsTrue, IsErrOf};
ghost use Rattle.tg_base.specs.Clusters.{IsHeader};
ghost use Rattle.tg_io.specs.Faults.{HasCause, StaysSure};
ghost use Rattle.tg_io.specs.declared.fault.IoErr.TheVariants.{Failed};
ghost use Rattle.tg_lines.specs.Feeds.{NoneOutside, TakesFeeds};
ghost use Rattle.tg_lines.specs.Lines.{ahead, lines};
ghost use Rattle.tg_lines.specs.Openings.{OnOpens};
ghost use Rattle.tg_script.specs.Headers.{OnOutside, header_lines};
ghost use Rattle.tg_script.specs.Nodes.{is_declared};
ghost use Rattle.tg_node.specs.Texts.{Begins, FirstOutside};
ghost use Rattle.tg_node.specs.Openings.{IsOpening, Opened};

use std::alloc::Global;
use tg_base::{Cluster, List, NoMemory, NodeId, Role, TextFault};
use tg_io::{IoErr, Source};
use tg_lines::{LineReader, Opening};
use tg_script::parse_header;

/// How many lines a header has.
const HEADER: usize = 3;

/// Reads the header of a node's text. A first line that doesn't declare the node is outside, whatever stands below it.
///
/// An `Err` is a fault of the source, or want of memory.
pub fn read_own_header<S: Source>(
    alloc: Global,
    id: NodeId,
    reader: &mut LineReader,
    source: &mut S,
) -> Result<Opening, IoErr>
    ensures opened { IfOk result (Opened id (ahead reader.old (S.left source.old)) (ahead reader.new (S.left source.new))) }
    ensures cause { HasCause (S.faults source.old) (S.faults source.new) result }
    ensures sure { StaysSure (S.sure source.old) (S.sure source.new) (S.faults source.old) (S.faults source.new) }
    ensures still { IfOk result (λ opening. S.faults source.new ≡ S.faults source.old) }
    // The three lines of a header took three bytes at least of what may come.
    ensures less { IfOk result (λ opening. OnOpens opening (length reader.new + S.room source.new + 3 ≤ length reader.old + S.room source.old)) }
    // What is taken has three line feeds at most.
    ensures feeds { IfOk result (λ opening. TakesFeeds 3 (ahead reader.old (S.left source.old)) (ahead reader.new (S.left source.new))) }
    // Where the source fails, none of the lines that came whole is outside.
    ensures first { IsErrOf result Failed → IfSome (ahead reader.old (S.left source.old)) (λ text. NoneOutside text (S.left source.new) (FirstOutside (lines text) id)) }
{
    let mut lines: List<List<u8>> = List::new(alloc);
    while lines.len() < HEADER {
        // A line that is outside is refused before more is read.
        if let Some(line) = refused(alloc, id, lines.as_slice())? {
            return Ok(Opening::Outside { line });
        }
        match reader.next(alloc, source)? {
            Some(line) => lines.push(line)?,
            None => return Ok(whole_header(alloc, id, lines.as_slice())?),
        }
    }
    Ok(whole_header(alloc, id, lines.as_slice())?)
}

// The first line that is outside, if one of these is.
#[tactic(auto, using(crate::proofs::Openings::none_before, crate::proofs::Openings::whole_front))]
fn refused(alloc: Global, id: NodeId, lines: &[List<u8>]) -> Result<Option<u64>, NoMemory>
    requires { length lines.now ≤ 3 }
    ensures some { IfOk result (λ r. IfSome r (λ k. (k ≤ length lines.now) × FirstOutside lines.now id k)) }
    ensures none { IfOk result (λ r. IfNone r ((k : ℕ) → k ≤ length lines.now → FirstOutside lines.now id k → ⊥)) }
{
    match parse_own(alloc, id, lines) {
        Ok(_) => Ok(None),
        Err(TextFault::Outside { line }) => Ok(among(line, lines)),
        Err(TextFault::NoMemory) => Err(NoMemory),
    }
}

// The line of this number, if these lines have it.
fn among(line: u64, lines: &[List<u8>]) -> Option<u64>
    ensures some { IfSome result (λ k. (k ≡ line) × (k ≤ length lines.now)) }
    ensures none { IfNone result (length lines.now < line) }
{
    if line <= lines.len() as u64 {
        Some(line)
    } else {
        None
    }
}

// What these lines are, after which none is read.
fn whole_header(alloc: Global, id: NodeId, lines: &[List<u8>]) -> Result<Opening, NoMemory>
    requires { length lines.now ≤ 3 }
    ensures { IfOk result (IsOpening id lines.now) }
{
    match parse_own(alloc, id, lines) {
        Ok(cluster) => Ok(Opening::Opens(cluster)),
        Err(TextFault::Outside { line }) => Ok(Opening::Outside { line }),
        Err(TextFault::NoMemory) => Err(NoMemory),
    }
}

// The cluster that these lines declare, with the node among its nodes.
fn parse_own(alloc: Global, id: NodeId, lines: &[List<u8>]) -> Result<Cluster, TextFault>
    requires { length lines.now ≤ 3 }
    ensures lawful { IfOk result IsHeader }
    ensures found { IfOk result (λ h. (lines.now ≡ header_lines h) × (is_declared h id ≡ true)) }
    ensures outside { OnOutside result (λ k. (k ≤ 3) × FirstOutside lines.now id k) }
{
    if !first_declares(alloc, id, lines)? {
        return Err(TextFault::Outside { line: 1 });
    }
    let cluster = parse_header(alloc, lines)?;
    cluster.rules();
    Ok(cluster)
}

// Whether the first of these lines declares the node.
fn first_declares(alloc: Global, id: NodeId, lines: &[List<u8>]) -> Result<bool, NoMemory>
    ensures { IfOk result (λ b. IsTrue b ↔ Begins lines.now id 1) }
{
    match lines {
        [] => Ok(false),
        [first, ..] => line_declares(alloc, id, first.as_slice()),
    }
}

// Whether a first line declares the node. It is read as that of a header with the least lines below it.
fn line_declares(alloc: Global, id: NodeId, first: &[u8]) -> Result<bool, NoMemory>
    ensures { IfOk result (λ b. IsTrue b ↔ Begins (first.now ∷ []) id 1) }
{
    let lines = least(alloc, first)?;
    match parse_header(alloc, lines.as_slice()) {
        Ok(cluster) => {
            cluster.rules();
            Ok(declares(&cluster, id))
        }
        Err(TextFault::Outside { .. }) => Ok(false),
        Err(TextFault::NoMemory) => Err(NoMemory),
    }
}

// A header's lines with this one first, and the least below it: the chain of one unit, and no object.
fn least(alloc: Global, first: &[u8]) -> Result<List<List<u8>>, NoMemory>
    ensures { IfOk result (λ ls. ls ≡ first.now ∷ codes "chains u0" ∷ codes "objects" ∷ []) }
{
    let mut lines = List::new(alloc);
    lines.push(copied(alloc, first)?)?;
    lines.push(copied(alloc, b"chains u0")?)?;
    lines.push(copied(alloc, b"objects")?)?;
    Ok(lines)
}

// These bytes, as a list.
fn copied(alloc: Global, bytes: &[u8]) -> Result<List<u8>, NoMemory>
    ensures { IfOk result (λ list. list ≡ bytes.now) }
{
    let mut list = List::new(alloc);
    list.extend(bytes)?;
    Ok(list)
}

// Whether a cluster has this node. It takes no memory.
fn declares(cluster: &Cluster, id: NodeId) -> bool
    ensures { result ≡ is_declared cluster.now id }
{
    match id.role {
        Role::Unit => id.num < cluster.units,
        Role::Layout => id.num < cluster.layouts,
        Role::Seqr => id.num < cluster.seqs,
        Role::Client => id.num < cluster.clients,
    }
}
