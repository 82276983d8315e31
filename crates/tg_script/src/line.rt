//! The lines of events.

ghost use Rattle.std.specs.Prelude.{◌≡◌, Some, IfOk, IfSome, option_map};
ghost use Rattle.tg_base.specs.Clusters.{IsHeader};
ghost use Rattle.tg_any.specs.Words.{texts, one_read};
ghost use Rattle.tg_script.specs.Parts.{words_of};
ghost use Rattle.tg_script.specs.Nodes.{node};
ghost use Rattle.tg_script.specs.Lines.{IsLine, update_read, given_of, line_read, short_read};
ghost use Rattle.tg_script.specs.declared.line.Line.{Line};

use crate::command::{command, object_op};
use crate::cut::{text_of, words};
use crate::nodes::{lettered, node};
use std::alloc::Global;
use tg_any::{AnyAsk, AnyOp, nothing, one};
use tg_base::{Cluster, NoMemory, NodeId, Oid};
use tg_model::Event;

/// A line of a script below its header.
#[derive(Drop)]
pub enum Line {
    /// An event, but an update.
    Event { event: Event<AnyOp, AnyAsk> },
    /// Begin, put and end in a row, as one event.
    Update { client: u16, oid: Oid, op: AnyOp },
    /// The delivery of each packet that was neither delivered nor lost, the lowest first, until there is none.
    Drain,
    /// A drain, and then up to eight rounds of ticks and a drain.
    Settle,
}

/// How many bytes a line may have, without its line feed.
pub const MAX_LINE: usize = 8192;

/// The value of a line, without its line feed; None where it is outside the grammar or names a node that
/// the header doesn't declare. An `Err` is want of memory.
pub fn parse_line(alloc: Global, cluster: &Cluster, line: &[u8]) -> Result<Option<Line>, NoMemory>
    ensures found { IfOk result (λ x. IfSome x (IsLine cluster.now line.now)) }
    ensures only { (l : Line) → IsLine cluster.now line.now l → IfOk result (λ x. x ≡ Some l) }
{
    cluster.rules();
    short_line(alloc, cluster, line)
}

// The value of a line, None where it is too long.
fn short_line(alloc: Global, cluster: &Cluster, line: &[u8]) -> Result<Option<Line>, NoMemory>
    requires { IsHeader cluster.now }
    ensures { IfOk result (λ x. x ≡ short_read cluster.now line.now) }
{
    if line.len() <= MAX_LINE {
        read_line(alloc, cluster, line)
    } else {
        Ok(None)
    }
}

// The value of a line of any length.
fn read_line(alloc: Global, cluster: &Cluster, line: &[u8]) -> Result<Option<Line>, NoMemory>
    requires { IsHeader cluster.now }
    ensures { IfOk result (λ x. x ≡ line_read cluster.now (words_of line.now)) }
{
    let Some(text) = text_of(line) else {
        return Ok(None);
    };
    let words = words(alloc, text)?;
    line_of(alloc, cluster, words.as_slice())
}

// A declared node.
fn one_node(cluster: &Cluster, words: &[&str]) -> Option<NodeId>
    ensures { result ≡ one_read (node cluster.now) (texts words.now) }
{
    match words {
        [word] => node(cluster, word),
        _ => None,
    }
}

// The line that these words are.
#[tactic(auto, unfolding(crate::specs::Lines::line_read))]
fn line_of(alloc: Global, cluster: &Cluster, words: &[&str]) -> Result<Option<Line>, NoMemory>
    ensures { IfOk result (λ x. x ≡ line_read cluster.now (texts words.now)) }
{
    let [word, fields @ ..] = words else {
        return Ok(None);
    };
    if *word == "drain" {
        return Ok(nothing(fields).map(|()| Line::Drain));
    }
    if *word == "settle" {
        return Ok(nothing(fields).map(|()| Line::Settle));
    }
    if *word == "deliver" {
        let Some(packet) = one(alloc, fields)? else {
            return Ok(None);
        };
        let event = Event::Deliver { packet };
        return Ok(Some(Line::Event { event }));
    }
    if *word == "lose" {
        let Some(packet) = one(alloc, fields)? else {
            return Ok(None);
        };
        let event = Event::Lose { packet };
        return Ok(Some(Line::Event { event }));
    }
    if *word == "tick" {
        let Some(node) = one_node(cluster, fields) else {
            return Ok(None);
        };
        let event = Event::Tick { node };
        return Ok(Some(Line::Event { event }));
    }
    if *word == "stop" {
        let Some(node) = one_node(cluster, fields) else {
            return Ok(None);
        };
        let event = Event::Stop { node };
        return Ok(Some(Line::Event { event }));
    }
    let Some(client) = lettered(b"c", cluster.clients, word) else {
        return Ok(None);
    };
    given(alloc, cluster, client, fields)
}

// An update that a client is given.
fn update(alloc: Global, client: u16, words: &[&str]) -> Result<Option<Line>, NoMemory>
    ensures { IfOk result (λ x. x ≡ update_read client (texts words.now)) }
{
    let [verb, fields @ ..] = words else {
        return Ok(None);
    };
    if *verb != "update" {
        return Ok(None);
    }
    let Some((oid, op)) = object_op(alloc, fields)? else {
        return Ok(None);
    };
    Ok(Some(Line::Update { client, oid, op }))
}

// What a client is given: a command, or an update.
fn given(
    alloc: Global,
    cluster: &Cluster,
    client: u16,
    words: &[&str],
) -> Result<Option<Line>, NoMemory>
    ensures { IfOk result (λ x. x ≡ given_of cluster.now client (texts words.now)) }
{
    if let Some(cmd) = command(alloc, cluster, words)? {
        let event = Event::Command { client, cmd };
        return Ok(Some(Line::Event { event }));
    }
    update(alloc, client, words)
}
