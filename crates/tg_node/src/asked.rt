//! The lines that one node follows.

ghost use Rattle.std.specs.Prelude.{◌≡◌, Some, IfOk, IfSome};
ghost use Rattle.tg_node.specs.Lines as told;
ghost use Rattle.tg_node.specs.declared.asked.Asked as asks;
ghost use Rattle.tg_node.specs.Lines.{IsAsked, wait_of, wait_read, own_read, asked_of};

use std::alloc::Global;
use tg_any::{AnyAsk, AnyOp, number};
use tg_base::{Cluster, NoMemory, NodeId, Oid, Role};
use tg_model::{Command, Event};
use tg_script::{Line, parse_line};

/// What a line asks of a node.
#[derive(Drop)]
pub enum Asked {
    /// A tick.
    Tick,
    /// So many calls of the link's `recv`, each of which may hand in a packet.
    Wait { calls: u32 },
    /// A command, where the node is a client.
    Given { command: Command<AnyOp, AnyAsk> },
    /// Begin, put and end in a row, where the node is a client.
    Update { oid: Oid, op: AnyOp },
}

/// What a line asks of a node, without its line feed; None where it is outside: no line of a node, or another client's.
/// An `Err` is want of memory.
pub fn parse_asked(
    alloc: Global,
    cluster: &Cluster,
    node: NodeId,
    text: &[u8],
) -> Result<Option<Asked>, NoMemory>
    ensures found { IfOk result (λ x. IfSome x (IsAsked cluster.now node text.now)) }
    ensures only { (a : asks.Asked) → IsAsked cluster.now node text.now a → IfOk result (λ x. x ≡ Some a) }
{
    if let Some(asked) = read_own(text) {
        return Ok(Some(asked));
    }
    let Some(line) = parse_line(alloc, cluster, text)? else {
        return Ok(None);
    };
    Ok(of_line(node, line))
}

// What a line asks that no script has.
fn read_own(text: &[u8]) -> Option<Asked>
    ensures { result ≡ own_read text.now }
{
    if text == b"tick".as_slice() {
        return Some(Asked::Tick);
    }
    read_wait(text)
}

// So many calls of `recv`.
#[tactic(auto, unfolding(tg_any::specs::Fronts::after))]
fn read_wait(text: &[u8]) -> Option<Asked>
    ensures { result ≡ wait_read text.now }
{
    let digits = text.strip_prefix(b"wait ")?;
    let calls = number(digits)?;
    wait(calls)
}

// From one to a million calls.
fn wait(calls: u64) -> Option<Asked>
    ensures { result ≡ wait_of calls }
{
    if 1 <= calls && calls <= 1_000_000 {
        let calls = calls as u32;
        return Some(Asked::Wait { calls });
    }
    None
}

// What a line of a script asks of a node.
fn of_line(node: NodeId, line: Line) -> Option<Asked>
    ensures { result ≡ asked_of node line }
{
    match line {
        Line::Event {
            event: Event::Command { client, cmd },
        } => {
            if is_node(node, client) {
                return Some(Asked::Given { command: cmd });
            }
            None
        }
        Line::Update { client, oid, op } => {
            if is_node(node, client) {
                return Some(Asked::Update { oid, op });
            }
            None
        }
        _ => None,
    }
}

// Whether the client with this number is the node.
fn is_node(node: NodeId, client: u16) -> bool
    ensures { result ≡ told.is_node node client }
{
    match node.role {
        Role::Client => node.num == client,
        _ => false,
    }
}
