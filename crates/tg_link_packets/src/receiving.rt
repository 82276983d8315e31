//! What comes to a node over a link.

ghost use Rattle.std.specs.Prelude.{◌≡◌, ◌&&◌, Option, Some, Ok, IfOk, OnErr};
ghost use Rattle.tg_base.specs.Orders.{node_eq};
ghost use Rattle.tg_io.specs.Faults.{HasCause, StaysSure};
ghost use Rattle.tg_io.specs.Acts.{Comes};
ghost use Rattle.tg_io.specs.Links.{Adds};
ghost use Rattle.tg_io.specs.declared.link.Arrival.{Arrival};
ghost use Rattle.tg_link_packets.specs.Mail.{HandsOne, came_to, taken_by};

use std::alloc::Global;
use tg_base::{NoMemory, NodeId, Packet};
use tg_io::{IoErr, Link};
use tg_wire::{WireFault, decode};

/// What an answer of a link has for a node.
#[derive(Drop)]
pub enum Came {
    /// Nothing was at hand.
    Nothing,
    /// A datagram that is no packet, or one for another node.
    Stranger,
    /// A packet for this node.
    Taken { packet: Packet },
}

/// The next answer of a link, as it is for a node. An `Err` is a fault of the link, or want of memory; the answer may have
/// been taken then.
pub fn receive<L: Link>(alloc: Global, node: NodeId, link: &mut L) -> Result<Came, IoErr>
    ensures came { IfOk result (λ came. (a : Option Arrival) × Adds (L.handed link.old) a (L.handed link.new) × (came ≡ came_to node a)) }
    ensures sent { L.sent link.new ≡ L.sent link.old }
    ensures cause { HasCause (L.faults link.old) (L.faults link.new) result }
    ensures sure { StaysSure (L.sure link.old) (L.sure link.new) (L.faults link.old) (L.faults link.new) }
    // That answer is all that is done with the link.
    ensures act { IfOk result (λ came. (a : Option Arrival) × Adds (L.handed link.old) a (L.handed link.new) × Adds (L.acts link.old) (Comes a) (L.acts link.new) × (came ≡ came_to node a)) }
    ensures one { OnErr result (HandsOne (L.acts link.old) (L.acts link.new)) }
    ensures still { IfOk result (λ _. L.faults link.new ≡ L.faults link.old) }
{
    let mut buffer = [0; 8192];
    let Some((to, count)) = link.recv(&mut buffer)? else {
        return Ok(Came::Nothing);
    };
    Ok(read(alloc, node, to, &buffer[..count])?)
}

// What a datagram that came has for a node.
fn read(alloc: Global, node: NodeId, to: NodeId, datagram: &[u8]) -> Result<Came, NoMemory>
    ensures { IfOk result (λ came. came ≡ came_to node (Some (record { to = to; datagram = datagram.now }))) }
{
    match decode(alloc, datagram) {
        Ok(packet) => Ok(for_node(node, to, packet)),
        Err(WireFault::NoMemory) => Err(NoMemory),
        Err(WireFault::BadPacket { .. }) => Ok(Came::Stranger),
    }
}

// A packet that came to a node, as it is for this one. It takes no memory.
fn for_node(node: NodeId, to: NodeId, packet: Packet) -> Came
    ensures { result ≡ taken_by node to (Ok packet) }
{
    if is_for(node, to, &packet) {
        return Came::Taken { packet };
    }
    Came::Stranger
}

// Whether a packet is for a node, and came to it. It takes no memory.
fn is_for(node: NodeId, to: NodeId, packet: &Packet) -> bool
    ensures { result ≡ (node_eq packet.now.to node && node_eq to node) }
{
    packet.to.is_same(node) && to.is_same(node)
}
