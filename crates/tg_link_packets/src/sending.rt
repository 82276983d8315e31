//! What a node sends over a link.

ghost use Rattle.std.specs.Prelude.{◌≡◌, ◌<◌, [], ◌∷◌, Some, length, remove, slice_get, IfOk, OnOk, OnErr};
ghost use Rattle.tg_base.specs.declared.packet.Out.{Out};
ghost use Rattle.tg_wire.specs.Packets.{packet};
ghost use Rattle.tg_io.specs.Acts.{Goes};
ghost use Rattle.tg_io.specs.Bytes.{Grows};
ghost use Rattle.tg_io.specs.Faults.{HasCause, StaysSure};
ghost use Rattle.tg_io.specs.Links.{Adds};
ghost use Rattle.tg_link_packets.specs.Mail.{GoesOut, IsCutOff, all_sent, packet_from, packets_from, sent_of};

use std::alloc::Global;
use tg_base::{List, NoMemory, NodeId, Out, Packet};
use tg_io::{Datagram, IoErr, Link};
use tg_law_sizes::packets_are_short;
use tg_wire::{encode, fits};

/// Sends what a node has to send, in order.
///
/// An `Err` is a fault of the link, or want of memory, or a packet that no datagram holds. All packets before the one
/// that failed were sent then, and none after it.
pub fn send_all<L: Link>(
    alloc: Global,
    node: NodeId,
    outs: List<Out>,
    link: &mut L,
) -> Result<(), IoErr>
    ensures sent { OnOk result (Grows (L.sent link.old) (all_sent (packets_from node outs)) (L.sent link.new)) }
    ensures handed { L.handed link.new ≡ L.handed link.old }
    ensures cause { HasCause (L.faults link.old) (L.faults link.new) result }
    ensures sure { StaysSure (L.sure link.old) (L.sure link.new) (L.faults link.old) (L.faults link.new) }
    // The packets go out in order, and nothing else is done with the link.
    ensures gone { OnOk result (GoesOut (record { sent = L.sent link.old; acts = L.acts link.old }) (packets_from node outs) (record { sent = L.sent link.new; acts = L.acts link.new })) }
    ensures cut_off { OnErr result (IsCutOff node outs (record { sent = L.sent link.old; acts = L.acts link.old }) (record { sent = L.sent link.new; acts = L.acts link.new })) }
    ensures still { OnOk result (L.faults link.new ≡ L.faults link.old) }
{
    let mut outs = outs;
    while !outs.is_empty() {
        send_first(alloc, node, &mut outs, link)?;
    }
    Ok(())
}

// Sends the first of what a node has to send, and takes it off.
fn send_first<L: Link>(
    alloc: Global,
    node: NodeId,
    outs: &mut List<Out>,
    link: &mut L,
) -> Result<(), IoErr>
    requires { 0 < length outs.old }
    ensures sent { OnOk result ((o : Out) × (slice_get outs.old 0 ≡ Some o) × (outs.new ≡ remove outs.old 0) × GoesOut (record { sent = L.sent link.old; acts = L.acts link.old }) (packet_from node o ∷ []) (record { sent = L.sent link.new; acts = L.acts link.new })) }
    ensures kept { OnErr result (L.sent link.new ≡ L.sent link.old) }
    ensures no_act { OnErr result (L.acts link.new ≡ L.acts link.old) }
    ensures handed { L.handed link.new ≡ L.handed link.old }
    ensures cause { HasCause (L.faults link.old) (L.faults link.new) result }
    ensures sure { StaysSure (L.sure link.old) (L.sure link.new) (L.faults link.old) (L.faults link.new) }
    ensures still { OnOk result (L.faults link.new ≡ L.faults link.old) }
{
    let out = outs.remove(0);
    send_out(alloc, node, out, link)
}

/// Sends a packet.
///
/// An `Err` is a fault of the link, or want of memory, or a packet that no datagram holds; nothing was sent then.
pub fn send<L: Link>(alloc: Global, packet: &Packet, link: &mut L) -> Result<(), IoErr>
    ensures sent { OnOk result (Adds (L.sent link.old) (sent_of packet.now) (L.sent link.new)) }
    ensures kept { OnErr result (L.sent link.new ≡ L.sent link.old) }
    ensures handed { L.handed link.new ≡ L.handed link.old }
    ensures cause { HasCause (L.faults link.old) (L.faults link.new) result }
    ensures sure { StaysSure (L.sure link.old) (L.sure link.new) (L.faults link.old) (L.faults link.new) }
    ensures act { OnOk result (Adds (L.acts link.old) (Goes (sent_of packet.now)) (L.acts link.new)) }
    ensures no_act { OnErr result (L.acts link.new ≡ L.acts link.old) }
    ensures still { OnOk result (L.faults link.new ≡ L.faults link.old) }
{
    let datagram = spelled(alloc, packet)?;
    link.send(packet.from, packet.to, datagram.as_slice())
}

// Sends what a node has to send, as a packet. At an `Err` nothing was sent.
fn send_out<L: Link>(alloc: Global, node: NodeId, out: Out, link: &mut L) -> Result<(), IoErr>
    ensures sent { OnOk result (Adds (L.sent link.old) (sent_of (packet_from node out)) (L.sent link.new)) }
    ensures kept { OnErr result (L.sent link.new ≡ L.sent link.old) }
    ensures handed { L.handed link.new ≡ L.handed link.old }
    ensures cause { HasCause (L.faults link.old) (L.faults link.new) result }
    ensures sure { StaysSure (L.sure link.old) (L.sure link.new) (L.faults link.old) (L.faults link.new) }
    ensures act { OnOk result (Adds (L.acts link.old) (Goes (sent_of (packet_from node out))) (L.acts link.new)) }
    ensures no_act { OnErr result (L.acts link.new ≡ L.acts link.old) }
    ensures still { OnOk result (L.faults link.new ≡ L.faults link.old) }
{
    let Out { to, rid, msg } = out;
    let packet = Packet {
        from: node,
        to,
        rid,
        msg,
    };
    send(alloc, &packet, link)
}

// The datagram of a packet. An `Err` is want of memory, or a packet that no datagram holds.
fn spelled(alloc: Global, value: &Packet) -> Result<Datagram, NoMemory>
    ensures { IfOk result (λ bytes. bytes ≡ packet.spell value.now) }
{
    if !fits(value) {
        return Err(NoMemory);
    }
    packets_are_short(value);
    let bytes = encode(alloc, value)?;
    let datagram = Datagram::new(bytes).unwrap();
    Ok(datagram)
}
