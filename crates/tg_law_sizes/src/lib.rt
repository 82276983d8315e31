//! The laws of sizes and numbers: what a world counts of a packet is the length of its spelling, a datagram holds each
//! packet, and clients count few things.
#![tactic(auto)]

ghost use Rattle.std.specs.Prelude.{◌≡◌, ◌≤◌, length, true};
ghost use Rattle.tg_wire.specs.Packets.{packet as spelled};
ghost use Rattle.tg_wire.specs.Rules.{fits};
ghost use Rattle.tg_protocol.specs.Sizes.{packet_size};

use tg_base::Packet;

pub mod numbers;

/// The bytes that a world counts of a packet that keeps the rules are those of its spelling.
pub fn sizes_agree(packet: &Packet)
    requires { fits packet.now ≡ true }
    ensures { packet_size packet.now ≡ length (spelled.spell packet.now) }
{
    let _rid = packet.rid;
}

/// The spelling of a packet that keeps the rules has 4,763 bytes at most, and a datagram may have 8,192.
pub fn packets_are_short(packet: &Packet)
    requires { fits packet.now ≡ true }
    ensures { length (spelled.spell packet.now) ≤ 4763 }
{
    let _rid = packet.rid;
}
