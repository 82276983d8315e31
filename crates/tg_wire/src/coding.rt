//! Packets as bytes.

ghost use Rattle.std.specs.Prelude.{◌≡◌, ◌≤◌, ◌++◌, true, length, Ok, OnOk, IfOk};
ghost use Rattle.tg_base.specs.declared.packet.Packet.{Packet};
ghost use Rattle.tg_codec.specs.Reading.{Gives};
ghost use Rattle.tg_codec.specs.Whole.{whole, IsSpelling, IsLongestLawful};
ghost use Rattle.tg_wire.specs.Answers.{Decodes, OnBadPacket, IsPrefixFree};
ghost use Rattle.tg_wire.specs.Packets.{role, role_of, node, packet};
ghost use Rattle.tg_base.specs.Orders.{role_number};
ghost use Rattle.tg_wire.specs.Rules.{fits};
ghost use Rattle.tg_wire.specs.Short.{IsShort};

use crate::fault::WireFault;
use crate::reads::message_in;
use crate::sizes::size_message;
use crate::typing::types;
use crate::writes::put_message;
use std::alloc::Global;
use tg_base::{List, NoMemory, NodeId, Packet, Role};
use tg_codec::{ReadFault, ended, fixed, put_u16, put_u64, refused, u8_in, u16_in, u64_in};

const FIRST: [u8; 3] = [0x54, 0x50, 0x01];

// The role that a number stands for.
fn role_of(number: u8) -> Role
    ensures { result ≡ role_of number }
{
    match number {
        0 => Role::Unit,
        1 => Role::Layout,
        2 => Role::Seqr,
        _ => Role::Client,
    }
}

// The number that stands for a role.
fn number_of(role: Role) -> u8
    ensures { result ≡ role_number role }
{
    match role {
        Role::Unit => 0,
        Role::Layout => 1,
        Role::Seqr => 2,
        Role::Client => 3,
    }
}

fn node_in(bytes: &[u8]) -> Result<(NodeId, &[u8]), ReadFault>
    ensures { Gives (λ x. (x.0, x.1.now)) result (node.read bytes.now) }
{
    let (number, rest) = u8_in(&[(0, 3)], bytes)?;
    let (num, rest) = u16_in(&[(0, u64::MAX)], rest)?;
    let role = role_of(number);
    Ok((NodeId { role, num }, rest))
}

fn put_node(value: NodeId, out: &mut List<u8>) -> Result<(), NoMemory>
    ensures { OnOk result (out.new ≡ out.old ++ node.spell value) }
{
    out.push(number_of(value.role))?;
    put_u16(value.num, out)
}

#[tactic(auto, unfolding(crate::specs::Packets::packet))]
fn packet_in(alloc: Global, bytes: &[u8]) -> Result<(Packet, &[u8]), ReadFault>
    ensures { Gives (λ x. (x.0, x.1.now)) result (packet.read bytes.now) }
{
    let ((), rest) = fixed(&FIRST, bytes)?;
    let (from, rest) = node_in(rest)?;
    let (to, rest) = node_in(rest)?;
    let (rid, rest) = u64_in(&[(0, u64::MAX)], rest)?;
    let (msg, rest) = message_in(alloc, rest)?;
    Ok((Packet { from, to, rid, msg }, rest))
}

#[tactic(auto, unfolding(crate::specs::Packets::packet))]
fn put_packet(value: &Packet, out: &mut List<u8>) -> Result<(), NoMemory>
    requires { IsShort value.now.msg }
    ensures { OnOk result (out.new ≡ out.old ++ packet.spell value.now) }
{
    out.extend(&FIRST)?;
    put_node(value.from, out)?;
    put_node(value.to, out)?;
    put_u64(value.rid, out)?;
    put_message(&value.msg, out)
}

#[tactic(auto, unfolding(crate::specs::Packets::packet))]
fn length_of(value: &Packet) -> usize
    requires { IsShort value.now.msg }
    ensures { result ≡ length (packet.spell value.now) }
{
    17 + size_message(&value.msg)
}

/// The length of a packet's spelling, in bytes. It takes no memory.
///
/// The packet keeps the rules of its fields.
pub fn size(value: &Packet) -> usize
    requires { fits value.now ≡ true }
    ensures { result ≡ length (packet.spell value.now) }
{
    types(value);
    length_of(value)
}

/// The bytes of a packet, which are its one spelling.
///
/// The packet keeps the rules of its fields. It fails only for want of memory.
pub fn encode(alloc: Global, value: &Packet) -> Result<List<u8>, NoMemory>
    requires { fits value.now ≡ true }
    ensures { IfOk result (λ bytes. IsSpelling packet value.now bytes) }
{
    types(value);
    spelled(alloc, value)
}

fn spelled(alloc: Global, value: &Packet) -> Result<List<u8>, NoMemory>
    requires { IsShort value.now.msg }
    ensures { IfOk result (λ bytes. bytes ≡ packet.spell value.now) }
{
    let mut out = List::new(alloc);
    put_packet(value, &mut out)?;
    Ok(out)
}

fn read_all(alloc: Global, bytes: &[u8]) -> Result<Packet, WireFault>
    ensures { Decodes result (whole packet bytes.now) }
{
    match packet_in(alloc, bytes) {
        Ok((packet, rest)) => Ok(ended(bytes, packet, rest)?),
        Err(fault) => Err(WireFault::from(refused(bytes, fault))),
    }
}

/// The packet that the bytes spell, all of the bytes.
pub fn decode(alloc: Global, bytes: &[u8]) -> Result<Packet, WireFault>
    // What is read is spelled so.
    ensures found { IfOk result (λ p. IsSpelling packet p bytes.now) }
    // What is spelled so is read, unless memory runs out.
    ensures only { (p : Packet) → IsSpelling packet p bytes.now → Decodes result (Ok p) }
    // The place of a fault: the longest front that is lawful so far.
    ensures place { OnBadPacket result (IsLongestLawful packet bytes.now) }
    // What is read keeps the rules.
    ensures rules { IfOk result (λ p. fits p ≡ true) }
    // Which of these it is.
    ensures exact { Decodes result (whole packet bytes.now) }
{
    read_all(alloc, bytes)
}

/// No packet's spelling begins another's, whatever follows.
pub fn no_spelling_begins_another()
    ensures { IsPrefixFree packet }
{}
