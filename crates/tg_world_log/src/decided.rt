//! The layout that is decided last.

ghost use Rattle.std.specs.Prelude.{◌≡◌, ◌≤◌, ◌&&◌, nat_lt, option_copied};
ghost use Rattle.tg_protocol.specs.Logs.{is_acceptance, has_accepted, acceptances, by_majority, decided_by, newer, newest};
ghost use Rattle.tg_base.specs.Orders.{node_eq};
ghost use Rattle.tg_protocol.specs.Words.{layout_id};

use tg_base::{Ballot, Epoch, Msg, NodeId, Packet, Projection, Role};

/// The decided layout of the greatest epoch: a layout of an epoch above the first's that was proposed, and accepted by
/// a majority of the layout servers, by the packets that were sent. It takes no memory.
///
/// The time is that of the packets, and again for each proposal of a greater epoch than those before it.
#[tactic(auto, unfolding(tg_protocol::specs::Logs::newest))]
pub fn newest<'a>(first: &'a Projection, packets: &'a [Packet], layouts: u16) -> &'a Projection
    ensures { result.now ≡ newest first.now packets.now layouts }
{
    let mut found = first;
    for packet in packets {
        found = newer_by(found, packets, layouts, &packet.msg);
    }
    found
}

// The later one of a layout and of that which a message proposes, if it is decided.
fn newer_by<'a>(
    found: &'a Projection,
    packets: &[Packet],
    layouts: u16,
    msg: &'a Msg,
) -> &'a Projection
    ensures { result.now ≡ newer found.now (decided_by packets.now layouts msg.now) }
{
    match msg {
        Msg::Accept {
            epoch,
            ballot,
            proj,
        } => {
            if is_later(proj, found) && by_majority(packets, layouts, *epoch, *ballot) {
                return proj;
            }
            found
        }
        _ => found,
    }
}

fn is_later(layout: &Projection, other: &Projection) -> bool
    ensures { result ≡ nat_lt other.now.epoch layout.now.epoch }
{
    other.epoch < layout.epoch
}

// Whether most of the layout servers accepted a ballot.
fn by_majority(packets: &[Packet], layouts: u16, epoch: Epoch, ballot: Ballot) -> bool
    ensures { result ≡ by_majority packets.now layouts epoch ballot }
{
    let count = u32::from(acceptances(packets, layouts, epoch, ballot));
    u32::from(layouts) < count + count
}

// How many of the layout servers did.
fn acceptances(packets: &[Packet], layouts: u16, epoch: Epoch, ballot: Ballot) -> u16
    ensures count { result ≡ acceptances packets.now epoch ballot layouts }
    ensures most { result ≤ layouts }
{
    let mut count = 0;
    for server in 0..layouts {
        if has_accepted(packets, epoch, ballot, server) {
            count += 1;
        }
    }
    count
}

fn has_accepted(packets: &[Packet], epoch: Epoch, ballot: Ballot, server: u16) -> bool
    ensures { result ≡ has_accepted packets.now epoch ballot server }
{
    packets
        .iter()
        .any(|packet| is_acceptance(packet, epoch, ballot, server))
}

fn is_acceptance(packet: &Packet, epoch: Epoch, ballot: Ballot, server: u16) -> bool
    ensures { result ≡ (node_eq packet.now.from (layout_id server) && is_acceptance epoch ballot packet.now.msg) }
{
    is_from(packet, server) && accepts(&packet.msg, epoch, ballot)
}

fn is_from(packet: &Packet, server: u16) -> bool
    ensures { result ≡ node_eq packet.now.from (layout_id server) }
{
    packet.from.is_same(NodeId {
        role: Role::Layout,
        num: server,
    })
}

fn accepts(msg: &Msg, epoch: Epoch, ballot: Ballot) -> bool
    ensures { result ≡ is_acceptance epoch ballot msg.now }
{
    match msg {
        Msg::Accepted {
            epoch: accepted,
            ballot: by,
        } => epoch == *accepted && ballot.is_same(*by),
        _ => false,
    }
}
