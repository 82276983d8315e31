//! Seals and new epochs.

ghost use Rattle.std.specs.Prelude.{◌≡◌, ◌++◌, length, take, drop, slice_get, IfOk, OnOk};
ghost use Rattle.std.specs.List.{list_any};
ghost use Rattle.tg_picture.specs.Bands as seen;
ghost use Rattle.tg_picture.specs.Bands.{seal_of, seal_in, seal_at, seals, decision_of, decision_at, decisions, listed};
ghost use Rattle.tg_picture.specs.Courses.{sent_by};
ghost use Rattle.tg_picture.specs.Quiet.{is_quiet, is_vote};

use crate::steps::Step;
use crate::ways::{sent_before, sent_by, sent_in};
use std::alloc::Global;
use tg_base::{Epoch, List, Msg, NoMemory, NodeId, Packet, Projection};
use tg_world_log::newest;

/// A step from which on an older epoch is refused.
#[derive(Clone, Copy, PartialEq, Eq)]
pub enum Band {
    /// A unit was sealed: from this step on it serves this epoch alone.
    Sealed {
        step: u64,
        unit: NodeId,
        epoch: Epoch,
    },
    /// The layout of this epoch was decided.
    Decided {
        step: u64,
        epoch: Epoch,
    },
}

/// What tells which epochs there were: the header's layout, the number of the layout servers, and all packets.
#[derive(Clone, Copy)]
pub struct Epochs<'a> {
    pub first: &'a Projection,
    pub layouts: u16,
    pub packets: &'a [Packet],
}

/// The seals in the steps from `from` on and below `upto`, by the answers of the units that were sealed, and then the
/// decisions on layouts in these steps. An `Err` is want of memory.
pub fn bands(
    alloc: Global,
    epochs: &Epochs<'_>,
    steps: &[Step],
    from: usize,
    upto: usize,
) -> Result<List<Band>, NoMemory>
    ensures { IfOk result (λ bs. bs ≡ seen.bands epochs.now.first.now epochs.now.layouts epochs.now.packets.now steps.now from upto) }
{
    let mut found = List::new(alloc);
    put_seals(epochs.packets, steps, from, upto, &mut found)?;
    put_decisions(epochs, steps, from, upto, &mut found)?;
    Ok(found)
}

// Puts the seals that packets tell of.
#[tactic(auto, unfolding(crate::specs::Bands::seals))]
fn put_seals(
    packets: &[Packet],
    steps: &[Step],
    from: usize,
    upto: usize,
    found: &mut List<Band>,
) -> Result<(), NoMemory>
    ensures { OnOk result (found.new ≡ found.old ++ seals packets.now steps.now from upto (length packets.now)) }
{
    for number in 0..packets.len() {
        put_band(seal_at(packets, steps, from, upto, number), found)?;
    }
    Ok(())
}

fn put_band(band: Option<Band>, found: &mut List<Band>) -> Result<(), NoMemory>
    ensures { OnOk result (found.new ≡ found.old ++ listed band) }
{
    match band {
        None => Ok(()),
        Some(band) => found.push(band),
    }
}

// The seal that a packet tells of, in these steps.
fn seal_at(
    packets: &[Packet],
    steps: &[Step],
    from: usize,
    upto: usize,
    number: usize,
) -> Option<Band>
    ensures { result ≡ seal_at packets.now steps.now from upto number }
{
    match packets.get(number) {
        None => None,
        Some(packet) => seal_of(packet, steps, from, upto, number),
    }
}

fn seal_of(packet: &Packet, steps: &[Step], from: usize, upto: usize, number: usize) -> Option<Band>
    ensures { result ≡ seal_of packet.now steps.now from upto number }
{
    match &packet.msg {
        Msg::Sealed { epoch, .. } => seal_in(
            packet.from,
            *epoch,
            sent_in(steps, number as u64),
            from,
            upto,
        ),
        _ => None,
    }
}

// A seal, where its step is one of these.
fn seal_in(unit: NodeId, epoch: Epoch, step: u64, from: usize, upto: usize) -> Option<Band>
    ensures { result ≡ seal_in unit epoch step from upto }
{
    if from as u64 <= step && step < upto as u64 {
        return Some(Band::Sealed { step, unit, epoch });
    }
    None
}

// Puts the decisions in these steps.
#[tactic(auto, unfolding(crate::specs::Bands::decisions))]
fn put_decisions(
    epochs: &Epochs<'_>,
    steps: &[Step],
    from: usize,
    upto: usize,
    found: &mut List<Band>,
) -> Result<(), NoMemory>
    ensures { OnOk result (found.new ≡ found.old ++ decisions epochs.now.first.now epochs.now.layouts epochs.now.packets.now steps.now from upto) }
{
    for at in 0..upto {
        if from <= at {
            put_band(decision_at(epochs, steps, at), found)?;
        }
    }
    Ok(())
}

// The decision in a step. Where no vote was sent in it there is none, and no layout is looked for.
fn decision_at(epochs: &Epochs<'_>, steps: &[Step], at: usize) -> Option<Band>
    ensures { result ≡ decision_at epochs.now.first.now epochs.now.layouts epochs.now.packets.now steps.now at }
{
    let before = sent_before(steps, at);
    let after = sent_at(steps, at);
    if is_quiet(epochs.packets, before, after) {
        return None;
    }
    decision_of(at as u64, epochs.after(before), epochs.after(after))
}

// How many packets had been sent after a step.
fn sent_at(steps: &[Step], at: usize) -> u64
    ensures { result ≡ sent_by (slice_get steps.now at) }
{
    sent_by(steps.get(at))
}

// Whether no vote is among the packets that were sent after so many and up to so many.
fn is_quiet(packets: &[Packet], before: u64, after: u64) -> bool
    ensures { result ≡ is_quiet packets.now before after }
{
    if after < before {
        return false;
    }
    !has_vote(packets_after(first_packets(packets, after), before))
}

fn has_vote(packets: &[Packet]) -> bool
    ensures { result ≡ list_any (λ p. is_vote p.msg) packets.now }
{
    packets.iter().any(|packet| is_vote(&packet.msg))
}

// The packets after so many.
fn packets_after(packets: &[Packet], count: u64) -> &[Packet]
    ensures { result.now ≡ drop count packets.now }
{
    if count < packets.len() as u64 {
        return &packets[count as usize..];
    }
    &packets[packets.len()..]
}

// Whether a message is a proposal of a layout, or the acceptance of one.
fn is_vote(msg: &Msg) -> bool
    ensures { result ≡ is_vote msg.now }
{
    match msg {
        Msg::Accept { .. } | Msg::Accepted { .. } => true,
        _ => false,
    }
}

// The decision in a step, by the epochs before it and after it.
fn decision_of(step: u64, before: Epoch, epoch: Epoch) -> Option<Band>
    ensures { result ≡ decision_of step before epoch }
{
    if before == epoch {
        return None;
    }
    Some(Band::Decided { step, epoch })
}

impl Epochs<'_> {
    // The epoch of the layout that was decided last, when so many packets had been sent.
    fn after(&self, sent: u64) -> Epoch
        ensures { result ≡ seen.epoch_after self.now.first.now self.now.layouts self.now.packets.now sent }
    {
        newest(self.first, first_packets(self.packets, sent), self.layouts).epoch
    }
}

// So many packets, or all where there are no more.
fn first_packets(packets: &[Packet], count: u64) -> &[Packet]
    ensures { result.now ≡ take count packets.now }
{
    if count < packets.len() as u64 {
        return &packets[..count as usize];
    }
    packets
}
