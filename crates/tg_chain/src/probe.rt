//! A chain is probed: each of its units answers once in the epoch, or has left it.

ghost use Rattle.std.specs.Prelude.{ℕ, ◌≡◌, ◌<◌, ◌≤◌, ◌+◌, ◌^◌, ◌&&◌, length, false, IfOk, IsOk, OnOk, OnErr};
ghost use Rattle.tg_protocol.specs.Cells.{Place, cell_asks, cell_feed, probe};
ghost use Rattle.tg_protocol.specs.Replies.{reply, IsFenced, IsWhole};
ghost use Rattle.tg_protocol.specs.Requests.{passes, awaits, waits_for};
ghost use Rattle.tg_base.specs.declared.msg.Msg.TheVariants.{Has};
ghost use Rattle.tg_chain.specs.Turns.{shown, by_rules, fed, needs_memory};
ghost use Rattle.tg_chain.specs.Ends.{probe_end};

use crate::asking::FAR;
use crate::cell_place::CellPlace;
use crate::ends::ProbeEnd;
use crate::waits::{ask_alike, ask_each, is_awaited, keep_others};
use std::alloc::Global;
use std::marker::Model;
use tg_base::{Chain, Epoch, List, Msg, NoMemory, NodeId, Out, Pos, Rids, Role, Turn};

/// Asks all units of a chain at once whether they hold no positions at all, which each answers in the
/// epoch alone.
pub struct Probe {
    place: CellPlace,
    waits: List<(u16, u64)>,
}

// By hand, since a derived drop is proved anew wherever a value is dropped.
impl Drop for Probe {
    fn drop(self) {
        let Probe { place: _, waits: _ } = self;
    }
}

impl Model for Probe {
    ghost use Rattle.tg_protocol.specs.Cells.{CellJob, Probes, works};

    ghost Value = { CellJob };

    ghost view = { λ m. works m.place (Probes m.waits) };
}

impl Probe {
    /// Asks each unit, the head first.
    #[tactic(auto, using(crate::proofs::Outs::probe_drawn), unfolding(tg_protocol::specs::Cells::probe))]
    pub fn start(
        alloc: Global,
        chain: Chain,
        epoch: Epoch,
        pos: Pos,
        rids: &mut Rids,
    ) -> Result<Turn<Probe, ProbeEnd>, NoMemory>
        requires chain { 0 < length chain }
        requires numbers { rids.old.next < 2 ^ 62 }
        ensures turn { IfOk result (λ t. shown probe_end t rids.new.next ≡ by_rules cell_asks rids.old.next (probe (record { chain = chain; epoch = epoch; pos = pos }) rids.old.next)) }
        ensures err { OnErr result (rids.new ≡ rids.old) }
        ensures drawn { rids.new.next ≤ rids.old.next + 5 }
    {
        let mut drawn = *rids;
        let waits = wait_for(alloc, &chain, &mut drawn)?;
        let place = CellPlace { chain, epoch, pos };
        let machine = Probe { place, waits };
        let outs = machine.again(alloc, rids)?;
        *rids = drawn;
        Ok(Turn::More { machine, outs })
    }

    /// Takes an answer of a unit that has given none yet, and passes every other message by.
    pub fn feed(
        self,
        alloc: Global,
        from: NodeId,
        rid: u64,
        msg: &Msg,
        rids: &mut Rids,
    ) -> Result<Turn<Probe, ProbeEnd>, NoMemory>
        requires { rids.old.next < 2 ^ 62 }
        ensures turn { IfOk result (λ t. shown probe_end t rids.new.next ≡ by_rules cell_asks rids.old.next (fed self from rid msg.now rids.old.next)) }
        ensures free { (awaits (cell_asks self) from rid && needs_memory msg.now) ≡ false → IsOk result }
        ensures drawn { rids.new ≡ rids.old }
    {
        if !self.is_answered(from, rid) {
            return Ok(self.stay(alloc));
        }
        self.take(alloc, from.num, msg)
    }

    /// The outstanding requests once more, in the order in which they were first sent.
    #[tactic(auto, unfolding(tg_protocol::specs::Cells::work_asks))]
    pub fn again(&self, alloc: Global, rids: &mut Rids) -> Result<List<Out>, NoMemory>
        ensures asks { IfOk result (λ outs. outs ≡ cell_asks self.now) }
        ensures rids { rids.new ≡ rids.old }
    {
        let mut outs = List::new(alloc);
        let has = self.question();
        ask_alike(Role::Unit, &has, self.waits.as_slice(), &mut outs)?;
        Ok(outs)
    }
}

/// Each unit of this chain draws the next number.
fn wait_for(alloc: Global, chain: &Chain, rids: &mut Rids) -> Result<List<(u16, u64)>, NoMemory>
    requires { rids.old.next < 2 ^ 62 }
    ensures waits { IfOk result (λ waits. waits ≡ waits_for chain.now rids.old.next) }
    ensures next { OnOk result (rids.new.next ≡ rids.old.next + length chain.now) }
    ensures fits { length chain.now ≤ 5 }
{
    let mut waits = List::new(alloc);
    ask_each(chain.as_slice(), rids, &mut waits)?;
    Ok(waits)
}

impl Probe {
    /// What each unit is asked.
    fn question(&self) -> Msg
        ensures { result ≡ Has self.now.place.epoch self.now.place.pos self.now.place.pos 1 }
    {
        Msg::Has {
            epoch: self.place.epoch,
            lo: self.place.pos,
            hi: self.place.pos,
            step: 1,
        }
    }

    /// Whether this is an answer to one of the outstanding requests.
    #[tactic(auto, using(crate::proofs::Answering::awaits_each), unfolding(tg_protocol::specs::Cells::work_asks))]
    fn is_answered(&self, from: NodeId, rid: u64) -> bool
        ensures { result ≡ awaits (cell_asks self.now) from rid }
    {
        is_awaited(Role::Unit, self.waits.as_slice(), from, rid)
    }

    /// A message is passed by.
    #[tactic(auto, using(crate::proofs::Outs::none_drawn))]
    fn stay(self, alloc: Global) -> Turn<Probe, ProbeEnd>
        ensures { (n : ℕ) → shown probe_end result n ≡ by_rules cell_asks n (passes n self) }
    {
        Turn::More {
            machine: self,
            outs: List::new(alloc),
        }
    }

    /// An answer of this unit.
    #[tactic(auto, unfolding(tg_protocol::specs::Cells::work_feed, tg_protocol::specs::Cells::cell_feed, tg_protocol::specs::Replies::reply))]
    fn take(self, alloc: Global, unit: u16, msg: &Msg) -> Result<Turn<Probe, ProbeEnd>, NoMemory>
        ensures turn { IfOk result (λ t. (n : ℕ) → shown probe_end t n ≡ by_rules cell_asks n (cell_feed self unit (reply msg.now) n)) }
        ensures free { needs_memory msg.now ≡ false → IsOk result }
    {
        match msg {
            Msg::Whole => self.see(alloc, unit),
            Msg::Missing { pos } if *pos < FAR => self.see(alloc, unit),
            Msg::Fenced { epoch } => Ok(self.fence(alloc, unit, *epoch)),
            _ => Ok(self.stay(alloc)),
        }
    }

    /// The unit has answered in the epoch.
    #[tactic(auto, using(crate::proofs::Outs::none_drawn), unfolding(tg_protocol::specs::Cells::work_feed, tg_protocol::specs::Cells::cell_feed))]
    fn see(self, alloc: Global, unit: u16) -> Result<Turn<Probe, ProbeEnd>, NoMemory>
        ensures { IfOk result (λ t. (n : ℕ) → shown probe_end t n ≡ by_rules cell_asks n (cell_feed self unit IsWhole n)) }
    {
        let mut kept = List::new(alloc);
        keep_others(unit, self.waits.as_slice(), &mut kept)?;
        if kept.is_empty() {
            let end = ProbeEnd::Seen;
            let outs = List::new(alloc);
            return Ok(Turn::End { end, outs });
        }
        let Probe { place, waits: _ } = self;
        let machine = Probe { place, waits: kept };
        Ok(Turn::More {
            machine,
            outs: List::new(alloc),
        })
    }

    /// The unit stands at another epoch.
    #[tactic(auto, unfolding(tg_protocol::specs::Cells::work_feed, tg_protocol::specs::Cells::cell_feed))]
    fn fence(self, alloc: Global, unit: u16, epoch: Epoch) -> Turn<Probe, ProbeEnd>
        ensures { (n : ℕ) → shown probe_end result n ≡ by_rules cell_asks n (cell_feed self unit (IsFenced epoch) n) }
    {
        if epoch <= self.place.epoch {
            return self.stay(alloc);
        }
        Turn::End {
            end: ProbeEnd::Fenced { unit, epoch },
            outs: List::new(alloc),
        }
    }
}
