//! A page goes down a chain (van Renesse and Schneider, "Chain replication", 2004).

ghost use Rattle.std.specs.Prelude.{ℕ, ◌≡◌, ◌<◌, ◌≤◌, ◌+◌, ◌^◌, ◌&&◌, length, true, false, IfOk, IsOk, OnErr};
ghost use Rattle.tg_protocol.specs.Cells.{cell_asks, cell_feed, put_cell, put_on};
ghost use Rattle.tg_protocol.specs.Replies.{reply, near, IsHeld, IsTaken, IsGone, IsFenced};
ghost use Rattle.tg_protocol.specs.Requests.{passes, awaits};
ghost use Rattle.tg_chain.specs.Turns.{shown, by_rules, fed, needs_memory};
ghost use Rattle.tg_chain.specs.Ends.{put_end, page_of};

use crate::asking::{FAR, answers, is_page, one};
use crate::cell_place::CellPlace;
use crate::ends::PutCellEnd;
use std::alloc::Global;
use std::marker::Model;
use tg_base::{Blob, Cell, Chain, Epoch, List, Msg, NoMemory, NodeId, Out, Pos, Rids, Turn};

/// Writes a page to each unit of a chain in turn, from the head on.
pub struct PutCell {
    place: CellPlace,
    rid: u64,
    page: Blob,
    at: usize,
}

// By hand, since a derived drop is proved anew wherever a value is dropped.
impl Drop for PutCell {
    fn drop(self) {
        let PutCell {
            place: _,
            rid: _,
            page: _,
            at: _,
        } = self;
    }
}

impl Model for PutCell {
    ghost use Rattle.std.specs.Prelude.{◌<◌, length};
    ghost use Rattle.tg_protocol.specs.Cells.{CellJob, Puts, works};

    ghost Value = { CellJob };

    ghost view = { λ m. works m.place (Puts m.rid m.page m.at) };

    ghost invariant = { λ m. m.at < length m.place.chain };
}

impl PutCell {
    /// Sends the page to the head.
    #[tactic(auto, unfolding(tg_protocol::specs::Cells::put_cell))]
    pub fn start(
        alloc: Global,
        chain: Chain,
        epoch: Epoch,
        pos: Pos,
        page: Blob,
        rids: &mut Rids,
    ) -> Result<Turn<PutCell, PutCellEnd>, NoMemory>
        requires chain { 0 < length chain }
        requires numbers { rids.old.next < 2 ^ 62 }
        ensures turn { IfOk result (λ t. shown (put_end page) t rids.new.next ≡ by_rules cell_asks rids.old.next (put_cell (record { chain = chain; epoch = epoch; pos = pos }) page rids.old.next)) }
        ensures err { OnErr result (rids.new ≡ rids.old) }
        ensures drawn { rids.new.next ≤ rids.old.next + 1 }
    {
        let place = CellPlace { chain, epoch, pos };
        PutCell::ask(alloc, place, page, 0, rids)
    }

    /// Takes an answer of the unit that was asked, and passes every other message by.
    #[tactic(auto, unfolding(tg_protocol::specs::Cells::work_asks))]
    pub fn feed(
        self,
        alloc: Global,
        from: NodeId,
        rid: u64,
        msg: &Msg,
        rids: &mut Rids,
    ) -> Result<Turn<PutCell, PutCellEnd>, NoMemory>
        requires { rids.old.next < 2 ^ 62 }
        ensures turn { IfOk result (λ t. shown (put_end (page_of self)) t rids.new.next ≡ by_rules cell_asks rids.old.next (fed self from rid msg.now rids.old.next)) }
        ensures free { (awaits (cell_asks self) from rid && needs_memory msg.now) ≡ false → IsOk result }
        ensures err { OnErr result (rids.new ≡ rids.old) }
        ensures drawn { rids.new.next ≤ rids.old.next + 1 }
    {
        if !answers(self.place.unit(self.at), self.rid, from, rid) {
            return Ok(self.stay(alloc));
        }
        self.take(alloc, from.num, msg, rids)
    }

    /// The outstanding request once more.
    #[tactic(auto, unfolding(tg_protocol::specs::Cells::work_asks))]
    pub fn again(&self, alloc: Global, rids: &mut Rids) -> Result<List<Out>, NoMemory>
        ensures asks { IfOk result (λ outs. outs ≡ cell_asks self.now) }
        ensures rids { rids.new ≡ rids.old }
    {
        let to = self.place.unit(self.at);
        let msg = Msg::Write {
            epoch: self.place.epoch,
            pos: self.place.pos,
            page: self.page.copy()?,
        };
        one(alloc, to, self.rid, msg)
    }
}

impl PutCell {
    /// Sends the page to the unit at a place of the chain.
    #[tactic(auto, using(crate::proofs::Outs::put_drawn))]
    fn ask(
        alloc: Global,
        place: CellPlace,
        page: Blob,
        at: usize,
        rids: &mut Rids,
    ) -> Result<Turn<PutCell, PutCellEnd>, NoMemory>
        requires place { at < length place.chain }
        requires numbers { rids.old.next < 2 ^ 62 }
        ensures turn { IfOk result (λ t. shown (put_end page) t rids.new.next ≡ by_rules cell_asks rids.old.next (put_on place page at rids.old.next true)) }
        ensures err { OnErr result (rids.new ≡ rids.old) }
        ensures drawn { rids.new.next ≤ rids.old.next + 1 }
    {
        let rid = rids.next;
        let machine = PutCell {
            place,
            rid,
            page,
            at,
        };
        let outs = machine.again(alloc, rids)?;
        let _rid = rids.draw();
        Ok(Turn::More { machine, outs })
    }

    /// A message is passed by.
    #[tactic(auto, using(crate::proofs::Outs::none_drawn))]
    fn stay(self, alloc: Global) -> Turn<PutCell, PutCellEnd>
        ensures { (n : ℕ) → shown (put_end (page_of self)) result n ≡ by_rules cell_asks n (passes n self) }
    {
        Turn::More {
            machine: self,
            outs: List::new(alloc),
        }
    }

    /// An answer of this unit.
    #[tactic(auto, unfolding(tg_protocol::specs::Cells::work_feed, tg_protocol::specs::Cells::cell_feed, tg_protocol::specs::Replies::reply))]
    fn take(
        self,
        alloc: Global,
        unit: u16,
        msg: &Msg,
        rids: &mut Rids,
    ) -> Result<Turn<PutCell, PutCellEnd>, NoMemory>
        requires { rids.old.next < 2 ^ 62 }
        ensures turn { IfOk result (λ t. shown (put_end (page_of self)) t rids.new.next ≡ by_rules cell_asks rids.old.next (cell_feed self unit (reply msg.now) rids.old.next)) }
        ensures free { needs_memory msg.now ≡ false → IsOk result }
        ensures err { OnErr result (rids.new ≡ rids.old) }
        ensures drawn { rids.new.next ≤ rids.old.next + 1 }
    {
        match msg {
            Msg::Held => self.hold(alloc, rids),
            Msg::Taken { cell } => self.lose(alloc, cell),
            Msg::Gone { below } => Ok(self.miss(alloc, *below)),
            Msg::Fenced { epoch } => Ok(self.fence(alloc, unit, *epoch)),
            _ => Ok(self.stay(alloc)),
        }
    }

    /// The unit holds the page: it goes on to the next one, if there is one.
    #[tactic(auto, unfolding(tg_protocol::specs::Cells::work_feed, tg_protocol::specs::Cells::cell_feed))]
    fn hold(self, alloc: Global, rids: &mut Rids) -> Result<Turn<PutCell, PutCellEnd>, NoMemory>
        requires { rids.old.next < 2 ^ 62 }
        ensures turn { IfOk result (λ t. (u : ℕ) → shown (put_end (page_of self)) t rids.new.next ≡ by_rules cell_asks rids.old.next (cell_feed self u IsHeld rids.old.next)) }
        ensures err { OnErr result (rids.new ≡ rids.old) }
        ensures drawn { rids.new.next ≤ rids.old.next + 1 }
    {
        let PutCell {
            place,
            rid: _,
            page,
            at,
        } = self;
        let at = at + 1;
        if at < place.len() {
            return PutCell::ask(alloc, place, page, at, rids);
        }
        Ok(Turn::End {
            end: PutCellEnd::Done,
            outs: List::new(alloc),
        })
    }

    /// The unit holds this cell. Only the head may refuse the page.
    #[tactic(auto, unfolding(tg_protocol::specs::Cells::work_feed, tg_protocol::specs::Cells::cell_feed))]
    fn lose(self, alloc: Global, cell: &Cell) -> Result<Turn<PutCell, PutCellEnd>, NoMemory>
        ensures { IfOk result (λ t. (u n : ℕ) → shown (put_end (page_of self)) t n ≡ by_rules cell_asks n (cell_feed self u (IsTaken cell.now) n)) }
    {
        if self.at != 0 || is_page(cell, &self.page) {
            return Ok(self.stay(alloc));
        }
        Ok(Turn::End {
            end: PutCellEnd::Lost { cell: cell.copy()? },
            outs: List::new(alloc),
        })
    }

    /// The unit has trimmed what is below a position.
    #[tactic(auto, unfolding(tg_protocol::specs::Cells::work_feed, tg_protocol::specs::Cells::cell_feed))]
    fn miss(self, alloc: Global, below: Pos) -> Turn<PutCell, PutCellEnd>
        ensures { (u n : ℕ) → shown (put_end (page_of self)) result n ≡ by_rules cell_asks n (cell_feed self u (near below (IsGone below)) n) }
    {
        if below >= FAR || below <= self.place.pos {
            return self.stay(alloc);
        }
        Turn::End {
            end: PutCellEnd::Gone { below },
            outs: List::new(alloc),
        }
    }

    /// The unit stands at another epoch.
    #[tactic(auto, unfolding(tg_protocol::specs::Cells::work_feed, tg_protocol::specs::Cells::cell_feed))]
    fn fence(self, alloc: Global, unit: u16, epoch: Epoch) -> Turn<PutCell, PutCellEnd>
        ensures { (n : ℕ) → shown (put_end (page_of self)) result n ≡ by_rules cell_asks n (cell_feed self unit (IsFenced epoch) n) }
    {
        if epoch <= self.place.epoch {
            return self.stay(alloc);
        }
        Turn::End {
            end: PutCellEnd::Fenced { unit, epoch },
            outs: List::new(alloc),
        }
    }
}
