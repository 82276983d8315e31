//! A hole is filled: with junk, or with the page that the head holds already.

ghost use Rattle.std.specs.Prelude.{ℕ, ◌≡◌, ◌<◌, ◌≤◌, ◌+◌, ◌^◌, ◌&&◌, length, false, IfOk, IsOk, OnErr};
ghost use Rattle.tg_base.specs.declared.cell.Cell.TheVariants.{Junk};
ghost use Rattle.tg_protocol.specs.Cells.{cell_asks, cell_feed, fill_cell, copies_on};
ghost use Rattle.tg_protocol.specs.Replies.{reply, near, IsHeld, IsTaken, IsGone, IsFenced};
ghost use Rattle.tg_protocol.specs.Requests.{passes, awaits};
ghost use Rattle.tg_chain.specs.Turns.{shown, by_rules, fed, needs_memory};
ghost use Rattle.tg_chain.specs.Ends.{fill_end, accepted};

use crate::asking::{FAR, answers, is_same_cell, one};
use crate::cell_place::CellPlace;
use crate::ends::FillCellEnd;
use crate::fill_state::FillState;
use std::alloc::Global;
use std::marker::Model;
use tg_base::{Cell, Chain, Epoch, List, Msg, NoMemory, NodeId, Out, Pos, Rids, Turn};

/// Fills a position at the head of its chain, and carries what the head holds down to each next unit.
pub struct FillCell {
    place: CellPlace,
    state: FillState,
}

// By hand, since a derived drop is proved anew wherever a value is dropped.
impl Drop for FillCell {
    fn drop(self) {
        let FillCell { place: _, state: _ } = self;
    }
}

impl Model for FillCell {
    ghost use Rattle.std.specs.Prelude.{◌<◌, length};
    ghost use Rattle.tg_protocol.specs.Cells.{CellJob, works};
    ghost use Rattle.tg_chain.specs.Fills.{fill_work, fill_at};

    ghost Value = { CellJob };

    ghost view = { λ m. works m.place (fill_work m.state) };

    ghost invariant = { λ m. fill_at m.state < length m.place.chain };
}

impl FillCell {
    /// Asks the head to fill the position.
    pub fn start(
        alloc: Global,
        chain: Chain,
        epoch: Epoch,
        pos: Pos,
        rids: &mut Rids,
    ) -> Result<Turn<FillCell, FillCellEnd>, NoMemory>
        requires chain { 0 < length chain }
        requires numbers { rids.old.next < 2 ^ 62 }
        ensures turn { IfOk result (λ t. shown fill_end t rids.new.next ≡ by_rules cell_asks rids.old.next (fill_cell (record { chain = chain; epoch = epoch; pos = pos }) rids.old.next)) }
        ensures err { OnErr result (rids.new ≡ rids.old) }
        ensures drawn { rids.new.next ≤ rids.old.next + 1 }
    {
        let place = CellPlace { chain, epoch, pos };
        FillCell::fill(alloc, place, rids)
    }

    /// Takes an answer of the unit that was asked, and passes every other message by.
    pub fn feed(
        self,
        alloc: Global,
        from: NodeId,
        rid: u64,
        msg: &Msg,
        rids: &mut Rids,
    ) -> Result<Turn<FillCell, FillCellEnd>, NoMemory>
        requires { rids.old.next < 2 ^ 62 }
        ensures turn { IfOk result (λ t. shown fill_end t rids.new.next ≡ by_rules cell_asks rids.old.next (fed self from rid msg.now rids.old.next)) }
        ensures free { (awaits (cell_asks self) from rid && needs_memory msg.now) ≡ false → IsOk result }
        ensures err { OnErr result (rids.new ≡ rids.old) }
        ensures drawn { rids.new.next ≤ rids.old.next + 1 }
    {
        if !self.is_answered(from, rid) {
            return Ok(self.stay(alloc));
        }
        self.take(alloc, from.num, msg, rids)
    }

    /// The outstanding request once more.
    #[tactic(auto, unfolding(tg_protocol::specs::Cells::work_asks))]
    pub fn again(&self, alloc: Global, rids: &mut Rids) -> Result<List<Out>, NoMemory>
        ensures asks { IfOk result (λ outs. outs ≡ cell_asks self.now) }
        ensures rids { rids.new ≡ rids.old }
    {
        let epoch = self.place.epoch;
        let pos = self.place.pos;
        match &self.state {
            FillState::Asks { rid } => {
                let to = self.place.unit(0);
                one(alloc, to, *rid, Msg::Fill { epoch, pos })
            }
            FillState::Copies { rid, cell, at } => {
                let to = self.place.unit(*at);
                let cell = cell.copy()?;
                one(alloc, to, *rid, Msg::Copy { epoch, pos, cell })
            }
        }
    }
}

impl FillCell {
    /// Asks the head of this place.
    #[tactic(auto, using(crate::proofs::Outs::fill_drawn), unfolding(tg_protocol::specs::Cells::fill_cell))]
    pub(crate) fn fill(
        alloc: Global,
        place: CellPlace,
        rids: &mut Rids,
    ) -> Result<Turn<FillCell, FillCellEnd>, NoMemory>
        requires chain { 0 < length place.chain }
        requires numbers { rids.old.next < 2 ^ 62 }
        ensures turn { IfOk result (λ t. shown fill_end t rids.new.next ≡ by_rules cell_asks rids.old.next (fill_cell place rids.old.next)) }
        ensures err { OnErr result (rids.new ≡ rids.old) }
        ensures drawn { rids.new.next ≤ rids.old.next + 1 }
    {
        let rid = rids.next;
        let state = FillState::Asks { rid };
        let machine = FillCell { place, state };
        let outs = machine.again(alloc, rids)?;
        let _rid = rids.draw();
        Ok(Turn::More { machine, outs })
    }

    /// The cell goes to the unit at a place of the chain, if there is one.
    #[tactic(auto, using(crate::proofs::Outs::copy_drawn))]
    fn carry(
        alloc: Global,
        place: CellPlace,
        cell: Cell,
        at: usize,
        rids: &mut Rids,
    ) -> Result<Turn<FillCell, FillCellEnd>, NoMemory>
        requires { rids.old.next < 2 ^ 62 }
        ensures turn { IfOk result (λ t. shown fill_end t rids.new.next ≡ by_rules cell_asks rids.old.next (copies_on place cell at rids.old.next)) }
        ensures err { OnErr result (rids.new ≡ rids.old) }
        ensures drawn { rids.new.next ≤ rids.old.next + 1 }
    {
        if at >= place.len() {
            let outs = List::new(alloc);
            let end = FillCellEnd::Done { cell };
            return Ok(Turn::End { end, outs });
        }
        let rid = rids.next;
        let state = FillState::Copies { rid, cell, at };
        let machine = FillCell { place, state };
        let outs = machine.again(alloc, rids)?;
        let _rid = rids.draw();
        Ok(Turn::More { machine, outs })
    }

    /// Whether this is an answer to the outstanding request.
    #[tactic(auto, unfolding(tg_protocol::specs::Cells::work_asks))]
    fn is_answered(&self, from: NodeId, rid: u64) -> bool
        ensures { result ≡ awaits (cell_asks self.now) from rid }
    {
        match &self.state {
            FillState::Asks { rid: own } => answers(self.place.unit(0), *own, from, rid),
            FillState::Copies { rid: own, at, .. } => {
                answers(self.place.unit(*at), *own, from, rid)
            }
        }
    }

    /// A message is passed by.
    #[tactic(auto, using(crate::proofs::Outs::none_drawn))]
    fn stay(self, alloc: Global) -> Turn<FillCell, FillCellEnd>
        ensures { (n : ℕ) → shown fill_end result n ≡ by_rules cell_asks n (passes n self) }
    {
        Turn::More {
            machine: self,
            outs: List::new(alloc),
        }
    }

    /// An answer of this unit.
    #[tactic(auto, unfolding(tg_protocol::specs::Cells::work_feed, tg_protocol::specs::Cells::cell_feed, tg_protocol::specs::Replies::reply))]
    fn take(
        self,
        alloc: Global,
        unit: u16,
        msg: &Msg,
        rids: &mut Rids,
    ) -> Result<Turn<FillCell, FillCellEnd>, NoMemory>
        requires { rids.old.next < 2 ^ 62 }
        ensures turn { IfOk result (λ t. shown fill_end t rids.new.next ≡ by_rules cell_asks rids.old.next (cell_feed self unit (reply msg.now) rids.old.next)) }
        ensures free { needs_memory msg.now ≡ false → IsOk result }
        ensures err { OnErr result (rids.new ≡ rids.old) }
        ensures drawn { rids.new.next ≤ rids.old.next + 1 }
    {
        match msg {
            Msg::Held => self.hold(alloc, rids),
            Msg::Taken { cell } => self.find(alloc, cell, rids),
            Msg::Gone { below } => Ok(self.miss(alloc, *below)),
            Msg::Fenced { epoch } => Ok(self.fence(alloc, unit, *epoch)),
            _ => Ok(self.stay(alloc)),
        }
    }

    /// The unit holds what it was sent: junk, or the cell.
    #[tactic(auto, unfolding(tg_protocol::specs::Cells::work_feed, tg_protocol::specs::Cells::cell_feed))]
    fn hold(self, alloc: Global, rids: &mut Rids) -> Result<Turn<FillCell, FillCellEnd>, NoMemory>
        requires { rids.old.next < 2 ^ 62 }
        ensures turn { IfOk result (λ t. (u : ℕ) → shown fill_end t rids.new.next ≡ by_rules cell_asks rids.old.next (cell_feed self u IsHeld rids.old.next)) }
        ensures err { OnErr result (rids.new ≡ rids.old) }
        ensures drawn { rids.new.next ≤ rids.old.next + 1 }
    {
        let _units = self.place.len();
        let FillCell { place, state } = self;
        match state {
            FillState::Asks { .. } => FillCell::carry(alloc, place, Cell::Junk, 1, rids),
            FillState::Copies { cell, at, .. } => FillCell::carry(alloc, place, cell, at + 1, rids),
        }
    }

    /// The unit holds this cell: the head's is carried down, and below the head an equal one is as good
    /// as held.
    #[tactic(auto, unfolding(tg_protocol::specs::Cells::work_feed, tg_protocol::specs::Cells::cell_feed))]
    fn find(
        self,
        alloc: Global,
        cell: &Cell,
        rids: &mut Rids,
    ) -> Result<Turn<FillCell, FillCellEnd>, NoMemory>
        requires { rids.old.next < 2 ^ 62 }
        ensures turn { IfOk result (λ t. (u : ℕ) → shown fill_end t rids.new.next ≡ by_rules cell_asks rids.old.next (cell_feed self u (IsTaken cell.now) rids.old.next)) }
        ensures err { OnErr result (rids.new ≡ rids.old) }
        ensures drawn { rids.new.next ≤ rids.old.next + 1 }
    {
        if !self.accepts(cell) {
            return Ok(self.stay(alloc));
        }
        let _units = self.place.len();
        let FillCell { place, state } = self;
        match state {
            FillState::Asks { .. } => FillCell::carry(alloc, place, cell.copy()?, 1, rids),
            FillState::Copies { cell, at, .. } => FillCell::carry(alloc, place, cell, at + 1, rids),
        }
    }

    /// Whether a unit that holds this cell is done.
    fn accepts(&self, cell: &Cell) -> bool
        ensures { result ≡ accepted self.now.work cell.now }
    {
        match &self.state {
            FillState::Asks { .. } => true,
            FillState::Copies { cell: own, .. } => is_same_cell(cell, own),
        }
    }

    /// The unit has trimmed what is below a position.
    #[tactic(auto, unfolding(tg_protocol::specs::Cells::work_feed, tg_protocol::specs::Cells::cell_feed))]
    fn miss(self, alloc: Global, below: Pos) -> Turn<FillCell, FillCellEnd>
        ensures { (u n : ℕ) → shown fill_end result n ≡ by_rules cell_asks n (cell_feed self u (near below (IsGone below)) n) }
    {
        if below >= FAR || below <= self.place.pos {
            return self.stay(alloc);
        }
        Turn::End {
            end: FillCellEnd::Gone { below },
            outs: List::new(alloc),
        }
    }

    /// The unit stands at another epoch.
    #[tactic(auto, unfolding(tg_protocol::specs::Cells::work_feed, tg_protocol::specs::Cells::cell_feed))]
    fn fence(self, alloc: Global, unit: u16, epoch: Epoch) -> Turn<FillCell, FillCellEnd>
        ensures { (n : ℕ) → shown fill_end result n ≡ by_rules cell_asks n (cell_feed self unit (IsFenced epoch) n) }
    {
        if epoch <= self.place.epoch {
            return self.stay(alloc);
        }
        Turn::End {
            end: FillCellEnd::Fenced { unit, epoch },
            outs: List::new(alloc),
        }
    }
}
