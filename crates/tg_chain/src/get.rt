//! A cell is read at the end of its chain, and a hole is filled.

ghost use Rattle.std.specs.Prelude.{ℕ, ◌≡◌, ◌<◌, ◌≤◌, ◌+◌, ◌^◌, ◌&&◌, length, false, IfOk, IsOk, OnErr};
ghost use Rattle.tg_protocol.specs.Cells.{Place, cell_asks, cell_feed, get_cell, works, Gets};
ghost use Rattle.tg_protocol.specs.Replies.{reply, near, IsGone, IsFenced};
ghost use Rattle.tg_protocol.specs.Requests.{passes, awaits};
ghost use Rattle.tg_chain.specs.Turns.{shown, by_rules, fed, needs_memory};
ghost use Rattle.tg_chain.specs.Ends.{get_end, fill_end};

use crate::asking::{FAR, answers, one};
use crate::cell_place::CellPlace;
use crate::ends::{FillCellEnd, GetCellEnd};
use crate::fill::FillCell;
use crate::get_state::GetState;
use std::alloc::Global;
use std::marker::Model;
use tg_base::{Chain, Epoch, List, Msg, NoMemory, NodeId, Out, Pos, Rids, Turn};

/// Reads a position at the last unit of its chain. Where that has no cell, the position is filled.
pub struct GetCell {
    state: GetState,
}

// By hand, since a derived drop is proved anew wherever a value is dropped.
impl Drop for GetCell {
    fn drop(self) {
        let GetCell { state: _ } = self;
    }
}

impl Model for GetCell {
    ghost use Rattle.std.specs.Prelude.{IsTrue};
    ghost use Rattle.tg_protocol.specs.Cells.{CellJob};
    ghost use Rattle.tg_chain.specs.Gets.{get_job, is_get};

    ghost Value = { CellJob };

    ghost view = { λ m. get_job m.state };

    ghost invariant = { λ m. IsTrue (is_get m.state) };
}

impl GetCell {
    /// Asks the last unit for the position's cell.
    #[tactic(auto, using(crate::proofs::Outs::get_drawn), unfolding(tg_protocol::specs::Cells::get_cell))]
    pub fn start(
        alloc: Global,
        chain: Chain,
        epoch: Epoch,
        pos: Pos,
        rids: &mut Rids,
    ) -> Result<Turn<GetCell, GetCellEnd>, NoMemory>
        requires chain { 0 < length chain }
        requires numbers { rids.old.next < 2 ^ 62 }
        ensures turn { IfOk result (λ t. shown get_end t rids.new.next ≡ by_rules cell_asks rids.old.next (get_cell (record { chain = chain; epoch = epoch; pos = pos }) rids.old.next)) }
        ensures err { OnErr result (rids.new ≡ rids.old) }
        ensures drawn { rids.new.next ≤ rids.old.next + 1 }
    {
        let rid = rids.next;
        let place = CellPlace { chain, epoch, pos };
        let state = GetState::Reads { place, rid };
        let machine = GetCell { state };
        let outs = machine.again(alloc, rids)?;
        let _rid = rids.draw();
        Ok(Turn::More { machine, outs })
    }

    /// Takes an answer of the unit that was asked, and passes every other message by.
    pub fn feed(
        self,
        alloc: Global,
        from: NodeId,
        rid: u64,
        msg: &Msg,
        rids: &mut Rids,
    ) -> Result<Turn<GetCell, GetCellEnd>, NoMemory>
        requires { rids.old.next < 2 ^ 62 }
        ensures turn { IfOk result (λ t. shown get_end t rids.new.next ≡ by_rules cell_asks rids.old.next (fed self from rid msg.now rids.old.next)) }
        ensures free { (awaits (cell_asks self) from rid && needs_memory msg.now) ≡ false → IsOk result }
        ensures err { OnErr result (rids.new ≡ rids.old) }
        ensures drawn { rids.new.next ≤ rids.old.next + 1 }
    {
        let GetCell { state } = self;
        match state {
            GetState::Fills { fill } => {
                let turn = fill.feed(alloc, from, rid, msg, rids)?;
                Ok(as_get(turn))
            }
            GetState::Reads { place, rid: own } => {
                GetCell::read(alloc, place, own, from, rid, msg, rids)
            }
        }
    }

    /// The outstanding request once more.
    #[tactic(auto, unfolding(tg_protocol::specs::Cells::work_asks))]
    pub fn again(&self, alloc: Global, rids: &mut Rids) -> Result<List<Out>, NoMemory>
        ensures asks { IfOk result (λ outs. outs ≡ cell_asks self.now) }
        ensures rids { rids.new ≡ rids.old }
    {
        match &self.state {
            GetState::Fills { fill } => fill.again(alloc, rids),
            GetState::Reads { place, rid } => {
                let to = place.unit(place.len() - 1);
                let epoch = place.epoch;
                let pos = place.pos;
                one(alloc, to, *rid, Msg::Read { epoch, pos })
            }
        }
    }
}

/// What a fill's turn is to the get that began it.
fn as_get(turn: Turn<FillCell, FillCellEnd>) -> Turn<GetCell, GetCellEnd>
    ensures { (n : ℕ) → shown get_end result n ≡ shown fill_end turn n }
{
    match turn {
        Turn::More {
            machine: fill,
            outs,
        } => {
            let state = GetState::Fills { fill };
            let machine = GetCell { state };
            Turn::More { machine, outs }
        }
        Turn::End { end, outs } => Turn::End {
            end: end_of_get(end),
            outs,
        },
    }
}

/// A fill's end as a get's.
fn end_of_get(end: FillCellEnd) -> GetCellEnd
    ensures { get_end result ≡ fill_end end }
{
    match end {
        FillCellEnd::Done { cell } => GetCellEnd::Done { cell },
        FillCellEnd::Fenced { unit, epoch } => GetCellEnd::Fenced { unit, epoch },
        FillCellEnd::Gone { below } => GetCellEnd::Gone { below },
    }
}

impl GetCell {
    /// A message that comes while the last unit is asked.
    #[tactic(auto, unfolding(tg_protocol::specs::Cells::work_asks))]
    fn read(
        alloc: Global,
        place: CellPlace,
        own: u64,
        from: NodeId,
        rid: u64,
        msg: &Msg,
        rids: &mut Rids,
    ) -> Result<Turn<GetCell, GetCellEnd>, NoMemory>
        requires chain { 0 < length place.chain }
        requires numbers { rids.old.next < 2 ^ 62 }
        ensures turn { IfOk result (λ t. shown get_end t rids.new.next ≡ by_rules cell_asks rids.old.next (fed (works place (Gets own)) from rid msg.now rids.old.next)) }
        ensures free { (awaits (cell_asks (works place (Gets own))) from rid && needs_memory msg.now) ≡ false → IsOk result }
        ensures err { OnErr result (rids.new ≡ rids.old) }
        ensures drawn { rids.new.next ≤ rids.old.next + 1 }
    {
        if !answers(place.unit(place.len() - 1), own, from, rid) {
            return Ok(GetCell::stay(alloc, place, own));
        }
        GetCell::take(alloc, place, own, from.num, msg, rids)
    }

    /// A message is passed by.
    #[tactic(auto, using(crate::proofs::Outs::none_drawn))]
    fn stay(alloc: Global, place: CellPlace, rid: u64) -> Turn<GetCell, GetCellEnd>
        requires { 0 < length place.chain }
        ensures { (n : ℕ) → shown get_end result n ≡ by_rules cell_asks n (passes n (works place (Gets rid))) }
    {
        let state = GetState::Reads { place, rid };
        Turn::More {
            machine: GetCell { state },
            outs: List::new(alloc),
        }
    }

    /// An answer of the last unit.
    #[tactic(auto, unfolding(tg_protocol::specs::Cells::work_feed, tg_protocol::specs::Cells::cell_feed, tg_protocol::specs::Replies::reply))]
    fn take(
        alloc: Global,
        place: CellPlace,
        own: u64,
        unit: u16,
        msg: &Msg,
        rids: &mut Rids,
    ) -> Result<Turn<GetCell, GetCellEnd>, NoMemory>
        requires chain { 0 < length place.chain }
        requires numbers { rids.old.next < 2 ^ 62 }
        ensures turn { IfOk result (λ t. shown get_end t rids.new.next ≡ by_rules cell_asks rids.old.next (cell_feed (works place (Gets own)) unit (reply msg.now) rids.old.next)) }
        ensures free { needs_memory msg.now ≡ false → IsOk result }
        ensures err { OnErr result (rids.new ≡ rids.old) }
        ensures drawn { rids.new.next ≤ rids.old.next + 1 }
    {
        match msg {
            Msg::Taken { cell } => {
                let cell = cell.copy()?;
                let outs = List::new(alloc);
                let end = GetCellEnd::Done { cell };
                Ok(Turn::End { end, outs })
            }
            Msg::Unwritten => {
                let turn = FillCell::fill(alloc, place, rids)?;
                Ok(as_get(turn))
            }
            Msg::Gone { below } => Ok(GetCell::miss(alloc, place, own, *below)),
            Msg::Fenced { epoch } => Ok(GetCell::fence(alloc, place, own, unit, *epoch)),
            _ => Ok(GetCell::stay(alloc, place, own)),
        }
    }

    /// The unit has trimmed what is below a position.
    #[tactic(auto, unfolding(tg_protocol::specs::Cells::work_feed, tg_protocol::specs::Cells::cell_feed))]
    fn miss(alloc: Global, place: CellPlace, own: u64, below: Pos) -> Turn<GetCell, GetCellEnd>
        requires { 0 < length place.chain }
        ensures { (u n : ℕ) → shown get_end result n ≡ by_rules cell_asks n (cell_feed (works place (Gets own)) u (near below (IsGone below)) n) }
    {
        if below >= FAR || below <= place.pos {
            return GetCell::stay(alloc, place, own);
        }
        Turn::End {
            end: GetCellEnd::Gone { below },
            outs: List::new(alloc),
        }
    }

    /// The unit stands at another epoch.
    #[tactic(auto, unfolding(tg_protocol::specs::Cells::work_feed, tg_protocol::specs::Cells::cell_feed))]
    fn fence(
        alloc: Global,
        place: CellPlace,
        own: u64,
        unit: u16,
        epoch: Epoch,
    ) -> Turn<GetCell, GetCellEnd>
        requires { 0 < length place.chain }
        ensures { (n : ℕ) → shown get_end result n ≡ by_rules cell_asks n (cell_feed (works place (Gets own)) unit (IsFenced epoch) n) }
    {
        if epoch <= place.epoch {
            return GetCell::stay(alloc, place, own);
        }
        Turn::End {
            end: GetCellEnd::Fenced { unit, epoch },
            outs: List::new(alloc),
        }
    }
}
