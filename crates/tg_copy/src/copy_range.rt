//! The cells of a stripe are brought to a spare unit.

ghost use Rattle.std.specs.Prelude.{ℕ, ◌≡◌, ◌<◌, ◌≤◌, ◌+◌, ◌^◌, ◌&&◌, nat_lt, true, false, IfOk, IsOk, OnErr};
ghost use Rattle.tg_base.specs.Layouts.{Layout};
ghost use Rattle.tg_protocol.specs.Words.{cell_eq};
ghost use Rattle.tg_protocol.specs.Replies.{reply, near, IsHeld, IsTaken, IsGone, IsFenced, IsSealed, IsMissing, IsWhole};
ghost use Rattle.tg_protocol.specs.Requests.{awaits, passes, learns, draws, met_gone};
ghost use Rattle.tg_protocol.specs.Trimming.{CopyWork, copy_asks, copy_start, copy_feed, copy_from, copy_at, copies_past, read_end};
ghost use Rattle.tg_chain.specs.Ends.{get_end as get_ended};
ghost use Rattle.tg_copy.specs.Stripes.{HasStripe};
ghost use Rattle.tg_copy.specs.Needs.{copy_needs, asked_needs, reading_needs, asks_on};
ghost use Rattle.tg_copy.specs.Turns.{shown, given_to, spare_of, by_copy, IsOfSpare};
ghost use Rattle.tg_copy.specs.Copies.{copying, asked, asking, getting, copy_fed};

use crate::copy_state::{Ask, CopyState};
use crate::ends::CopyEnd;
use crate::reading::Reading;
use crate::stripe::stripe_of;
use std::alloc::Global;
use std::marker::Model;
use tg_base::{Cell, Epoch, Join, List, Msg, NoMemory, NodeId, Out, Pos, Projection, Rids, Turn};
use tg_chain::{FAR, GetCell, GetCellEnd, Next, Step, answers, is_same_cell, one, unit, units_at};

/// A step of a copy. In a newer layout it starts over with the same spare and stripe.
pub type CopyStep = Step<CopyRange, Join, CopyEnd>;

/// Seals the spare at the layout's epoch, and brings it the cells of the stripe, rising. What a unit of the stripe
/// has trimmed is trimmed in the spare too. At the end the spare is asked whether it has each position, and the
/// first that it lacks is brought again.
pub struct CopyRange {
    join: Join,
    state: CopyState,
}

// By hand, since a derived drop is proved anew wherever a value is dropped.
impl Drop for CopyRange {
    fn drop(self) {
        let CopyRange { join: _, state: _ } = self;
    }
}

impl Model for CopyRange {
    ghost use Rattle.tg_copy.specs.Words.{CopyJob};
    ghost use Rattle.tg_copy.specs.Copies.{copying_of};

    ghost Value = { CopyJob };

    ghost view = { λ m. copying_of m.join m.state };
}

impl CopyRange {
    /// Seals the spare.
    #[tactic(auto, unfolding(tg_protocol::specs::Trimming::copy_start))]
    pub fn start(
        alloc: Global,
        proj: &Projection,
        join: Join,
        rids: &mut Rids,
    ) -> Result<CopyStep, NoMemory>
        requires stripe { HasStripe proj.now join }
        requires numbers { rids.old.next < 2 ^ 62 }
        ensures turn { IfOk result (λ t. shown t rids.new.next ≡ by_copy proj.now rids.old.next (copy_start join.unit join.range join.stripe rids.old.next)) }
        ensures spare { IfOk result (λ t. IsOfSpare join (given_to t.next)) }
        ensures err { OnErr result (rids.new ≡ rids.old) }
        ensures drawn { rids.new.next ≤ rids.old.next + 1 }
    {
        CopyRange::ask(alloc, proj, join, Ask::Seal, 0, rids)
    }

    /// Takes an awaited answer in the layout by which it asked, and passes every other message by.
    pub fn feed(
        self,
        alloc: Global,
        proj: &Projection,
        from: NodeId,
        rid: u64,
        msg: &Msg,
        rids: &mut Rids,
    ) -> Result<CopyStep, NoMemory>
        requires stripe { HasStripe proj.now (spare_of self) }
        requires numbers { rids.old.next < 2 ^ 62 }
        ensures turn { IfOk result (λ t. shown t rids.new.next ≡ by_copy proj.now rids.old.next (copy_fed proj.now self from rid msg.now rids.old.next)) }
        ensures spare { IfOk result (λ t. IsOfSpare (spare_of self) (given_to t.next)) }
        ensures free { (awaits (copy_asks proj.now self) from rid && copy_needs proj.now self msg.now) ≡ false → IsOk result }
        ensures err { OnErr result (rids.new ≡ rids.old) }
        ensures drawn { rids.new.next ≤ rids.old.next + 1 }
    {
        let CopyRange { join, state } = self;
        match state {
            CopyState::Asks { rid: own, ask } => {
                CopyRange::ask_feed(alloc, proj, join, own, ask, from, rid, msg, rids)
            }
            CopyState::Reads { reading } => {
                CopyRange::read_feed(alloc, proj, join, reading, from, rid, msg, rids)
            }
        }
    }

    /// The outstanding request once more.
    #[tactic(auto, unfolding(tg_protocol::specs::Trimming::copy_work_asks))]
    pub fn again(
        &self,
        alloc: Global,
        proj: &Projection,
        rids: &mut Rids,
    ) -> Result<List<Out>, NoMemory>
        requires { HasStripe proj.now (spare_of self.now) }
        ensures asks { IfOk result (λ outs. outs ≡ copy_asks proj.now self.now) }
        ensures rids { rids.new ≡ rids.old }
    {
        match &self.state {
            CopyState::Asks { rid, ask } => request(alloc, proj, self.join, *rid, ask),
            CopyState::Reads { reading } => reading.get.again(alloc, rids),
        }
    }

    /// The spare, and the stripe that it is to hold.
    pub fn spare(&self) -> Join
        ensures { result ≡ spare_of self.now }
    {
        self.join
    }

    /// The spare and the stripe, with which it starts over where its caller learns a newer layout meanwhile.
    pub fn pause(self) -> Join
        ensures { result ≡ spare_of self }
    {
        self.join
    }
}

/// What the spare is asked under a number.
#[tactic(auto, unfolding(tg_protocol::specs::Trimming::copy_work_asks))]
fn request(
    alloc: Global,
    proj: &Projection,
    join: Join,
    rid: u64,
    ask: &Ask,
) -> Result<List<Out>, NoMemory>
    requires { HasStripe proj.now join }
    ensures { IfOk result (λ outs. outs ≡ copy_asks proj.now (asking join rid ask.now)) }
{
    let to = unit(join.unit);
    let epoch = proj.epoch;
    match ask {
        Ask::Seal => one(alloc, to, rid, Msg::Seal { epoch }),
        Ask::Store { pos, cell } => {
            let pos = *pos;
            let cell = cell.copy()?;
            one(alloc, to, rid, Msg::Copy { epoch, pos, cell })
        }
        Ask::Trim { below } => {
            let below = *below;
            one(alloc, to, rid, Msg::Trim { epoch, below })
        }
        Ask::Look => {
            let stripe = stripe_of(proj, join);
            let lo = stripe.first;
            let hi = stripe.end;
            let step = stripe.step;
            one(
                alloc,
                to,
                rid,
                Msg::Has {
                    epoch,
                    lo,
                    hi,
                    step,
                },
            )
        }
    }
}

// What is asked next. A unit has said that all below `gone` is trimmed, where it isn't 0.
impl CopyRange {
    /// The spare is asked.
    #[tactic(auto, using(crate::proofs::Outs::ask_drawn))]
    fn ask(
        alloc: Global,
        proj: &Projection,
        join: Join,
        ask: Ask,
        gone: Pos,
        rids: &mut Rids,
    ) -> Result<CopyStep, NoMemory>
        requires stripe { HasStripe proj.now join }
        requires numbers { rids.old.next < 2 ^ 62 }
        ensures turn { IfOk result (λ t. shown t rids.new.next ≡ by_copy proj.now rids.old.next (met_gone gone (draws rids.old.next (asking join rids.old.next ask)))) }
        ensures err { OnErr result (rids.new ≡ rids.old) }
        ensures drawn { rids.new.next ≤ rids.old.next + 1 }
    {
        let rid = rids.next;
        let outs = request(alloc, proj, join, rid, &ask)?;
        let _rid = rids.draw();
        let state = CopyState::Asks { rid, ask };
        let machine = CopyRange { join, state };
        Ok(Step {
            next: Next::Goes { machine },
            outs,
            gone,
        })
    }

    /// The position's cell is read.
    #[tactic(auto, unfolding(tg_protocol::specs::Cells::get_cell, tg_protocol::specs::Trimming::copy_work_asks))]
    fn read(
        alloc: Global,
        proj: &Projection,
        join: Join,
        pos: Pos,
        gone: Pos,
        rids: &mut Rids,
    ) -> Result<CopyStep, NoMemory>
        requires { rids.old.next < 2 ^ 62 }
        ensures turn { IfOk result (λ t. (w : CopyWork) → shown t rids.new.next ≡ by_copy proj.now rids.old.next (met_gone gone (copy_from proj.now (copying join w) pos rids.old.next true))) }
        ensures err { OnErr result (rids.new ≡ rids.old) }
        ensures drawn { rids.new.next ≤ rids.old.next + 1 }
    {
        let units = units_at(proj, pos);
        match GetCell::start(alloc, units, proj.epoch, pos, rids)? {
            Turn::More { machine: get, outs } => {
                let reading = Reading { pos, get };
                let state = CopyState::Reads { reading };
                let machine = CopyRange { join, state };
                Ok(Step {
                    next: Next::Goes { machine },
                    outs,
                    gone,
                })
            }
            Turn::End { .. } => unreachable!(),
        }
    }

    /// The stripe's first position at or past this one is read, or the spare is asked whether it has each.
    fn go_on(
        alloc: Global,
        proj: &Projection,
        join: Join,
        from: u128,
        gone: Pos,
        rids: &mut Rids,
    ) -> Result<CopyStep, NoMemory>
        requires stripe { HasStripe proj.now join }
        requires near { from ≤ 2 ^ 64 }
        requires numbers { rids.old.next < 2 ^ 62 }
        ensures turn { IfOk result (λ t. (w : CopyWork) → shown t rids.new.next ≡ by_copy proj.now rids.old.next (met_gone gone (copies_past proj.now (copying join w) from rids.old.next))) }
        ensures err { OnErr result (rids.new ≡ rids.old) }
        ensures drawn { rids.new.next ≤ rids.old.next + 1 }
    {
        match stripe_of(proj, join).next_below(from) {
            Some(pos) => CopyRange::read(alloc, proj, join, pos, gone, rids),
            None => CopyRange::ask(alloc, proj, join, Ask::Look, gone, rids),
        }
    }

    /// This position is read, if it is below the end.
    fn go_back(
        alloc: Global,
        proj: &Projection,
        join: Join,
        pos: Pos,
        rids: &mut Rids,
    ) -> Result<CopyStep, NoMemory>
        requires stripe { HasStripe proj.now join }
        requires numbers { rids.old.next < 2 ^ 62 }
        ensures turn { IfOk result (λ t. (w : CopyWork) → shown t rids.new.next ≡ by_copy proj.now rids.old.next (met_gone 0 (copy_at proj.now (copying join w) pos rids.old.next))) }
        ensures err { OnErr result (rids.new ≡ rids.old) }
        ensures drawn { rids.new.next ≤ rids.old.next + 1 }
    {
        let stripe = stripe_of(proj, join);
        if pos < stripe.end {
            return CopyRange::read(alloc, proj, join, pos, 0, rids);
        }
        CopyRange::ask(alloc, proj, join, Ask::Look, 0, rids)
    }
}

// The spare is asked.
impl CopyRange {
    /// A message that comes while the spare is asked.
    #[tactic(auto, unfolding(tg_protocol::specs::Trimming::copy_work_asks))]
    fn ask_feed(
        alloc: Global,
        proj: &Projection,
        join: Join,
        own: u64,
        ask: Ask,
        from: NodeId,
        rid: u64,
        msg: &Msg,
        rids: &mut Rids,
    ) -> Result<CopyStep, NoMemory>
        requires stripe { HasStripe proj.now join }
        requires numbers { rids.old.next < 2 ^ 62 }
        ensures turn { IfOk result (λ t. shown t rids.new.next ≡ by_copy proj.now rids.old.next (copy_fed proj.now (asking join own ask) from rid msg.now rids.old.next)) }
        ensures free { (awaits (copy_asks proj.now (asking join own ask)) from rid && asked_needs proj.now (asked own ask) (reply msg.now)) ≡ false → IsOk result }
        ensures err { OnErr result (rids.new ≡ rids.old) }
        ensures drawn { rids.new.next ≤ rids.old.next + 1 }
    {
        if !answers(unit(join.unit), own, from, rid) {
            return Ok(CopyRange::stay(alloc, join, own, ask));
        }
        CopyRange::take(alloc, proj, join, own, ask, msg, rids)
    }

    /// A message is passed by.
    #[tactic(auto, using(tg_chain::proofs::Outs::none_drawn))]
    fn stay(alloc: Global, join: Join, own: u64, ask: Ask) -> CopyStep
        ensures { (p : Layout) (n : ℕ) → shown result n ≡ by_copy p n (passes n (asking join own ask)) }
    {
        let state = CopyState::Asks { rid: own, ask };
        let machine = CopyRange { join, state };
        Step {
            next: Next::Goes { machine },
            outs: List::new(alloc),
            gone: 0,
        }
    }

    /// A newer layout has to be learnt.
    fn learn(alloc: Global, join: Join) -> CopyStep
        ensures { (p : Layout) (n : ℕ) (w : CopyWork) → shown result n ≡ by_copy p n (learns n (copying join w)) }
    {
        Step {
            next: Next::Learns { paused: join },
            outs: List::new(alloc),
            gone: 0,
        }
    }

    /// An answer of the spare.
    #[tactic(auto, unfolding(tg_protocol::specs::Replies::reply, tg_protocol::specs::Trimming::copy_feed))]
    fn take(
        alloc: Global,
        proj: &Projection,
        join: Join,
        own: u64,
        ask: Ask,
        msg: &Msg,
        rids: &mut Rids,
    ) -> Result<CopyStep, NoMemory>
        requires stripe { HasStripe proj.now join }
        requires numbers { rids.old.next < 2 ^ 62 }
        ensures turn { IfOk result (λ t. (u : ℕ) → shown t rids.new.next ≡ by_copy proj.now rids.old.next (copy_feed proj.now (asking join own ask) (asked own ask) u (reply msg.now) rids.old.next)) }
        ensures free { asked_needs proj.now (asked own ask) (reply msg.now) ≡ false → IsOk result }
        ensures err { OnErr result (rids.new ≡ rids.old) }
        ensures drawn { rids.new.next ≤ rids.old.next + 1 }
    {
        match msg {
            Msg::Sealed { epoch, high } => {
                CopyRange::sealed(alloc, proj, join, own, ask, *epoch, *high, rids)
            }
            Msg::Held => CopyRange::held(alloc, proj, join, own, ask, rids),
            Msg::Taken { cell } => CopyRange::taken(alloc, proj, join, own, ask, cell, rids),
            Msg::Gone { below } => CopyRange::trimmed(alloc, proj, join, own, ask, *below, rids),
            Msg::Missing { pos } => CopyRange::missing(alloc, proj, join, own, ask, *pos, rids),
            Msg::Whole => Ok(CopyRange::whole(alloc, join, own, ask)),
            Msg::Fenced { epoch } => Ok(CopyRange::fenced(alloc, proj, join, own, ask, *epoch)),
            _ => Ok(CopyRange::stay(alloc, join, own, ask)),
        }
    }

    /// The spare is sealed: the stripe is begun, where that is at the layout's epoch.
    #[tactic(auto, using(crate::proofs::Gones::none_gone), unfolding(tg_protocol::specs::Trimming::copy_feed))]
    fn sealed(
        alloc: Global,
        proj: &Projection,
        join: Join,
        own: u64,
        ask: Ask,
        epoch: Epoch,
        high: Pos,
        rids: &mut Rids,
    ) -> Result<CopyStep, NoMemory>
        requires stripe { HasStripe proj.now join }
        requires numbers { rids.old.next < 2 ^ 62 }
        ensures turn { IfOk result (λ t. (u : ℕ) → shown t rids.new.next ≡ by_copy proj.now rids.old.next (copy_feed proj.now (asking join own ask) (asked own ask) u (near high (IsSealed epoch high)) rids.old.next)) }
        ensures free { asked_needs proj.now (asked own ask) (near high (IsSealed epoch high)) ≡ false → IsOk result }
        ensures err { OnErr result (rids.new ≡ rids.old) }
        ensures drawn { rids.new.next ≤ rids.old.next + 1 }
    {
        if high >= FAR {
            return Ok(CopyRange::stay(alloc, join, own, ask));
        }
        match ask {
            Ask::Seal => {
                if epoch == proj.epoch {
                    return CopyRange::go_on(alloc, proj, join, 0, 0, rids);
                }
                Ok(CopyRange::stay(alloc, join, own, Ask::Seal))
            }
            ask => Ok(CopyRange::stay(alloc, join, own, ask)),
        }
    }

    /// The spare holds what it was sent.
    #[tactic(auto, using(crate::proofs::Gones::none_gone), unfolding(tg_protocol::specs::Trimming::copy_feed))]
    fn held(
        alloc: Global,
        proj: &Projection,
        join: Join,
        own: u64,
        ask: Ask,
        rids: &mut Rids,
    ) -> Result<CopyStep, NoMemory>
        requires stripe { HasStripe proj.now join }
        requires numbers { rids.old.next < 2 ^ 62 }
        ensures turn { IfOk result (λ t. (u : ℕ) → shown t rids.new.next ≡ by_copy proj.now rids.old.next (copy_feed proj.now (asking join own ask) (asked own ask) u IsHeld rids.old.next)) }
        ensures free { asked_needs proj.now (asked own ask) IsHeld ≡ false → IsOk result }
        ensures err { OnErr result (rids.new ≡ rids.old) }
        ensures drawn { rids.new.next ≤ rids.old.next + 1 }
    {
        match ask {
            Ask::Store { pos, .. } => {
                CopyRange::go_on(alloc, proj, join, pos as u128 + 1, 0, rids)
            }
            ask => Ok(CopyRange::stay(alloc, join, own, ask)),
        }
    }

    /// The spare holds this cell: an equal one is as good as held.
    #[tactic(auto, using(crate::proofs::Gones::none_gone), unfolding(tg_protocol::specs::Trimming::copy_feed))]
    fn taken(
        alloc: Global,
        proj: &Projection,
        join: Join,
        own: u64,
        ask: Ask,
        found: &Cell,
        rids: &mut Rids,
    ) -> Result<CopyStep, NoMemory>
        requires stripe { HasStripe proj.now join }
        requires numbers { rids.old.next < 2 ^ 62 }
        ensures turn { IfOk result (λ t. (u : ℕ) → shown t rids.new.next ≡ by_copy proj.now rids.old.next (copy_feed proj.now (asking join own ask) (asked own ask) u (IsTaken found.now) rids.old.next)) }
        ensures free { asked_needs proj.now (asked own ask) (IsTaken found.now) ≡ false → IsOk result }
        ensures err { OnErr result (rids.new ≡ rids.old) }
        ensures drawn { rids.new.next ≤ rids.old.next + 1 }
    {
        match ask {
            Ask::Store { pos, cell } => {
                if is_same_cell(&cell, found) {
                    return CopyRange::go_on(alloc, proj, join, pos as u128 + 1, 0, rids);
                }
                let ask = Ask::Store { pos, cell };
                Ok(CopyRange::stay(alloc, join, own, ask))
            }
            ask => Ok(CopyRange::stay(alloc, join, own, ask)),
        }
    }

    /// The spare has trimmed all below a position.
    #[tactic(auto, unfolding(tg_protocol::specs::Trimming::copy_feed))]
    fn trimmed(
        alloc: Global,
        proj: &Projection,
        join: Join,
        own: u64,
        ask: Ask,
        below: Pos,
        rids: &mut Rids,
    ) -> Result<CopyStep, NoMemory>
        requires stripe { HasStripe proj.now join }
        requires numbers { rids.old.next < 2 ^ 62 }
        ensures turn { IfOk result (λ t. (u : ℕ) → shown t rids.new.next ≡ by_copy proj.now rids.old.next (copy_feed proj.now (asking join own ask) (asked own ask) u (near below (IsGone below)) rids.old.next)) }
        ensures free { asked_needs proj.now (asked own ask) (near below (IsGone below)) ≡ false → IsOk result }
        ensures err { OnErr result (rids.new ≡ rids.old) }
        ensures drawn { rids.new.next ≤ rids.old.next + 1 }
    {
        if below >= FAR {
            return Ok(CopyRange::stay(alloc, join, own, ask));
        }
        match ask {
            Ask::Store { pos, cell } => {
                if below > pos {
                    return CopyRange::go_on(alloc, proj, join, below as u128, below, rids);
                }
                let ask = Ask::Store { pos, cell };
                Ok(CopyRange::stay(alloc, join, own, ask))
            }
            Ask::Trim { below: sent } => {
                CopyRange::go_on(alloc, proj, join, sent as u128, below, rids)
            }
            ask => Ok(CopyRange::stay(alloc, join, own, ask)),
        }
    }

    /// The spare lacks a position of the stripe.
    #[tactic(auto, using(crate::proofs::Gones::none_gone_at), unfolding(tg_protocol::specs::Trimming::copy_feed))]
    fn missing(
        alloc: Global,
        proj: &Projection,
        join: Join,
        own: u64,
        ask: Ask,
        pos: Pos,
        rids: &mut Rids,
    ) -> Result<CopyStep, NoMemory>
        requires stripe { HasStripe proj.now join }
        requires numbers { rids.old.next < 2 ^ 62 }
        ensures turn { IfOk result (λ t. (u : ℕ) → shown t rids.new.next ≡ by_copy proj.now rids.old.next (copy_feed proj.now (asking join own ask) (asked own ask) u (near pos (IsMissing pos)) rids.old.next)) }
        ensures free { asked_needs proj.now (asked own ask) (near pos (IsMissing pos)) ≡ false → IsOk result }
        ensures err { OnErr result (rids.new ≡ rids.old) }
        ensures drawn { rids.new.next ≤ rids.old.next + 1 }
    {
        if pos >= FAR {
            return Ok(CopyRange::stay(alloc, join, own, ask));
        }
        match ask {
            Ask::Look => CopyRange::go_back(alloc, proj, join, pos, rids),
            ask => Ok(CopyRange::stay(alloc, join, own, ask)),
        }
    }

    /// The spare has each position of the stripe.
    #[tactic(auto, unfolding(tg_protocol::specs::Trimming::copy_feed))]
    fn whole(alloc: Global, join: Join, own: u64, ask: Ask) -> CopyStep
        ensures { (p : Layout) (n u : ℕ) → shown result n ≡ by_copy p n (copy_feed p (asking join own ask) (asked own ask) u IsWhole n) }
    {
        match ask {
            Ask::Look => Step {
                next: Next::Ends {
                    end: CopyEnd::Whole,
                },
                outs: List::new(alloc),
                gone: 0,
            },
            ask => CopyRange::stay(alloc, join, own, ask),
        }
    }

    /// The spare stands at another epoch.
    #[tactic(auto, unfolding(tg_protocol::specs::Trimming::copy_feed))]
    fn fenced(
        alloc: Global,
        proj: &Projection,
        join: Join,
        own: u64,
        ask: Ask,
        epoch: Epoch,
    ) -> CopyStep
        ensures { (n u : ℕ) → shown result n ≡ by_copy proj.now n (copy_feed proj.now (asking join own ask) (asked own ask) u (IsFenced epoch) n) }
    {
        if epoch <= proj.epoch {
            return CopyRange::stay(alloc, join, own, ask);
        }
        CopyRange::learn(alloc, join)
    }
}

// A cell of the stripe is read.
impl CopyRange {
    /// A message that comes while a cell is read.
    #[tactic(auto, using(crate::proofs::Frees::less_needed), unfolding(tg_protocol::specs::Trimming::copy_work_asks))]
    fn read_feed(
        alloc: Global,
        proj: &Projection,
        join: Join,
        reading: Reading,
        from: NodeId,
        rid: u64,
        msg: &Msg,
        rids: &mut Rids,
    ) -> Result<CopyStep, NoMemory>
        requires stripe { HasStripe proj.now join }
        requires numbers { rids.old.next < 2 ^ 62 }
        ensures turn { IfOk result (λ t. shown t rids.new.next ≡ by_copy proj.now rids.old.next (copy_fed proj.now (getting join reading) from rid msg.now rids.old.next)) }
        ensures free { (awaits (copy_asks proj.now (getting join reading)) from rid && reading_needs msg.now) ≡ false → IsOk result }
        ensures err { OnErr result (rids.new ≡ rids.old) }
        ensures drawn { rids.new.next ≤ rids.old.next + 1 }
    {
        let Reading { pos, get } = reading;
        let mut drawn = *rids;
        match get.feed(alloc, from, rid, msg, &mut drawn)? {
            Turn::More { machine: get, outs } => {
                *rids = drawn;
                let reading = Reading { pos, get };
                let state = CopyState::Reads { reading };
                let machine = CopyRange { join, state };
                Ok(Step {
                    next: Next::Goes { machine },
                    outs,
                    gone: 0,
                })
            }
            Turn::End { end, .. } => CopyRange::read_over(alloc, proj, join, pos, end, rids),
        }
    }

    /// The cell is read, and goes to the spare; or it is gone, and the spare is told so.
    fn read_over(
        alloc: Global,
        proj: &Projection,
        join: Join,
        pos: Pos,
        end: GetCellEnd,
        rids: &mut Rids,
    ) -> Result<CopyStep, NoMemory>
        requires stripe { HasStripe proj.now join }
        requires numbers { rids.old.next < 2 ^ 62 }
        ensures turn { IfOk result (λ t. (w : CopyWork) → shown t rids.new.next ≡ by_copy proj.now rids.old.next (read_end proj.now (copying join w) pos (get_ended end) rids.old.next)) }
        ensures free { asks_on end ≡ false → IsOk result }
        ensures err { OnErr result (rids.new ≡ rids.old) }
        ensures drawn { rids.new.next ≤ rids.old.next + 1 }
    {
        match end {
            GetCellEnd::Done { cell } => {
                let ask = Ask::Store { pos, cell };
                CopyRange::ask(alloc, proj, join, ask, 0, rids)
            }
            GetCellEnd::Gone { below } => {
                let ask = Ask::Trim { below };
                CopyRange::ask(alloc, proj, join, ask, below, rids)
            }
            GetCellEnd::Fenced { .. } => Ok(CopyRange::learn(alloc, join)),
        }
    }
}
