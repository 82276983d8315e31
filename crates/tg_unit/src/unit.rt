//! A storage unit, and its step.

ghost use Rattle.std.specs.Prelude.{◌≡◌, ◌+◌, ◌≤◌, ◌<◌, ◌==◌, ◌↔◌, max, Some, None, option_copied, IsNone, IsOk, IfOk, IfSome, MatchOption};
ghost use Rattle.tg_protocol.specs.Words.{cell_at, cell_eq};
ghost use Rattle.tg_protocol.specs.Logs.{positions};
ghost use Rattle.tg_protocol.specs.Units.{new_unit, unit_step, unit_ask, on_ask, first_missing, how_many, Reads, Stores, Looks, Seals, TrimsBelow};
ghost use Rattle.tg_unit.specs.Lows.{low_asked};
ghost use Rattle.tg_unit.specs.Missing.{missing_from, TakesNoMemory};
ghost use Rattle.tg_unit.specs.Segments.{cells_below, IsBare, TellsSegment};

use crate::cells::Cells;
use crate::segment::Segment;
use std::alloc::Global;
use std::marker::Model;
use tg_base::{Cell, Epoch, List, Msg, NoMemory, Pos};

/// A storage unit (Balakrishnan and others, "CORFU: a shared log design for flash clusters", 2012).
pub struct Unit {
    epoch: Epoch,
    low: Pos,
    high: Pos,
    cells: Cells,
}

// By hand, since a derived drop is proved anew wherever a value is dropped.
impl Drop for Unit {
    fn drop(self) {
        let Unit {
            epoch: _,
            low: _,
            high: _,
            cells: _,
        } = self;
    }
}

impl Model for Unit {
    ghost use Rattle.tg_protocol.specs.Units.{UnitState};

    ghost Value = { UnitState };

    ghost view = { λ u. record { epoch = u.epoch; low = u.low; high = u.high; cells = u.cells } };
}

impl Unit {
    /// A unit that has met nothing. Its number is known to those that send to it, and no answer
    /// depends on it.
    #[tactic(auto, unfolding(tg_protocol::specs::Units::new_unit))]
    pub fn new(alloc: Global, _num: u16) -> Unit
        ensures { result ≡ new_unit }
    {
        Unit {
            epoch: 1,
            low: 0,
            high: 0,
            cells: Cells::new(alloc),
        }
    }

    /// The cell at a position: None exactly where there is none. It takes no memory.
    pub fn peek(&self, pos: Pos) -> Option<&Cell>
        ensures { option_copied result ≡ cell_at self.now.cells pos }
    {
        self.cells.get(pos)
    }

    /// The positions of its cells, rising. An `Err` is want of memory.
    pub fn positions(&self, alloc: Global) -> Result<List<Pos>, NoMemory>
        ensures { IfOk result (λ ps. ps ≡ positions self.now.cells) }
    {
        self.cells.positions(alloc)
    }

    /// Equal cells below a position, with their positions, rising. An `Err` is want of memory.
    pub fn below(&self, alloc: Global, low: Pos) -> Result<Vec<(Pos, Cell)>, NoMemory>
        ensures { IfOk result (λ l. l.items ≡ cells_below low self.now.cells) }
    {
        self.cells.below(alloc, low)
    }

    /// One past the highest position that was ever written.
    pub fn high(&self) -> Pos
        ensures { result ≡ self.now.high }
    {
        self.high
    }

    /// The positions below it are trimmed.
    pub fn low(&self) -> Pos
        ensures { result ≡ self.now.low }
    {
        self.low
    }

    /// The epoch whose requests are served.
    pub fn epoch(&self) -> Epoch
        ensures { result ≡ self.now.epoch }
    {
        self.epoch
    }

    /// The segment of the positions from `64 * num` on: None exactly where none of them has a
    /// cell. It takes no memory.
    pub fn segment(&self, num: u64) -> Option<&Segment>
        ensures none { IsNone result ↔ IsBare self.now.cells num }
        ensures some { IfSome result (λ s. TellsSegment self.now.cells num s.now) }
    {
        self.cells.segment(num)
    }

    /// The unit after a message, and its answer: None exactly for a message that is no request of
    /// a unit. Only requests that store or tell a cell take memory: `Has`, `Seal` and `Trim` take
    /// none and succeed.
    #[tactic(auto, unfolding(tg_protocol::specs::Units::unit_step, tg_protocol::specs::Units::unit_ask, tg_protocol::specs::Units::on_ask, crate::specs::Missing::TakesNoMemory))]
    pub fn step(self, alloc: Global, msg: &Msg) -> Result<(Unit, Option<Msg>), NoMemory>
        ensures now { IfOk result (λ r. r.0 ≡ (unit_step self msg.now).now) }
        ensures says { IfOk result (λ r. r.1 ≡ (unit_step self msg.now).says) }
        ensures free { TakesNoMemory msg.now → IsOk result }
    {
        match msg {
            Msg::Read { epoch, pos } => self.read(*epoch, *pos),
            Msg::Write { epoch, pos, page } => {
                let cell = Cell::Data(page.copy()?);
                self.store(alloc, *epoch, *pos, cell)
            }
            Msg::Fill { epoch, pos } => self.store(alloc, *epoch, *pos, Cell::Junk),
            Msg::Copy { epoch, pos, cell } => {
                let cell = cell.copy()?;
                self.store(alloc, *epoch, *pos, cell)
            }
            Msg::Has {
                epoch,
                lo,
                hi,
                step,
            } => Ok(self.look(*epoch, *lo, *hi, *step)),
            Msg::Seal { epoch } => Ok(self.seal(*epoch)),
            Msg::Trim { epoch, below } => Ok(self.trim(*epoch, *below)),
            _ => Ok((self, None)),
        }
    }

    /// What `low` is after a message. It takes no memory.
    #[tactic(auto, using(crate::proofs::Lows::low_is))]
    pub fn low_after(&self, msg: &Msg) -> Pos
        ensures { result ≡ (unit_step self.now msg.now).now.low }
    {
        self.low_asked(msg)
    }

    #[tactic(auto, unfolding(tg_protocol::specs::Units::unit_ask))]
    fn low_asked(&self, msg: &Msg) -> Pos
        ensures { result ≡ low_asked self.now (unit_ask msg.now) }
    {
        match msg {
            Msg::Trim { epoch, below } => self.low_trimmed(*epoch, *below),
            _ => self.low,
        }
    }

    fn low_trimmed(&self, epoch: Epoch, below: Pos) -> Pos
        ensures { result ≡ low_asked self.now (TrimsBelow epoch below) }
    {
        if self.serves(epoch) {
            return self.low.max(below);
        }
        self.low
    }

    fn serves(&self, epoch: Epoch) -> bool
        ensures { result ≡ (self.now.epoch == epoch) }
    {
        self.epoch == epoch
    }

    #[tactic(auto, unfolding(tg_protocol::specs::Units::on_ask))]
    fn read(self, epoch: Epoch, pos: Pos) -> Result<(Unit, Option<Msg>), NoMemory>
        ensures now { IfOk result (λ r. r.0 ≡ (on_ask self (Reads epoch pos)).now) }
        ensures says { IfOk result (λ r. r.1 ≡ (on_ask self (Reads epoch pos)).says) }
    {
        if !self.serves(epoch) {
            let epoch = self.epoch;
            return Ok((self, Some(Msg::Fenced { epoch })));
        }
        if pos < self.low {
            let below = self.low;
            return Ok((self, Some(Msg::Gone { below })));
        }
        let says = match self.cells.get(pos) {
            None => Msg::Unwritten,
            Some(cell) => Msg::Taken { cell: cell.copy()? },
        };
        Ok((self, Some(says)))
    }

    #[tactic(auto, unfolding(tg_protocol::specs::Units::on_ask))]
    fn store(
        mut self,
        alloc: Global,
        epoch: Epoch,
        pos: Pos,
        cell: Cell,
    ) -> Result<(Unit, Option<Msg>), NoMemory>
        ensures now { IfOk result (λ r. r.0 ≡ (on_ask self (Stores epoch pos cell)).now) }
        ensures says { IfOk result (λ r. r.1 ≡ (on_ask self (Stores epoch pos cell)).says) }
    {
        if !self.serves(epoch) {
            let epoch = self.epoch;
            return Ok((self, Some(Msg::Fenced { epoch })));
        }
        if pos < self.low {
            let below = self.low;
            return Ok((self, Some(Msg::Gone { below })));
        }
        if let Some(old) = self.cells.get(pos) {
            let says = if is_equal(old, &cell) {
                Msg::Held
            } else {
                Msg::Taken { cell: old.copy()? }
            };
            return Ok((self, Some(says)));
        }
        self.cells.put(alloc, pos, cell)?;
        self.high = self.high.max(pos.saturating_add(1));
        Ok((self, Some(Msg::Held)))
    }

    #[tactic(auto, unfolding(tg_protocol::specs::Units::on_ask))]
    fn look(self, epoch: Epoch, lo: Pos, hi: Pos, step: u64) -> (Unit, Option<Msg>)
        ensures now { result.0 ≡ (on_ask self (Looks epoch lo hi step)).now }
        ensures says { result.1 ≡ (on_ask self (Looks epoch lo hi step)).says }
    {
        if !self.serves(epoch) {
            let epoch = self.epoch;
            return (self, Some(Msg::Fenced { epoch }));
        }
        let says = match self.missing(lo, hi, step) {
            None => Msg::Whole,
            Some(pos) => Msg::Missing { pos },
        };
        (self, Some(says))
    }

    #[tactic(auto, unfolding(tg_protocol::specs::Units::on_ask))]
    fn seal(mut self, epoch: Epoch) -> (Unit, Option<Msg>)
        ensures now { result.0 ≡ (on_ask self (Seals epoch)).now }
        ensures says { result.1 ≡ (on_ask self (Seals epoch)).says }
    {
        if epoch < self.epoch {
            let epoch = self.epoch;
            return (self, Some(Msg::Fenced { epoch }));
        }
        self.epoch = epoch;
        let high = self.high;
        (self, Some(Msg::Sealed { epoch, high }))
    }

    #[tactic(auto, unfolding(tg_protocol::specs::Units::on_ask))]
    fn trim(mut self, epoch: Epoch, below: Pos) -> (Unit, Option<Msg>)
        ensures now { result.0 ≡ (on_ask self (TrimsBelow epoch below)).now }
        ensures says { result.1 ≡ (on_ask self (TrimsBelow epoch below)).says }
    {
        if !self.serves(epoch) {
            let epoch = self.epoch;
            return (self, Some(Msg::Fenced { epoch }));
        }
        let below = self.low.max(below);
        self.low = below;
        self.cells.drop_below(below);
        (self, Some(Msg::Gone { below }))
    }

    /// The first of `lo`, `lo + step`, .. below `hi` that is neither trimmed nor has a cell.
    fn missing(&self, lo: Pos, hi: Pos, step: u64) -> Option<Pos>
        ensures { result ≡ first_missing self.now step (how_many lo hi step) lo }
    {
        if step == 0 {
            return None;
        }
        match self.first_kept(lo, hi, step) {
            None => None,
            Some(pos) => self.missing_kept(pos, hi, step),
        }
    }

    /// The first of these positions that isn't trimmed.
    fn first_kept(&self, lo: Pos, hi: Pos, step: u64) -> Option<Pos>
        requires { 1 ≤ step }
        ensures { MatchOption result (missing_from self.now step hi lo ≡ None) (λ p. (self.now.low ≤ p) × (missing_from self.now step hi p ≡ missing_from self.now step hi lo)) }
    {
        let low = self.low;
        if hi <= low {
            return None;
        }
        if low <= lo {
            return Some(lo);
        }
        let past = (low - lo) % step;
        if past == 0 {
            return Some(low);
        }
        if hi - low <= step - past {
            return None;
        }
        Some(low + (step - past))
    }

    /// The first of these positions, none of which is trimmed, that has no cell. Of the positions
    /// of a segment those that have cells in a row are passed at once.
    fn missing_kept(&self, lo: Pos, hi: Pos, step: u64) -> Option<Pos>
        requires step { 1 ≤ step }
        requires kept { self.now.low ≤ lo }
        ensures { result ≡ missing_from self.now step hi lo }
    {
        let mut pos = lo;
        while pos < hi {
            let run = self.cells.run(pos).min(hi - pos);
            if run == 0 {
                return Some(pos);
            }
            let last = pos + (run - 1) / step * step;
            if hi - last <= step {
                return None;
            }
            pos = last + step;
        }
        None
    }
}

fn is_equal(cell: &Cell, other: &Cell) -> bool
    ensures { result ≡ cell_eq cell.now other.now }
{
    cell.is_same(other)
}
