//! The walk of a stream.

ghost use Rattle.std.specs.Prelude.{ℕ, ◌≡◌, ◌<◌, ◌≤◌, ◌+◌, ◌^◌, ◌&&◌, Some, None, Option, false, option_copied, IfOk, IsOk, OnErr};
ghost use Rattle.tg_base.specs.Layouts.{Layout};
ghost use Rattle.tg_protocol.specs.Requests.{awaits, learns, ends, met_gone};
ghost use Rattle.tg_protocol.specs.Cells.{CellJob, get_cell, place_in};
ghost use Rattle.tg_protocol.specs.Words.{cell_at};
ghost use Rattle.tg_protocol.specs.Walking.{walk_asks, walk_start, walk_from, walk_members, walk_end, reads_turn};
ghost use Rattle.tg_chain.specs.Turns.{needs_memory};
ghost use Rattle.tg_chain.specs.Ends.{get_end};
ghost use Rattle.tg_stream.specs.Turns.{shown, by_walk, awaiting};
ghost use Rattle.tg_stream.specs.Walks.{begun, course_of, walk_of, walk_fed, has_cell};

use crate::cells::Cells;
use crate::known::over_known;
use crate::members::Members;
use crate::paused::PausedWalk;
use std::alloc::Global;
use std::marker::Model;
use tg_base::{Backs, Cell, List, Msg, NoMemory, NodeId, Oid, Out, Pos, Projection, Rids, Turn};
use tg_chain::{GetCell, GetCellEnd, Next, Step, units_at};

/// A step of a walk.
pub type WalkStep = Step<Walk, PausedWalk, Members>;

/// Finds the members of a stream: from its last positions down by the pointers of the entries that it meets.
/// Positions whose cells are known cost no message. Where four pointers lead to no entry of the stream, it goes
/// down position by position until one does.
pub struct Walk {
    course: PausedWalk,
    pos: Pos,
    get: GetCell,
}

// By hand, since a derived drop is proved anew wherever a value is dropped.
impl Drop for Walk {
    fn drop(self) {
        let Walk {
            course: _,
            pos: _,
            get: _,
        } = self;
    }
}

impl Model for Walk {
    ghost use Rattle.std.specs.Prelude.{◌≡◌, Some};
    ghost use Rattle.tg_stream.specs.Words.{WalkJob};
    ghost use Rattle.tg_stream.specs.Walks.{walk_of};

    ghost Value = { WalkJob };

    ghost view = { λ m. walk_of m.course (Some m.get) };

    ghost invariant = { λ m. m.get.place.pos ≡ m.pos };
}

impl Walk {
    /// Begins at the last positions of a stream, newest first. Positions below `lo` aren't visited.
    pub fn start(
        alloc: Global,
        proj: &Projection,
        oid: Oid,
        lasts: Backs,
        lo: Pos,
        cells: Cells,
        rids: &mut Rids,
    ) -> Result<WalkStep, NoMemory>
        requires { rids.old.next < 2 ^ 62 }
        ensures turn { IfOk result (λ t. shown t rids.new.next ≡ by_walk rids.old.next (walk_start proj.now oid lasts lo cells rids.old.next)) }
        ensures err { OnErr result (rids.new ≡ rids.old) }
        ensures drawn { rids.new.next ≤ rids.old.next + 1 }
    {
        let course = PausedWalk::new(alloc, oid, lasts, lo, cells);
        Walk::go_on(alloc, proj, course, rids)
    }

    /// Takes an awaited answer of a unit, and passes every other message by. Where the cell is read, the walk
    /// goes on in this layout. Where memory runs out, the walk is given up, and no number was drawn.
    pub fn feed(
        self,
        alloc: Global,
        proj: &Projection,
        from: NodeId,
        rid: u64,
        msg: &Msg,
        rids: &mut Rids,
    ) -> Result<WalkStep, NoMemory>
        requires { rids.old.next < 2 ^ 62 }
        ensures turn { IfOk result (λ t. shown t rids.new.next ≡ by_walk rids.old.next (walk_fed proj.now self from rid msg.now rids.old.next)) }
        // fences and trims take no memory
        ensures free { (awaits (walk_asks self) from rid && needs_memory msg.now) ≡ false → IsOk result }
        ensures err { OnErr result (rids.new ≡ rids.old) }
        ensures drawn { rids.new.next ≤ rids.old.next + 1 }
    {
        let Walk { course, pos, get } = self;
        let mut drawn = *rids;
        match get.feed(alloc, from, rid, msg, &mut drawn)? {
            Turn::More { machine: get, outs } => {
                *rids = drawn;
                Ok(Walk::wait(course, pos, get, outs))
            }
            Turn::End { end, .. } => Walk::read_over(alloc, proj, course, pos, end, rids),
        }
    }

    /// The outstanding request once more.
    pub fn again(&self, alloc: Global, rids: &mut Rids) -> Result<List<Out>, NoMemory>
        ensures asks { IfOk result (λ outs. outs ≡ walk_asks self.now) }
        ensures rids { rids.new ≡ rids.old }
    {
        self.get.again(alloc, rids)
    }

    /// What goes on of it in a newer layout, where its caller learns one meanwhile.
    pub fn pause(self) -> PausedWalk
        ensures { result ≡ course_of self }
    {
        let Walk {
            course,
            pos: _,
            get: _,
        } = self;
        course
    }
}

impl Walk {
    /// The object whose stream is walked.
    pub fn oid(&self) -> Oid
        ensures { result ≡ self.now.oid }
    {
        self.course.oid()
    }

    /// The cell that is known at a position, None where none is. It takes no memory.
    pub fn cell(&self, pos: Pos) -> Option<&Cell>
        ensures { option_copied result ≡ cell_at self.now.cells pos }
    {
        self.course.cell(pos)
    }
}

impl Walk {
    /// Goes on over known cells, to the first position that must be read or to the end.
    pub(crate) fn go_on(
        alloc: Global,
        proj: &Projection,
        course: PausedWalk,
        rids: &mut Rids,
    ) -> Result<WalkStep, NoMemory>
        requires { rids.old.next < 2 ^ 62 }
        ensures turn { IfOk result (λ t. (j : Option CellJob) → shown t rids.new.next ≡ by_walk rids.old.next (walk_from proj.now rids.old.next (walk_of course j))) }
        ensures err { OnErr result (rids.new ≡ rids.old) }
        ensures drawn { rids.new.next ≤ rids.old.next + 1 }
    {
        let mut course = course;
        match over_known(alloc, &mut course)? {
            None => Ok(Walk::end(alloc, course)),
            Some(pos) => Walk::read(alloc, proj, course, pos, rids),
        }
    }

    /// The cell at a position is read.
    fn read(
        alloc: Global,
        proj: &Projection,
        course: PausedWalk,
        pos: Pos,
        rids: &mut Rids,
    ) -> Result<WalkStep, NoMemory>
        requires { rids.old.next < 2 ^ 62 }
        ensures turn { IfOk result (λ t. (j : Option CellJob) → shown t rids.new.next ≡ by_walk rids.old.next (reads_turn (walk_of course j) (get_cell (place_in proj.now pos) rids.old.next))) }
        ensures err { OnErr result (rids.new ≡ rids.old) }
        ensures drawn { rids.new.next ≤ rids.old.next + 1 }
    {
        let units = units_at(proj, pos);
        match GetCell::start(alloc, units, proj.epoch, pos, rids)? {
            Turn::More { machine: get, outs } => Ok(Walk::wait(course, pos, get, outs)),
            Turn::End { .. } => unreachable!(),
        }
    }

    /// The cell at this position is awaited.
    fn wait(course: PausedWalk, pos: Pos, get: GetCell, outs: List<Out>) -> WalkStep
        requires { get.place.pos ≡ pos }
        ensures { (n : ℕ) → shown result n ≡ awaiting (walk_of course (Some get)) n outs }
    {
        let machine = Walk { course, pos, get };
        Step {
            next: Next::Goes { machine },
            outs,
            gone: 0,
        }
    }

    /// The read of a position has ended.
    fn read_over(
        alloc: Global,
        proj: &Projection,
        course: PausedWalk,
        pos: Pos,
        end: GetCellEnd,
        rids: &mut Rids,
    ) -> Result<WalkStep, NoMemory>
        requires { rids.old.next < 2 ^ 62 }
        ensures turn { IfOk result (λ t. (j : Option CellJob) → shown t rids.new.next ≡ by_walk rids.old.next (walk_end proj.now (walk_of course j) pos (get_end end) rids.old.next)) }
        ensures free { has_cell (get_end end) ≡ false → IsOk result }
        ensures err { OnErr result (rids.new ≡ rids.old) }
        ensures drawn { rids.new.next ≤ rids.old.next + 1 }
    {
        match end {
            GetCellEnd::Done { cell } => {
                let course = course.take(alloc, pos, cell)?;
                Walk::go_on(alloc, proj, course, rids)
            }
            GetCellEnd::Fenced { .. } => Ok(Walk::learn(alloc, course)),
            GetCellEnd::Gone { below } => Ok(Walk::end_at(alloc, course, below)),
        }
    }

    /// A newer layout has to be learnt.
    fn learn(alloc: Global, course: PausedWalk) -> WalkStep
        ensures { (n : ℕ) (j : Option CellJob) → shown result n ≡ by_walk n (learns n (walk_of course j)) }
    {
        Step {
            next: Next::Learns { paused: course },
            outs: List::new(alloc),
            gone: 0,
        }
    }

    /// No position is left.
    fn end(alloc: Global, course: PausedWalk) -> WalkStep
        ensures { (n : ℕ) (j : Option CellJob) → shown result n ≡ by_walk n (ends n (walk_members (walk_of course j) None)) }
    {
        let end = course.into_members(None);
        Step {
            next: Next::Ends { end },
            outs: List::new(alloc),
            gone: 0,
        }
    }

    /// A unit has trimmed all positions below this one.
    fn end_at(alloc: Global, course: PausedWalk, below: Pos) -> WalkStep
        ensures { (n : ℕ) (j : Option CellJob) → shown result n ≡ by_walk n (met_gone below (ends n (walk_members (walk_of course j) (Some below)))) }
    {
        let end = course.into_members(Some(below));
        Step {
            next: Next::Ends { end },
            outs: List::new(alloc),
            gone: below,
        }
    }
}
