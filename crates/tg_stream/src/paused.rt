//! What a walk has found so far.

ghost use Rattle.std.specs.Prelude.{ℕ, ◌≡◌, ◌<◌, ◌≤◌, ◌+◌, ◌^◌, Some, None, Option, is_some, option_copied, IfOk, OnOk, OnErr};
ghost use Rattle.tg_protocol.specs.Cells.{CellJob};
ghost use Rattle.tg_protocol.specs.Words.{cell_at, with_cell};
ghost use Rattle.tg_protocol.specs.Walking.{at_least, next_visit, steps_left, walk_members, walk_again};
ghost use Rattle.tg_stream.specs.Turns.{shown, by_walk};
ghost use Rattle.tg_stream.specs.Walks.{begun, walk_of, seen, seen_if, read, members_of};

use crate::backs::backs_at;
use crate::cells::Cells;
use crate::members::Members;
use crate::page::Page;
use crate::trail::Trail;
use crate::walk::{Walk, WalkStep};
use std::alloc::Global;
use std::marker::Model;
use tg_base::{Backs, Cell, List, NoMemory, Oid, Pos, Projection, Rids};

/// What goes on of a walk in a newer layout: the known cells, where it goes on, and the members found so far.
pub struct PausedWalk {
    oid: Oid,
    lo: Pos,
    cells: Cells,
    trail: Trail,
    // as they are found, falling
    members: Vec<Pos>,
}

// By hand, since a derived drop is proved anew wherever a value is dropped.
impl Drop for PausedWalk {
    fn drop(self) {
        let PausedWalk {
            oid: _,
            lo: _,
            cells: _,
            trail: _,
            members: _,
        } = self;
    }
}

impl Model for PausedWalk {
    ghost use Rattle.std.specs.Prelude.{reverse};
    ghost use Rattle.tg_stream.specs.Walks.{Course};

    ghost Value = { Course };

    ghost view = { λ m. record { oid = m.oid; lo = m.lo; cells = m.cells; trail = m.trail; members = reverse m.members.items } };
}

impl PausedWalk {
    /// The object whose stream is walked.
    pub fn oid(&self) -> Oid
        ensures { result ≡ self.now.oid }
    {
        self.oid
    }

    /// The cell that is known at a position, None where none is. It takes no memory.
    pub fn cell(&self, pos: Pos) -> Option<&Cell>
        ensures { option_copied result ≡ cell_at self.now.cells pos }
    {
        self.cells.get(pos)
    }

    /// Goes on in a newer layout, where it was.
    pub fn resume(
        self,
        alloc: Global,
        proj: &Projection,
        rids: &mut Rids,
    ) -> Result<WalkStep, NoMemory>
        requires { rids.old.next < 2 ^ 62 }
        ensures turn { IfOk result (λ t. (j : Option CellJob) → shown t rids.new.next ≡ by_walk rids.old.next (walk_again proj.now (walk_of self j) rids.old.next)) }
        ensures err { OnErr result (rids.new ≡ rids.old) }
        ensures drawn { rids.new.next ≤ rids.old.next + 1 }
    {
        Walk::go_on(alloc, proj, self, rids)
    }
}

impl PausedWalk {
    /// A walk that has seen nothing yet.
    pub(crate) fn new(alloc: Global, oid: Oid, lasts: Backs, lo: Pos, cells: Cells) -> PausedWalk
        ensures { result ≡ begun oid lasts lo cells }
    {
        PausedWalk {
            oid,
            lo,
            cells,
            trail: Trail::new(lasts, 0),
            members: Vec::new(alloc),
        }
    }

    /// The position to visit next, if it isn't below the end of the walk.
    pub(crate) fn next_visit(&self) -> Option<Pos>
        ensures { result ≡ next_visit (walk_of self.now None) }
    {
        match self.trail.next() {
            None => None,
            Some(pos) => self.at_least(pos),
        }
    }

    /// Each visit of falling pointers goes further down, so that these visits suffice.
    pub(crate) fn steps_left(&self) -> u128
        ensures { result ≡ steps_left (next_visit (walk_of self.now None)) }
    {
        match self.next_visit() {
            None => 1,
            Some(pos) => u128::from(pos) + 2,
        }
    }

    /// Visits a position where its cell is known, and tells whether it is.
    pub(crate) fn visit_known(&mut self, alloc: Global, pos: Pos) -> Result<bool, NoMemory>
        ensures known { IfOk result (λ known. known ≡ is_some (cell_at self.old.cells pos)) }
        ensures course { OnOk result (self.new ≡ seen_if self.old pos (cell_at self.old.cells pos)) }
    {
        self.read(alloc, pos)?;
        self.visit_read(alloc, pos)
    }

    /// The cell at a position has been read: it becomes known, and is visited.
    pub(crate) fn take(self, alloc: Global, pos: Pos, cell: Cell) -> Result<PausedWalk, NoMemory>
        ensures { IfOk result (λ s. s ≡ read self pos cell) }
    {
        let page = Page::read(alloc, cell)?;
        let pointers = backs_at(alloc, self.oid, pos, &page)?;
        let mut course = self.learn(pos, page)?;
        course.visit(pos, pointers)?;
        Ok(course)
    }

    /// What it has found, and where it met a trim. It takes no memory.
    pub(crate) fn into_members(self, gone: Option<Pos>) -> Members
        ensures { members_of result ≡ walk_members (walk_of self None) gone }
    {
        let PausedWalk {
            oid: _,
            lo: _,
            cells,
            trail: _,
            mut members,
        } = self;
        members.reverse();
        let list = List::from_vec(members);
        Members { list, gone, cells }
    }
}

impl PausedWalk {
    /// The page at a position is read, where it is known.
    fn read(&mut self, alloc: Global, pos: Pos) -> Result<(), NoMemory>
        ensures { self.new ≡ self.old }
    {
        self.cells.read(alloc, pos)
    }

    /// Visits a position whose page has been read, where it is known, and tells whether it is.
    fn visit_read(&mut self, alloc: Global, pos: Pos) -> Result<bool, NoMemory>
        ensures known { IfOk result (λ known. known ≡ is_some (cell_at self.old.cells pos)) }
        ensures course { OnOk result (self.new ≡ seen_if self.old pos (cell_at self.old.cells pos)) }
    {
        match self.cells.page(pos) {
            None => Ok(false),
            Some(page) => {
                let pointers = backs_at(alloc, self.oid, pos, page)?;
                self.visit(pos, pointers)?;
                Ok(true)
            }
        }
    }

    fn at_least(&self, pos: Pos) -> Option<Pos>
        ensures { result ≡ at_least self.now.lo (Some pos) }
    {
        if pos < self.lo {
            return None;
        }
        Some(pos)
    }

    /// A position has been seen: an entry of the stream with these pointers, or another cell.
    fn visit(&mut self, pos: Pos, pointers: Option<Backs>) -> Result<(), NoMemory>
        ensures { OnOk result (self.new ≡ seen self.old pos pointers) }
    {
        match pointers {
            None => {
                self.trail.pass(pos);
                Ok(())
            }
            Some(pointers) => {
                self.members.push(pos)?;
                self.trail = Trail::new(pointers, pos);
                Ok(())
            }
        }
    }

    /// The cell at a position becomes known.
    fn learn(self, pos: Pos, page: Page) -> Result<PausedWalk, NoMemory>
        ensures { IfOk result (λ s. s ≡ record self { cells = with_cell self.cells pos page }) }
    {
        let PausedWalk {
            oid,
            lo,
            cells,
            trail,
            members,
        } = self;
        let cells = cells.put(pos, page)?;
        Ok(PausedWalk {
            oid,
            lo,
            cells,
            trail,
            members,
        })
    }
}
