//! What a client knows of the log.

ghost use Rattle.std.specs.Prelude.{◌≡◌, [], true, max, min, filter, option_copied, IfOk, if◌then◌else◌, nat_lt, ◌&&◌, ◌||◌, None};
ghost use Rattle.tg_protocol.specs.Words.{cell_at, with_nums, has_num};
ghost use Rattle.tg_protocol.specs.Past.{commit_at};
ghost use Rattle.tg_entry.specs.Drafts.{all_below};
ghost use Rattle.tg_client_cells.specs.Words.{positions_of, within, any_has, entries_at, AreSpelled};
ghost use Rattle.tg_client_cells.specs.Known.{nothing, learnt, owned, lent, returned, given_up, settled_after, settles_to, IsSettled, all_positions, all_entries, member_entries, new_entries, CommitsBelow};

use crate::by_stream::StreamPositions;
use crate::entries::{commit_at, entries_at};
use crate::pages::{all_commit, drop_others};
use crate::positions::Positions;
use std::alloc::Global;
use std::collections::BTreeMap;
use std::marker::Model;
use std::mem;
use tg_base::{Blob, Cell, NoMemory, Oid, Pos};
use tg_entry::{Entries, Entry};
use tg_stream::{Cells, Page};

/// Known cells, the positions of the client's own commit records, and a position up to which cells are settled: below
/// it each known page is one of the client's own commit records.
///
/// Own records and junk are never given up. What a command does goes by what is known from the settled position on, so
/// a history costs it nothing.
pub struct Known {
    cells: BTreeMap<u64, Page>,
    own: Positions,
    settled: Pos,
}

// By hand, since a derived drop is proved anew wherever a value is dropped.
impl Drop for Known {
    fn drop(self) {
        let Known {
            cells: _,
            own: _,
            settled: _,
        } = self;
    }
}

impl Model for Known {
    ghost use Rattle.tg_client_cells.specs.Known.{Knowledge, IsSettled};

    ghost Value = { Knowledge };

    ghost view = { λ k. record { cells = k.cells.entries; own = k.own; settled = k.settled } };

    ghost invariant = { λ k. IsSettled k.own k.settled k.cells.entries };
}

impl Known {
    /// Nothing is known. It takes no memory.
    pub fn new(alloc: Global) -> Known
        ensures { result ≡ nothing }
    {
        Known {
            cells: BTreeMap::new(alloc),
            own: Positions::new(alloc),
            settled: 0,
        }
    }

    /// The cell at a position, None where none is known. It takes no memory.
    pub fn cell(&self, pos: Pos) -> Option<&Cell>
        ensures { option_copied result ≡ cell_at self.now.cells pos }
    {
        match self.cells.get(&pos) {
            None => None,
            Some(page) => Some(page.cell()),
        }
    }

    /// The position below which each known page is one of the client's own commit records.
    pub fn settled(&self) -> Pos
        ensures { result ≡ self.now.settled }
    {
        self.settled
    }

    /// The cell at a position becomes known. Where memory runs out, all is given up.
    pub fn learn(self, pos: Pos, cell: Cell) -> Result<Known, NoMemory>
        ensures { IfOk result (λ k. k ≡ learnt self pos cell) }
    {
        let Known {
            mut cells,
            own,
            settled,
        } = self;
        let page = Page::unread(cell);
        cells.insert(pos, page)?;
        Ok(Known {
            cells,
            own,
            settled: settled.min(pos),
        })
    }

    /// The page at a position becomes known, as one of the client's own commit records. Where memory runs out, all is
    /// given up.
    pub fn own_record(self, pos: Pos, page: Blob) -> Result<Known, NoMemory>
        ensures { IfOk result (λ k. k ≡ owned self pos page) }
    {
        let Known {
            mut cells,
            own,
            settled,
        } = self;
        let page = Page::unread(Cell::Data(page));
        cells.insert(pos, page)?;
        let own = own.put(pos)?;
        Ok(Known {
            cells,
            own,
            settled: settled.min(pos),
        })
    }

    /// The cells, for walks down to a position: none is known until they come back. It takes no memory.
    pub fn lend(&mut self, alloc: Global, lo: Pos) -> Cells
        ensures cells { result ≡ self.old.cells }
        ensures left { self.new ≡ lent self.old lo }
        ensures settled { IsSettled self.new.own self.new.settled result }
    {
        self.settled = self.settled.min(lo);
        let cells = mem::replace(&mut self.cells, BTreeMap::new(alloc));
        Cells::from_map(cells)
    }

    /// The cells come back from a walk. It takes no memory.
    pub fn take_back(&mut self, cells: Cells)
        requires { IsSettled self.old.own self.old.settled cells }
        ensures { self.new ≡ returned self.old cells }
    {
        self.cells = cells.into_map();
    }

    /// Pages below a position are given up, but not those of the client's own commit records, nor junk. The time goes
    /// by the cells from the settled position to this one, which is settled then. Where memory runs out, all is given
    /// up.
    ///
    /// Where a page that isn't a commit record was learnt at the position of an own one, the settled position stays.
    pub fn give_up(self, alloc: Global, upto: Pos) -> Result<Known, NoMemory>
        ensures { IfOk result (λ k. k ≡ given_up self upto) }
    {
        let Known {
            mut cells,
            own,
            settled,
        } = self;
        let all = all_commit(alloc, &cells, &own, settled, upto)?;
        drop_others(alloc, &mut cells, &own, settled, upto)?;
        Ok(Known {
            cells,
            own,
            settled: settled_after(all, settled, upto),
        })
    }

    /// The entries below a tail: those of the members found of these streams, and the client's own commit records. Each
    /// has a spelling, since it was read from a page. It goes over all that is known.
    pub fn entries(
        &self,
        alloc: Global,
        found: &StreamPositions,
        streams: &[Oid],
        tail: Pos,
    ) -> Result<Entries, NoMemory>
        ensures entries { IfOk result (λ es. es ≡ all_entries self.now found.now streams.now tail) }
        ensures spelled { IfOk result (λ es. AreSpelled es) }
        ensures below { IfOk result (λ es. all_below tail es ≡ true) }
    {
        let positions = self.positions(alloc, found, streams, 0, tail)?;
        entries_at(alloc, &self.cells, &positions)
    }

    /// Likewise without its own records.
    pub fn member_entries(
        &self,
        alloc: Global,
        found: &StreamPositions,
        streams: &[Oid],
        tail: Pos,
    ) -> Result<Entries, NoMemory>
        ensures entries { IfOk result (λ es. es ≡ member_entries self.now found.now streams.now tail) }
        ensures spelled { IfOk result (λ es. AreSpelled es) }
    {
        let positions = found.gather(alloc, streams, 0, tail)?;
        entries_at(alloc, &self.cells, &positions)
    }

    /// Of those entries the ones from the settled position on. All others are commit records. The time goes by how many
    /// positions are known from there on.
    pub fn entries_from_settled(
        &self,
        alloc: Global,
        found: &StreamPositions,
        streams: &[Oid],
        tail: Pos,
    ) -> Result<Entries, NoMemory>
        ensures entries { IfOk result (λ es. es ≡ new_entries self.now found.now streams.now tail) }
        ensures spelled { IfOk result (λ es. AreSpelled es) }
        ensures others { CommitsBelow self.now.settled (all_entries self.now found.now streams.now tail) }
    {
        let positions = self.positions(alloc, found, streams, self.settled, tail)?;
        entries_at(alloc, &self.cells, &positions)
    }

    /// The commit record at a position among all those entries, None where there is none. It takes logarithmic time for
    /// each stream.
    pub fn commit_at(
        &self,
        alloc: Global,
        found: &StreamPositions,
        streams: &[Oid],
        tail: Pos,
        pos: Pos,
    ) -> Result<Option<Entry>, NoMemory>
        ensures { IfOk result (λ e. e ≡ commit_at (all_entries self.now found.now streams.now tail) pos) }
    {
        if !self.has(found, streams, tail, pos) {
            return Ok(None);
        }
        commit_at(alloc, &self.cells, pos)
    }

    /// The entries at these positions, each once and in order, as far as their pages are known: those of the members
    /// that a walk found, say.
    pub fn entries_of(&self, alloc: Global, positions: &[Pos]) -> Result<Entries, NoMemory>
        ensures entries { IfOk result (λ es. es ≡ entries_at self.now.cells (with_nums positions.now [])) }
        ensures spelled { IfOk result (λ es. AreSpelled es) }
    {
        let positions = Positions::new(alloc).put_all(positions)?;
        entries_at(alloc, &self.cells, &positions)
    }
}

impl Known {
    /// Whether a position below a tail is one of the members' or of the own records'.
    fn has(&self, found: &StreamPositions, streams: &[Oid], tail: Pos, pos: Pos) -> bool
        ensures { result ≡ (nat_lt pos tail && has_num pos (all_positions self.now found.now streams.now)) }
    {
        pos < tail && self.has_any(found, streams, pos)
    }

    /// Likewise wherever the tail is.
    fn has_any(&self, found: &StreamPositions, streams: &[Oid], pos: Pos) -> bool
        ensures { result ≡ (has_num pos self.now.own || any_has found.now streams.now pos) }
    {
        self.own.has(pos) || found.any_has(streams, pos)
    }

    /// The positions of these streams' members and of the own records, from `low` on and below `high`.
    fn positions(
        &self,
        alloc: Global,
        found: &StreamPositions,
        streams: &[Oid],
        low: Pos,
        high: Pos,
    ) -> Result<Positions, NoMemory>
        ensures { IfOk result (λ p. p ≡ within low high (all_positions self.now found.now streams.now)) }
    {
        let members = found.gather(alloc, streams, low, high)?;
        members.put_within(alloc, &self.own, low, high)
    }
}

/// Up to where cells are settled once a position was given up.
fn settled_after(all: bool, settled: Pos, upto: Pos) -> Pos
    ensures { result ≡ (if all then max settled upto else settled) }
{
    if all {
        return settled.max(upto);
    }
    settled
}
