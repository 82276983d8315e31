//! What a cell says of a stream.

ghost use Rattle.std.specs.Prelude.{◌≡◌, ◌≤◌, ◌+◌, ◌++◌, nat_lt, length, filter, Some, IfOk};
ghost use Rattle.std.specs.List.{list_any};
ghost use Rattle.tg_protocol.specs.Words.{where_true};
ghost use Rattle.tg_base.specs.Orders.{oid_eq};
ghost use Rattle.tg_protocol.specs.Entries.{backs_of, link_of};
ghost use Rattle.tg_protocol.specs.Pages.{entry_of};
ghost use Rattle.tg_protocol.specs.Walking.{listed, pointers_at};

use crate::page::Page;
use arrayvec::ArrayVec;
use std::alloc::Global;
use tg_base::{Backs, Blob, Cell, NoMemory, Oid, Pos, StreamLink};
use tg_entry::{EntryFault, decode};

/// The pointers of the entry at a position, as far as they are below it: None where no entry of the stream
/// stands there.
pub fn backs_at(alloc: Global, oid: Oid, pos: Pos, page: &Page) -> Result<Option<Backs>, NoMemory>
    ensures { IfOk result (λ backs. backs ≡ pointers_at oid pos page.now) }
{
    match page.kept() {
        None => backs_unread(alloc, oid, pos, page.cell()),
        Some(entry) => Ok(backs_among(oid, pos, entry.head.streams.as_slice())),
    }
}

/// Likewise of a cell that isn't read yet.
fn backs_unread(alloc: Global, oid: Oid, pos: Pos, cell: &Cell) -> Result<Option<Backs>, NoMemory>
    ensures { IfOk result (λ backs. backs ≡ pointers_at oid pos cell.now) }
{
    match cell {
        Cell::Junk => Ok(None),
        Cell::Data(page) => backs_in(alloc, oid, pos, page),
    }
}

/// Likewise of a page.
#[tactic(auto, unfolding(tg_protocol::specs::Pages::entry_of))]
fn backs_in(alloc: Global, oid: Oid, pos: Pos, page: &Blob) -> Result<Option<Backs>, NoMemory>
    ensures { IfOk result (λ backs. backs ≡ listed oid pos (entry_of page.now)) }
{
    match decode(alloc, page.as_slice()) {
        Ok(entry) => Ok(backs_among(oid, pos, entry.head.streams.as_slice())),
        Err(EntryFault::NoMemory) => Err(NoMemory),
        Err(_) => Ok(None),
    }
}

/// Likewise of an entry's streams.
fn backs_among(oid: Oid, pos: Pos, streams: &[StreamLink]) -> Option<Backs>
    ensures { result ≡ where_true (list_any (λ l. oid_eq l.oid oid) streams.now) (filter (λ b. nat_lt b pos) (backs_of (link_of oid streams.now))) }
{
    match streams {
        [] => None,
        [stream, others @ ..] => {
            if stream.oid.0 == oid.0 {
                return Some(below(&stream.backs, pos));
            }
            backs_among(oid, pos, others)
        }
    }
}

/// Those of these positions that are below another.
fn below(backs: &Backs, pos: Pos) -> Backs
    ensures { result ≡ filter (λ b. nat_lt b pos) backs.now }
{
    let mut kept = ArrayVec::<u64, 4>::new();
    keep_below(backs.as_slice(), pos, &mut kept);
    Backs::of(kept.as_slice()).unwrap()
}

fn keep_below(positions: &[u64], pos: Pos, kept: &mut ArrayVec<u64, 4>)
    requires { length kept.old.items + length positions.now ≤ 4 }
    ensures { kept.new.items ≡ kept.old.items ++ filter (λ b. nat_lt b pos) positions.now }
{
    match positions {
        [] => {}
        [first, others @ ..] => {
            if *first < pos {
                kept.push(*first);
            }
            keep_below(others, pos, kept);
        }
    }
}
