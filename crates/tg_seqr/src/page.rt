//! The streams in which a cell stands.

ghost use Rattle.std.specs.Prelude.{◌≡◌, map, IfOk};
ghost use Rattle.tg_entry.specs.Answers.{Decodes};
ghost use Rattle.tg_protocol.specs.Entries.{oid_of_link};
ghost use Rattle.tg_protocol.specs.Sequencers.{cell_streams};

use std::alloc::{AllocError, Global};
use tg_base::{Cell, List, NoMemory, Oid, StreamLink};
use tg_entry::{EntryFault, decode};

/// The streams of a cell's entry, in their order. Junk stands in none, and neither does a page that is no entry.
///
/// An `Err` is want of memory.
#[tactic(auto, unfolding(tg_protocol::specs::Pages::entry_of))]
pub fn streams_of(alloc: Global, cell: &Cell) -> Result<List<Oid>, NoMemory>
    ensures { IfOk result (λ oids. oids ≡ cell_streams cell.now) }
{
    match cell {
        Cell::Junk => Ok(List::new(alloc)),
        Cell::Data(page) => match decode(alloc, page.as_slice()) {
            Ok(entry) => {
                let oids = oids_of(alloc, entry.head.streams.as_slice())?;
                Ok(List::from_vec(oids))
            }
            Err(EntryFault::NoMemory) => Err(NoMemory),
            Err(_) => Ok(List::new(alloc)),
        },
    }
}

/// The objects of links.
fn oids_of(alloc: Global, links: &[StreamLink]) -> Result<Vec<Oid>, AllocError>
    ensures { IfOk result (λ oids. oids.items ≡ map oid_of_link links.now) }
{
    links.iter().map(|link| link.oid).collect(alloc)
}
