//! The page of an entry whose links were issued.

ghost use Rattle.std.specs.Prelude.{◌≡◌, ◌↔◌, ◌≤◌, true, length, IsTrue, IfOk};
ghost use Rattle.tg_entry.specs.Format.{entry as spelling};
ghost use Rattle.tg_protocol.specs.Entries.{streams_of};
ghost use Rattle.tg_entry.specs.Records.{linked};
ghost use Rattle.tg_protocol.specs.Pages.{page_of};
ghost use Rattle.tg_protocol.specs.Appending.{names_all};
ghost use Rattle.tg_append.specs.Appends.{HasRoom};

use std::alloc::Global;
use tg_base::{Blob, List, NoMemory, StreamLink};
use tg_entry::{Draft, Entry, EntryFault, encode, size};

/// Whether the draft's page has 4,096 bytes at most, and so has its page with whatever links. It takes no memory.
#[tactic(auto, unfolding(tg_protocol::specs::Pages::page_of))]
pub fn has_room(draft: &Draft) -> bool
    ensures { IsTrue result ↔ HasRoom draft.now }
{
    size(draft.entry()) <= Blob::MAX
}

/// The page of the draft with these links.
#[tactic(auto, using(crate::proofs::Pages::linked_fits, crate::proofs::Rooms::page_long))]
pub fn linked_page(alloc: Global, draft: &Draft, links: &List<StreamLink>) -> Result<Blob, NoMemory>
    requires named { names_all (streams_of draft.now) links.now ≡ true }
    requires room { HasRoom draft.now }
    ensures { IfOk result (λ page. page ≡ page_of (linked draft.now links.now)) }
{
    let _rules = draft.entry();
    let entry = link(draft, links)?;
    page_of(alloc, &entry)
}

/// The draft with these links.
fn link(draft: &Draft, links: &List<StreamLink>) -> Result<Entry, NoMemory>
    ensures { IfOk result (λ e. e ≡ linked draft.now links.now) }
{
    let mut entry = draft.copy()?.into_entry();
    entry.head.streams = copied(links)?;
    Ok(entry)
}

/// Equal links.
pub fn copied(links: &List<StreamLink>) -> Result<List<StreamLink>, NoMemory>
    ensures { IfOk result (λ c. c ≡ links.now) }
{
    Ok(links.clone()?)
}

/// The page of an entry that has a spelling of at most 4,096 bytes.
#[tactic(auto, unfolding(tg_protocol::specs::Pages::page_of))]
fn page_of(alloc: Global, entry: &Entry) -> Result<Blob, NoMemory>
    requires fits { spelling.fits entry.now ≡ true }
    requires room { length (page_of entry.now) ≤ 4096 }
    ensures { IfOk result (λ page. page ≡ page_of entry.now) }
{
    match encode(alloc, entry) {
        Ok(page) => Ok(page),
        Err(EntryFault::NoMemory) => Err(NoMemory),
        Err(_) => unreachable!(),
    }
}
