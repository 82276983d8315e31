//! The entries of known pages.

ghost use Rattle.std.specs.Prelude.{◌≡◌, ◌++◌, [], true, Some, IfOk, OnOk};
ghost use Rattle.tg_entry.specs.Drafts.{all_below};
ghost use Rattle.tg_protocol.specs.Words.{cell_at};
ghost use Rattle.tg_protocol.specs.Entries.{is_commit};
ghost use Rattle.tg_protocol.specs.Pages.{cell_entry};
ghost use Rattle.tg_stream.specs.Pages.{fits_by};
ghost use Rattle.tg_client_cells.specs.Words.{entries_at, commits_by, commit_of, AreSpelled};
ghost use Rattle.tg_protocol.specs.Views.{entry_if};

use crate::positions::Positions;
use std::alloc::Global;
use std::collections::BTreeMap;
use tg_base::{NoMemory, Pos};
use tg_entry::{Body, Entries, Entry};
use tg_stream::Page;

/// Whether an entry decides nothing, if there is one.
fn commits_by(entry: &Option<Entry>) -> bool
    ensures { result ≡ commits_by entry.now }
{
    match entry {
        None => true,
        Some(entry) => is_commit(entry),
    }
}

/// Whether an entry is a commit record.
fn is_commit(entry: &Entry) -> bool
    ensures { result ≡ is_commit entry.now }
{
    matches!(entry.body, Body::Commit { .. })
}

/// Whether a cell holds no entry but a commit record.
pub fn commits(alloc: Global, page: &Page) -> Result<bool, NoMemory>
    ensures { IfOk result (λ c. c ≡ commits_by (cell_entry (Some page.now))) }
{
    match page.kept() {
        None => {
            let entry = page.entry(alloc)?;
            Ok(commits_by(&entry))
        }
        Some(entry) => Ok(is_commit(entry)),
    }
}

/// The entry at a position, None where no page of one is known there.
fn entry_at(alloc: Global, cells: &BTreeMap<u64, Page>, pos: Pos) -> Result<Option<Entry>, NoMemory>
    ensures entry { IfOk result (λ e. e ≡ cell_entry (cell_at cells.now.entries pos)) }
    ensures spelled { IfOk result (λ e. fits_by e ≡ true) }
{
    match cells.get(&pos) {
        None => Ok(None),
        Some(page) => page.entry(alloc),
    }
}

/// The commit record at a position, None where no page of one is known there.
pub fn commit_at(
    alloc: Global,
    cells: &BTreeMap<u64, Page>,
    pos: Pos,
) -> Result<Option<Entry>, NoMemory>
    ensures { IfOk result (λ e. e ≡ commit_of (cell_entry (cell_at cells.now.entries pos))) }
{
    match entry_at(alloc, cells, pos)? {
        None => Ok(None),
        Some(entry) => Ok(commit_of(entry)),
    }
}

/// The entry, if it is a commit record.
fn commit_of(entry: Entry) -> Option<Entry>
    ensures { result ≡ commit_of (Some entry) }
{
    if is_commit(&entry) {
        return Some(entry);
    }
    None
}

/// The entries at these positions, as far as their pages are known. Each has a spelling, since it was read from a page.
pub fn entries_at(
    alloc: Global,
    cells: &BTreeMap<u64, Page>,
    positions: &Positions,
) -> Result<Entries, NoMemory>
    ensures entries { IfOk result (λ es. es ≡ entries_at cells.now.entries positions.now) }
    ensures spelled { IfOk result (λ es. AreSpelled es) }
{
    let mut entries = Entries::new(alloc);
    let rising = positions.as_slice();
    for pos in rising {
        let entry = entry_at(alloc, cells, *pos)?;
        put_entry(&mut entries, *pos, entry)?;
    }
    Ok(entries)
}

/// Puts an entry last, where there is one.
fn put_entry(entries: &mut Entries, pos: Pos, entry: Option<Entry>) -> Result<(), NoMemory>
    requires { all_below pos entries.old ≡ true }
    ensures { OnOk result (entries.new ≡ entries.old ++ entry_if pos entry []) }
{
    match entry {
        None => Ok(()),
        Some(entry) => {
            entries.push(pos, entry)?;
            Ok(())
        }
    }
}
