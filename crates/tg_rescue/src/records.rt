//! The record that is to be rescued.

ghost use Rattle.std.specs.Prelude.{◌≡◌, ◌==◌, ◌&&◌, not, is_some, IfOk};
ghost use Rattle.std.specs.Option.{option_copied};
ghost use Rattle.tg_protocol.specs.Entries as told;
ghost use Rattle.tg_entry.specs.Needs.{needs_decision};
ghost use Rattle.tg_protocol.specs.Past as past;
ghost use Rattle.tg_protocol.specs.Views as views;

use std::alloc::Global;
use tg_base::{NoMemory, Pos};
use tg_entry::{Body, Entries, Entry};
use tg_play::{decision_at, decisions_of, lacks_decision};

// Whether the entry is a commit record.
fn is_commit(entry: &Entry) -> bool
    ensures { result ≡ told.is_commit entry.now }
{
    match &entry.body {
        Body::Commit { .. } => true,
        Body::Decision { .. } => false,
        Body::Checkpoint { .. } => false,
    }
}

// Whether an entry is a commit record at a position.
fn is_record_at(pos: Pos, entry: &Entry, at: Pos) -> bool
    ensures { result ≡ ((pos == at) && told.is_commit entry.now) }
{
    pos == at && is_commit(entry)
}

// The commit record at a position, if there is one.
fn commit_in(entries: &[(Pos, Entry)], at: Pos) -> Option<&Entry>
    ensures { option_copied result ≡ past.commit_at entries.now at }
{
    for placed in entries {
        if is_record_at(placed.0, &placed.1, at) {
            return Some(&placed.1);
        }
    }
    None
}

/// The commit record at a position, if there is one. It takes no memory.
pub fn commit_at(entries: &Entries, at: Pos) -> Option<&Entry>
    ensures { option_copied result ≡ past.commit_at entries.now at }
{
    commit_in(entries.as_slice(), at)
}

/// Whether the record at a position needs a decision record that isn't among the entries.
/// An `Err` is want of memory.
pub fn needs_decision(
    alloc: Global,
    entries: &Entries,
    at: Pos,
    entry: &Entry,
) -> Result<bool, NoMemory>
    ensures { IfOk result (λ needs. needs ≡ (needs_decision entry.now && not (is_some (views.decision_in entries.now at)))) }
{
    let decisions = decisions_of(alloc, entries.as_slice())?;
    Ok(lacks_decision(entry, decision_at(&decisions, at)))
}
