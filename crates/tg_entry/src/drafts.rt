//! Drafts, and entries in order.

ghost use Rattle.std.specs.Prelude.{◌≡◌, ◌++◌, ◌∷◌, ◌<◌, [], true, length, OnOk, OnErr, IfOk, IfErr, IfSome};
ghost use Rattle.std.specs.Option.{option_copied};
ghost use Rattle.tg_entry.specs.Drafts.{IsDraft, IsInOrder, IsPlaceOf, IsNowhere, all_below, entry_at};

use crate::entry::Entry;
use std::alloc::Global;
use std::marker::Model;
use tg_base::{List, NoMemory, Pos};

/// An entry of format 2 that isn't appended yet: its streams name no position.
#[derive(Drop)]
pub struct Draft {
    entry: Entry,
}

impl Model for Draft {
    ghost use Rattle.tg_entry.specs.declared.entry.Entry.{Entry};
    ghost use Rattle.tg_entry.specs.Drafts.{IsDraft};

    ghost Value = { Entry };

    ghost view = { λ d. d.entry };

    ghost invariant = { λ d. IsDraft d.entry };
}

impl Draft {
    /// The entry as a draft.
    pub fn new(entry: Entry) -> Draft
        requires { IsDraft entry }
        ensures { result ≡ entry }
    {
        Draft { entry }
    }

    /// The entry.
    pub fn entry(&self) -> &Entry
        ensures entry { result.now ≡ self.now }
        ensures rules { IsDraft self.now }
    {
        &self.entry
    }

    /// The entry, to be linked.
    pub fn into_entry(self) -> Entry
        ensures entry { result ≡ self }
        ensures rules { IsDraft self }
    {
        self.entry
    }

    /// An equal draft.
    pub fn copy(&self) -> Result<Draft, NoMemory>
        ensures { IfOk result (λ c. c ≡ self.now) }
    {
        let copy = self.entry.copy()?;
        Ok(Draft { entry: copy })
    }
}

/// Entries, rising by position.
#[derive(Drop)]
pub struct Entries {
    list: List<(Pos, Entry)>,
}

impl Model for Entries {
    ghost use Rattle.tg_entry.specs.Drafts.{Placed, IsInOrder};

    ghost Value = { Placed };

    ghost view = { λ s. s.list };

    ghost invariant = { λ s. IsInOrder s.list };
}

impl Entries {
    /// No entry. It takes no memory.
    pub fn new(alloc: Global) -> Entries
        ensures { result ≡ [] }
    {
        Entries {
            list: List::new(alloc),
        }
    }

    /// Puts an entry last, at a position above all others. An `Err` changes nothing.
    pub fn push(&mut self, at: Pos, entry: Entry) -> Result<(), NoMemory>
        requires { all_below at self.old ≡ true }
        ensures ok { OnOk result (self.new ≡ self.old ++ (at, entry) ∷ []) }
        ensures err { OnErr result (self.new ≡ self.old) }
    {
        self.list.push((at, entry))?;
        Ok(())
    }

    /// The entries with their positions.
    pub fn as_slice(&self) -> &[(Pos, Entry)]
        ensures entries { result.now ≡ self.now }
        ensures rules { IsInOrder self.now }
    {
        self.list.as_slice()
    }

    /// The entry at a position, if there is one. It takes no memory.
    pub fn get(&self, at: Pos) -> Option<&Entry>
        ensures { option_copied result ≡ entry_at self.now at }
    {
        let list = self.list.as_slice();
        match place_of(list, at) {
            Ok(place) => Some(&list[place].1),
            Err(_) => None,
        }
    }
}

// The place of the entry at a position among entries in order.
fn place_of(list: &[(Pos, Entry)], at: Pos) -> Result<usize, usize>
    requires { IsInOrder list.now }
    ensures found { IfOk result (IsPlaceOf list.now at) }
    ensures absent { IfErr result (λ _. IsNowhere list.now at) }
{
    list.binary_search_by_key(&at, |e| e.0)
}
