//! Replies.

ghost use Rattle.std.specs.Prelude.{◌≡◌, ℕ, [], ◌∷◌, Option, None, IfOk};
ghost use Rattle.tg_kind.specs.Of.{meaning_of};
ghost use Rattle.tg_protocol.specs.Answers as told;
ghost use Rattle.tg_protocol.specs.Clients.{upto as upto_of};
ghost use Rattle.tg_protocol.specs.Views.{View};
ghost use Rattle.tg_client_state.specs.States.{Rest, client_of, rest_of, directory_in, KeepsViewIf, KeepsMoved};

use crate::moved::Moved;
use crate::state::State;
use std::alloc::Global;
use std::mem;
use tg_base::{List, NoMemory, Oid, Pos};
use tg_client_cells::Known;
use tg_kind::Registry;
use tg_model::{Note, NoteOf, Refusal, What, WhatOf};

/// A single note. An `Err` is want of memory.
pub fn one_note<K: Registry>(
    alloc: Global,
    tx: u32,
    what: WhatOf<K>,
) -> Result<List<NoteOf<K>>, NoMemory>
    ensures { IfOk result (λ notes. notes ≡ told.note (meaning_of K.Registry) tx what ∷ []) }
{
    let mut notes = List::new(alloc);
    notes.push(Note { tx, what })?;
    Ok(notes)
}

impl<K: Registry> State<K> {
    /// Where the kept view's play ended, and 0 where none is kept. It takes no memory.
    pub fn upto(&self) -> Pos
        ensures { (r : Rest (meaning_of K.Registry)) → KeepsViewIf (meaning_of K.Registry) self.now.view r.view → result ≡ upto_of (meaning_of K.Registry) (client_of (meaning_of K.Registry) self.now r) }
    {
        match &self.parts.view {
            None => 0,
            Some(view) => view.upto(),
        }
    }

    /// A reply: no command waits any more, and pages below the kept view's end are given up. An `Err` is want of memory.
    pub fn replies(self, alloc: Global, notes: List<NoteOf<K>>) -> Result<Moved<K>, NoMemory>
        ensures { (r : Rest (meaning_of K.Registry)) (old : ℕ) → KeepsViewIf (meaning_of K.Registry) self.view r.view → IfOk result (λ x. KeepsMoved (meaning_of K.Registry) old x (told.replies (meaning_of K.Registry) (client_of (meaning_of K.Registry) self r) notes)) }
    {
        let upto = self.upto();
        let mut state = self;
        let taken = mem::replace(&mut state.parts.known, Known::new(alloc));
        let known = taken.give_up(alloc, upto)?;
        state.parts.known = known;
        Ok(Moved {
            state,
            work: None,
            sends: List::new(alloc),
            notes,
        })
    }

    /// A refusal. An `Err` is want of memory.
    pub fn refuses(self, alloc: Global, tx: u32, why: Refusal) -> Result<Moved<K>, NoMemory>
        ensures { (r : Rest (meaning_of K.Registry)) (old : ℕ) → KeepsViewIf (meaning_of K.Registry) self.view r.view → IfOk result (λ x. KeepsMoved (meaning_of K.Registry) old x (told.refuses (meaning_of K.Registry) (client_of (meaning_of K.Registry) self r) tx why)) }
    {
        let notes = one_note::<K>(alloc, tx, What::Refused { why })?;
        self.replies(alloc, notes)
    }

    /// The directory as the kept view has it, where that hosts it. An `Err` is want of memory.
    fn played_directory(&self) -> Result<Option<K>, NoMemory>
        ensures { (v : Option (View (meaning_of K.Registry))) → KeepsViewIf (meaning_of K.Registry) self.now.view v → IfOk result (λ d. d ≡ directory_in (meaning_of K.Registry) v) }
    {
        match &self.parts.view {
            None => Ok(None),
            Some(view) => match view.state(Oid(0)) {
                None => Ok(None),
                Some(dir) => Ok(Some(dir.copy()?)),
            },
        }
    }

    /// The directory is taken over from the kept view. An `Err` is want of memory.
    pub fn takes_over(self) -> Result<State<K>, NoMemory>
        ensures is { (r : Rest (meaning_of K.Registry)) → KeepsViewIf (meaning_of K.Registry) self.view r.view → IfOk result (λ s. told.took_over (meaning_of K.Registry) (client_of (meaning_of K.Registry) self r) r.view ≡ client_of (meaning_of K.Registry) s (rest_of (meaning_of K.Registry) (told.took_over (meaning_of K.Registry) (client_of (meaning_of K.Registry) self r) r.view))) }
        ensures view { IfOk result (λ s. s.view ≡ self.view) }
        ensures numbers { IfOk result (λ s. s.rids ≡ self.rids) }
    {
        match self.played_directory()? {
            None => Ok(self),
            Some(dir) => {
                let mut state = self;
                state.parts.dir = dir;
                Ok(state)
            }
        }
    }

    /// The answer of a command that has played: the directory is taken over. An `Err` is want of memory.
    pub fn answers(self, alloc: Global, tx: u32, what: WhatOf<K>) -> Result<Moved<K>, NoMemory>
        ensures { (r : Rest (meaning_of K.Registry)) (old : ℕ) → KeepsViewIf (meaning_of K.Registry) self.view r.view → IfOk result (λ x. KeepsMoved (meaning_of K.Registry) old x (told.answers (meaning_of K.Registry) (client_of (meaning_of K.Registry) self r) tx what)) }
    {
        let notes = one_note::<K>(alloc, tx, what)?;
        self.takes_over()?.replies(alloc, notes)
    }

    /// The transaction is closed. It takes no memory.
    pub fn closed(self) -> State<K>
        ensures { result ≡ record self { tx = None } }
    {
        let mut state = self;
        state.parts.tx = None;
        state
    }
}
