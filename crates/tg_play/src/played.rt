//! What a view has played.

ghost use Rattle.std.specs.Prelude.{◌≡◌, ◌+◌, ◌<◌, ◌≤◌, ◌^◌, ◌&&◌, nat_le, nat_lt, ℕ, List, IfOk, OnOk, if◌then◌else◌};
ghost use Rattle.std.specs.BTreeMap.{insert_entry};
ghost use Rattle.std.specs.BTreeSet.{insert_key};
ghost use Rattle.std.specs.List.{list_any};
ghost use Rattle.std.specs.Ordering.{nat_cmp};
ghost use Rattle.tg_entry.specs.Drafts.{IsInOrder};
ghost use Rattle.tg_entry.specs.declared.entry.Entry.{Entry};
ghost use Rattle.tg_entry.specs.declared.entry.WriteOp.{WriteOp};
ghost use Rattle.tg_kind.specs.Of.{meaning_of};
ghost use Rattle.tg_entry.specs.Needs.{reads_of, writes_of};
ghost use Rattle.tg_protocol.specs.Views as told;
ghost use Rattle.tg_vers.specs.Kept.{first_other};
ghost use Rattle.tg_play.specs.Kept.{decisions_kept};
ghost use Rattle.tg_play.specs.Lawful.{AreLawful, IsLawfulView, StaysLawful};
ghost use Rattle.tg_play.specs.Relations.{told_verdict, KeepsObjects, KeepsTo, KeepsView, Stepped, record_made, PlayedOn};

use crate::decisions::{decision_at, lacks_decision};
use crate::hosted::Hosted;
use crate::reads::{changed, unknown, verdict};
use crate::records::{plays_any, write_all};
use crate::verdict::Verdict;
use std::alloc::Global;
use std::collections::{BTreeMap, BTreeSet};
use std::marker::Model;
use tg_base::{NoMemory, Oid, Pos, ReadMark};
use tg_entry::{Body, Entry, WriteOp};
use tg_kind::Registry;
use tg_model::PlayEnd;

/// The fields of a view, as a play changes them one by one.
#[derive(Drop)]
pub struct Played<K> {
    pub objects: BTreeMap<Oid, Hosted<K>>,
    pub upto: Pos,
    pub fates: BTreeMap<Pos, bool>,
    pub open_records: BTreeSet<Pos>,
}

impl<K> Model for Played<K> {
    ghost use Rattle.tg_play.specs.Kept.{Kept};

    ghost Value = { Kept K };

    ghost view = { λ v. record { objects = v.objects.entries; upto = v.upto; fates = v.fates.entries; open_records = v.open_records.keys } };
}

impl<K: Registry> Played<K> {
    /// Plays the entries from the view's `upto` on and below the target.
    pub fn play_on(
        &mut self,
        alloc: Global,
        decisions: &BTreeMap<Pos, bool>,
        entries: &[(Pos, Entry)],
        from: Pos,
        upto: Pos,
    ) -> Result<PlayEnd, NoMemory>
        requires rising { IsInOrder entries.now }
        requires decided { decisions.now.entries ≡ decisions_kept entries.now }
        requires begun { from ≡ self.old.upto }
        requires onward { from ≤ upto }
        ensures played { (v : told.View (meaning_of K.Registry)) → KeepsView (meaning_of K.Registry) self.old v → IfOk result (λ came. PlayedOn (meaning_of K.Registry) self.new came (told.play_on (meaning_of K.Registry) entries.now upto v (told.between (meaning_of K.Registry) from upto entries.now))) }
        ensures lawful { IsLawfulView self.old → IfOk result (λ _. IsLawfulView self.new) }
    {
        for (pos, entry) in entries {
            if !is_due(*pos, from, upto) {
                continue;
            }
            if let Some(missing) = self.step(alloc, decisions, *pos, entry)? {
                self.stand(*pos);
                return Ok(PlayEnd::Blocked { pos: *pos, missing });
            }
        }
        self.stand(upto);
        Ok(PlayEnd::Played { upto })
    }

    // The play ends at a position.
    fn stand(&mut self, pos: Pos)
        ensures { self.new ≡ record self.old { upto = pos } }
    {
        self.upto = pos;
    }

    // What an entry makes of the view: the object is told without which its record can't be decided, and the view
    // is as it was then.
    fn step(
        &mut self,
        alloc: Global,
        decisions: &BTreeMap<Pos, bool>,
        pos: Pos,
        entry: &Entry,
    ) -> Result<Option<Oid>, NoMemory>
        requires { pos + 1 < 2 ^ 64 }
        ensures stepped { (v : told.View (meaning_of K.Registry)) (es : List (ℕ × Entry)) → decisions.now.entries ≡ decisions_kept es → KeepsTo (meaning_of K.Registry) pos self.old v → IfOk result (λ missing. Stepped (meaning_of K.Registry) pos self.new v missing (told.step_at (meaning_of K.Registry) v es pos entry.now)) }
        ensures lawful { (bound : ℕ) → AreLawful bound self.old.objects → IfOk result (λ missing. StaysLawful bound pos missing self.new.objects) }
    {
        match &entry.body {
            Body::Commit { reads, writes } => {
                let decision = decision_at(decisions, pos);
                let needs = lacks_decision(entry, decision);
                let verdict = self.verdict(decision, reads.as_slice(), pos);
                self.take(alloc, pos, needs, verdict, writes.as_slice())
            }
            Body::Decision { .. } => Ok(None),
            Body::Checkpoint { .. } => Ok(None),
        }
    }

    /// The least object of which a part is read whose version at a position isn't known.
    pub fn unknown(&self, reads: &[ReadMark], pos: Pos) -> Option<Oid>
        ensures { (v : told.View (meaning_of K.Registry)) → KeepsObjects (meaning_of K.Registry) self.now.objects v → result ≡ told.unknown_in (meaning_of K.Registry) v reads.now pos }
    {
        unknown(&self.objects, reads, pos)
    }

    /// The index, from 0, of the first read that has another version at a position, with that version.
    pub fn changed(&self, reads: &[ReadMark], pos: Pos) -> Option<(usize, u64)>
        ensures { (v : told.View (meaning_of K.Registry)) → KeepsObjects (meaning_of K.Registry) self.now.objects v → result ≡ first_other (told.version_at (meaning_of K.Registry) v pos) reads.now }
    {
        changed(&self.objects, reads, pos)
    }

    /// What becomes of the record at a position, by what is said of it and the versions of its reads.
    pub fn verdict(&self, decision: Option<bool>, reads: &[ReadMark], pos: Pos) -> Verdict
        ensures { (v : told.View (meaning_of K.Registry)) (e : Entry) → KeepsObjects (meaning_of K.Registry) self.now.objects v → reads_of e ≡ reads.now → told_verdict result ≡ told.by_decision (meaning_of K.Registry) v e pos decision }
    {
        verdict(&self.objects, decision, reads, pos)
    }

    // Whether any of a record's writes is played.
    fn plays_any(&self, writes: &[WriteOp], pos: Pos) -> bool
        ensures { (v : told.View (meaning_of K.Registry)) → KeepsObjects (meaning_of K.Registry) self.now.objects v → result ≡ list_any (λ (w : WriteOp). told.plays (meaning_of K.Registry) pos (told.base_of (meaning_of K.Registry) v w.oid)) writes.now }
    {
        plays_any(&self.objects, writes, pos)
    }

    // What a commit record makes of the view by what becomes of it.
    fn take(
        &mut self,
        alloc: Global,
        pos: Pos,
        needs: bool,
        verdict: Verdict,
        writes: &[WriteOp],
    ) -> Result<Option<Oid>, NoMemory>
        requires { pos + 1 < 2 ^ 64 }
        ensures stepped { (v : told.View (meaning_of K.Registry)) (e : Entry) → writes_of e ≡ writes.now → KeepsTo (meaning_of K.Registry) pos self.old v → IfOk result (λ missing. Stepped (meaning_of K.Registry) pos self.new v missing (record_made (meaning_of K.Registry) v pos e needs (told_verdict verdict))) }
        ensures lawful { (bound : ℕ) → AreLawful bound self.old.objects → IfOk result (λ missing. StaysLawful bound pos missing self.new.objects) }
    {
        let played = self.plays_any(writes, pos);
        match verdict {
            Verdict::Unknown(missing) => {
                if played {
                    return Ok(Some(missing));
                }
                self.note_open(pos, needs)?;
                Ok(None)
            }
            Verdict::Aborts => {
                self.note_open(pos, needs)?;
                self.note_fate(pos, false)?;
                Ok(None)
            }
            Verdict::Commits => {
                self.note_open(pos, needs)?;
                self.note_fate(pos, true)?;
                if played {
                    self.write_all(alloc, pos, writes)?;
                    return Ok(None);
                }
                Ok(None)
            }
        }
    }

    // Notes that the record at a position needs a decision record and has none.
    fn note_open(&mut self, pos: Pos, needs: bool) -> Result<(), NoMemory>
        ensures { OnOk result (self.new ≡ (if needs then record self.old { open_records = insert_key nat_cmp self.old.open_records pos } else self.old)) }
    {
        if needs {
            self.open_records.insert(pos)?;
            return Ok(());
        }
        Ok(())
    }

    // Notes whether the record at a position is committed.
    fn note_fate(&mut self, pos: Pos, yes: bool) -> Result<(), NoMemory>
        ensures { OnOk result (self.new ≡ record self.old { fates = insert_entry nat_cmp self.old.fates pos yes }) }
    {
        self.fates.insert(pos, yes)?;
        Ok(())
    }

    // Plays a record's writes.
    fn write_all(&mut self, alloc: Global, pos: Pos, writes: &[WriteOp]) -> Result<(), NoMemory>
        requires { pos + 1 < 2 ^ 64 }
        ensures rest { OnOk result (self.new ≡ record self.old { objects = self.new.objects }) }
        ensures objects { (v : told.View (meaning_of K.Registry)) → KeepsObjects (meaning_of K.Registry) self.old.objects v → OnOk result (KeepsObjects (meaning_of K.Registry) self.new.objects (told.write_all (meaning_of K.Registry) pos v writes.now)) }
        ensures lawful { AreLawful (pos + 1) self.old.objects → OnOk result (AreLawful (pos + 1) self.new.objects) }
    {
        write_all(alloc, &mut self.objects, pos, writes)?;
        Ok(())
    }
}

// Whether a position is among those to play.
fn is_due(pos: Pos, from: Pos, upto: Pos) -> bool
    ensures { result ≡ (nat_le from pos && nat_lt pos upto) }
{
    from <= pos && pos < upto
}
