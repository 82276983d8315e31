//! A client's view.

ghost use Rattle.std.specs.Prelude.{◌≡◌, ℕ, IfOk};
ghost use Rattle.std.specs.Option.{option_copied};
ghost use Rattle.tg_base.specs.declared.marks.Part.TheVariants.{All};
ghost use Rattle.tg_entry.specs.declared.entry.Entry.{Entry};
ghost use Rattle.tg_kind.specs.Of.{meaning_of};
ghost use Rattle.tg_entry.specs.Needs.{reads_of as told_reads};
ghost use Rattle.tg_protocol.specs.Views as told;
ghost use Rattle.tg_protocol.specs.Views.{decision_in};
ghost use Rattle.tg_protocol.specs.Words.{or_else};
ghost use Rattle.tg_vers.specs.Kept.{changed_of};
ghost use Rattle.tg_play.specs.Kept.{at_position, hosted_of, rising_positions};
ghost use Rattle.tg_play.specs.Lawful.{AreKeys, AreLawfulBases, IsLawfulView, version_at_end};
ghost use Rattle.tg_play.specs.Relations.{told_verdict, KeepsBases, KeepsView};

use crate::base::Base;
use crate::decisions::{decision_among, decision_at, decisions_of};
use crate::hosted::Hosted;
use crate::objects::{found, hosts_of};
use crate::played::Played;
use crate::verdict::Verdict;
use std::alloc::Global;
use std::collections::{BTreeMap, BTreeSet};
use std::marker::Model;
use tg_base::{List, NoMemory, Oid, Part, Pos, ReadMark};
use tg_entry::{Body, Entries, Entry};
use tg_kind::Registry;
use tg_model::PlayEnd;

/// The states of the objects that a client hosts, played from the log's entries.
///
/// Each clause speaks of any view of the definitions that this one keeps: a play takes the definitions' play, and
/// the answers are those of the definitions.
///
/// Its versions are such as a checkpoint tells: no part of an object is later than the object, and no object is later
/// than the view or its base.
pub struct View<K> {
    played: Played<K>,
}

// By hand, since a derived drop is proved anew wherever a value is dropped.
impl<K: Drop> Drop for View<K> {
    fn drop(self) {
        let View { played: _ } = self;
    }
}

impl<K> Model for View<K> {
    ghost use Rattle.tg_play.specs.Kept.{Kept};
    ghost use Rattle.tg_play.specs.Lawful.{IsLawfulView};

    ghost Value = { Kept K };

    ghost view = { λ v. v.played };

    ghost invariant = { λ v. IsLawfulView v.played };
}

impl<K: Registry> View<K> {
    /// A view that has played nothing. Of several bases of one object the first one counts. No base has a part that is
    /// later than its object, nor an object that is later than its `upto`.
    ///
    /// An `Err` is want of memory.
    pub fn start(alloc: Global, bases: List<Base<K>>) -> Result<View<K>, NoMemory>
        requires { AreLawfulBases bases }
        ensures { (bs : List (told.Base (meaning_of K.Registry))) → KeepsBases (meaning_of K.Registry) bases bs → IfOk result (λ r. KeepsView (meaning_of K.Registry) r (told.view_start (meaning_of K.Registry) bs)) }
    {
        let objects = hosts_of(alloc, bases)?;
        let fates = BTreeMap::new(alloc);
        let open_records = BTreeSet::new(alloc);
        let played = Played {
            objects,
            upto: 0,
            fates,
            open_records,
        };
        Ok(View { played })
    }

    /// Entries below it are played; 0 at first. It takes no memory.
    pub fn upto(&self) -> Pos
        ensures { (v : told.View (meaning_of K.Registry)) → KeepsView (meaning_of K.Registry) self.now v → result ≡ v.upto }
    {
        self.end()
    }

    /// Whether the object is hosted. It takes no memory.
    pub fn hosts(&self, oid: Oid) -> bool
        ensures { (v : told.View (meaning_of K.Registry)) → KeepsView (meaning_of K.Registry) self.now v → result ≡ told.hosts (meaning_of K.Registry) v oid }
    {
        match self.hosted(oid) {
            None => false,
            Some(_) => true,
        }
    }

    /// The object's state as played; None where it isn't hosted. It takes no memory.
    pub fn state(&self, oid: Oid) -> Option<&K>
        ensures { (v : told.View (meaning_of K.Registry)) → KeepsView (meaning_of K.Registry) self.now v → option_copied result ≡ told.state_of (meaning_of K.Registry) v oid }
    {
        match self.hosted(oid) {
            None => None,
            Some(hosted) => Some(&hosted.state),
        }
    }

    /// The version of a part as played; 0 where the object isn't hosted. It takes no memory.
    pub fn version(&self, oid: Oid, part: &Part) -> u64
        ensures told { (v : told.View (meaning_of K.Registry)) → KeepsView (meaning_of K.Registry) self.now v → result ≡ told.view_version (meaning_of K.Registry) v oid part.now }
        ensures kept { result ≡ version_at_end self.now oid part.now }
    {
        match self.versioned(oid) {
            None => 0,
            Some(hosted) => hosted.version(oid, part),
        }
    }

    /// The least object of which a part is read whose version at a position isn't known: it isn't hosted, or its
    /// base is past the position with a later version of that part. It takes no memory.
    pub fn unknown(&self, reads: &[ReadMark], pos: Pos) -> Option<Oid>
        ensures { (v : told.View (meaning_of K.Registry)) → KeepsView (meaning_of K.Registry) self.now v → result ≡ told.unknown_in (meaning_of K.Registry) v reads.now pos }
    {
        self.played.unknown(reads, pos)
    }

    /// The version that was noted last with an object's whole, and rising by part the parts with a later version.
    /// An object that isn't hosted has none. They are what a checkpoint of the object may tell.
    ///
    /// An `Err` is want of memory; the view is as it was.
    pub fn parts(&self, alloc: Global, oid: Oid) -> Result<(u64, List<(Part, u64)>), NoMemory>
        ensures whole { (v : told.View (meaning_of K.Registry)) → KeepsView (meaning_of K.Registry) self.now v → IfOk result (λ p. p.0 ≡ (told.view_parts (meaning_of K.Registry) v oid).whole) }
        ensures keys { (v : told.View (meaning_of K.Registry)) → KeepsView (meaning_of K.Registry) self.now v → IfOk result (λ p. p.1 ≡ (told.view_parts (meaning_of K.Registry) v oid).keys) }
        ensures lawful { IfOk result (λ p. AreKeys (version_at_end self.now oid All) p.0 p.1) }
    {
        match self.versioned(oid) {
            None => Ok((0, List::new(alloc))),
            Some(hosted) => hosted.parts(alloc, oid),
        }
    }

    /// Whether the commit record at a position is committed; None where no play told it. It takes no memory.
    pub fn fate(&self, pos: Pos) -> Option<bool>
        ensures { (v : told.View (meaning_of K.Registry)) → KeepsView (meaning_of K.Registry) self.now v → result ≡ told.fate_of (meaning_of K.Registry) v pos }
    {
        self.told_fate(pos)
    }

    fn told_fate(&self, pos: Pos) -> Option<bool>
        ensures { result ≡ at_position self.now.fates pos }
    {
        decision_at(&self.played.fates, pos)
    }

    /// What becomes of the commit record at a position by the entries: as the first decision record for it says, if
    /// there is one, else as the versions of its reads say. It takes no memory.
    pub fn verdict(&self, entries: &Entries, pos: Pos, entry: &Entry) -> Verdict
        ensures { (v : told.View (meaning_of K.Registry)) → KeepsView (meaning_of K.Registry) self.now v → told_verdict result ≡ told.verdict (meaning_of K.Registry) v entries.now pos entry.now }
    {
        let decision = decision_among(entries.as_slice(), pos);
        self.played.verdict(decision, reads_of(entry), pos)
    }

    /// What becomes of the commit record at a position: as the view's fate says, where a play told it, else as the
    /// first decision record for it among the entries says, if there is one, else as the versions of its reads say.
    /// It takes no memory.
    pub fn outcome(&self, entries: &Entries, pos: Pos, entry: &Entry) -> Verdict
        ensures { (v : told.View (meaning_of K.Registry)) → KeepsView (meaning_of K.Registry) self.now v → told_verdict result ≡ told.view_outcome (meaning_of K.Registry) v entries.now pos entry.now }
    {
        let said = self.said(entries, pos);
        self.played.verdict(said, reads_of(entry), pos)
    }

    // What a play told of the record at a position, or else the first decision record for it.
    fn said(&self, entries: &Entries, pos: Pos) -> Option<bool>
        ensures { result ≡ or_else (at_position self.now.fates pos) (decision_in entries.now pos) }
    {
        match self.told_fate(pos) {
            Some(yes) => Some(yes),
            None => decision_among(entries.as_slice(), pos),
        }
    }

    /// The index, from 0, of the first read that has another version at a position, with that version. Of an object
    /// whose base is past the position the base's versions count. It takes no memory.
    pub fn changed(&self, reads: &[ReadMark], pos: Pos) -> Option<(usize, u64)>
        ensures { (v : told.View (meaning_of K.Registry)) → KeepsView (meaning_of K.Registry) self.now v → changed_of reads.now result ≡ told.changed_in (meaning_of K.Registry) v reads.now pos }
    {
        self.played.changed(reads, pos)
    }

    /// Rising, the positions of the played commit records that need a decision record and had none among the
    /// entries. An `Err` is want of memory; the view is as it was.
    pub fn missing_decisions(&self, alloc: Global) -> Result<List<Pos>, NoMemory>
        ensures { (v : told.View (meaning_of K.Registry)) → KeepsView (meaning_of K.Registry) self.now v → IfOk result (λ l. l ≡ rising_positions v.open_records) }
    {
        let list = self.listed(alloc)?;
        Ok(list)
    }

    // The open records, rising.
    fn listed(&self, alloc: Global) -> Result<List<Pos>, NoMemory>
        ensures { IfOk result (λ l. l ≡ self.now.open_records) }
    {
        copied(alloc, &self.played.open_records)
    }

    /// Plays the entries from the view's `upto` on and below the target; decision records are taken from all
    /// entries. A target below `upto` leaves the view as it is. The time is that of the entries that are given:
    /// nothing that was played before is looked at.
    ///
    /// An `Err` is want of memory; the view is given up then.
    pub fn play(
        self,
        alloc: Global,
        entries: &Entries,
        upto: Pos,
    ) -> Result<(View<K>, PlayEnd), NoMemory>
        ensures view { (v : told.View (meaning_of K.Registry)) → KeepsView (meaning_of K.Registry) self v → IfOk result (λ r. KeepsView (meaning_of K.Registry) r.0 (told.play (meaning_of K.Registry) v entries.now upto).view) }
        ensures came { (v : told.View (meaning_of K.Registry)) → KeepsView (meaning_of K.Registry) self v → IfOk result (λ r. r.1 ≡ (told.play (meaning_of K.Registry) v entries.now upto).came) }
    {
        let from = self.end();
        if upto < from {
            return Ok((self, PlayEnd::Played { upto: from }));
        }
        let entries = entries.as_slice();
        let decisions = decisions_of(alloc, entries)?;
        let View { mut played } = self;
        let came = played.play_on(alloc, &decisions, entries, from, upto)?;
        Ok((View { played }, came))
    }

    // The object, if it is hosted.
    fn hosted(&self, oid: Oid) -> Option<&Hosted<K>>
        ensures { option_copied result ≡ hosted_of self.now.objects oid }
    {
        found(&self.played.objects, oid)
    }

    // The object, if it is hosted, with versions that a checkpoint may tell.
    fn versioned(&self, oid: Oid) -> Option<&Hosted<K>>
        ensures found { option_copied result ≡ hosted_of self.now.objects oid }
        ensures lawful { IsLawfulView self.now }
    {
        found(&self.played.objects, oid)
    }

    // Where the play goes on.
    fn end(&self) -> Pos
        ensures { result ≡ self.now.upto }
    {
        self.played.upto
    }
}

// The reads of a commit record; no other entry has any.
fn reads_of(entry: &Entry) -> &[ReadMark]
    ensures { result.now ≡ told_reads entry.now }
{
    match &entry.body {
        Body::Commit { reads, .. } => reads.as_slice(),
        Body::Decision { .. } => &[],
        Body::Checkpoint { .. } => &[],
    }
}

// The positions of a set, rising.
fn copied(alloc: Global, positions: &BTreeSet<Pos>) -> Result<List<Pos>, NoMemory>
    ensures { IfOk result (λ l. l ≡ positions.now.keys) }
{
    let mut list = List::new(alloc);
    for pos in positions {
        list.push(*pos)?;
    }
    Ok(list)
}
