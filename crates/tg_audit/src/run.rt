//! What is judged, and the answers in it.

ghost use Rattle.std.specs.Prelude.{◌≡◌, ◌<◌, ◌≤◌, true, length, get_or, filter, take, IfOk, Some};
ghost use Rattle.std.specs.List.{list_all};
ghost use Rattle.tg_kind.specs.Of.{meaning_of};
ghost use Rattle.std.specs.BTreeMap.{get};
ghost use Rattle.std.specs.Ordering.{nat_cmp};
ghost use Rattle.tg_model.specs.Stores.{changed, has_stamp};
ghost use Rattle.tg_audit.specs.Judging as of;
ghost use Rattle.tg_audit.specs.Runs as runs;

use crate::asks::is_of;
use crate::index::{key, split};
use crate::judged::Judged;
use crate::parts::{entries_of, marks_of, stamped_at};
use crate::states::state_before;
use crate::tables::Tables;
use crate::versions::{changed, changed_below};
use std::alloc::Global;
use std::collections::BTreeMap;
use tg_base::{NoMemory, Oid, Part, Pos};
use tg_kind::Kind;
use tg_model::{DoneOf, MarkOf, What};

/// The objects of the header, the committed transactions, the replies and their points.
#[derive(Drop)]
pub struct Run<'a, K: Kind> {
    pub objects: &'a [Oid],
    pub history: &'a [DoneOf<K>],
    pub trace: &'a [MarkOf<K>],
    pub tables: &'a Tables,
}

// Whether a table has a position of the answer at a place.
fn is_known(right: &BTreeMap<u64, Pos>, place: usize, before: Pos) -> bool
    ensures { result ≡ true → get nat_cmp right.now place ≡ Some before }
{
    match right.get(&(place as u64)) {
        Some(at) => *at == before,
        None => false,
    }
}

impl<'a, K: Judged> Run<'a, K> {
    /// The replies of the trace up to a place, from the first to the last one of a transaction.
    pub fn marks(&self, client: u16, tx: u32, most: usize) -> &[MarkOf<K>]
        requires run { runs.IsRun (meaning_of K.Registry) K.same_answers self.now.objects.now self.now.history.now self.now.trace.now self.now.tables.now }
        requires most { most ≤ length self.now.trace.now }
        ensures { filter (of.is_of (meaning_of K.Registry) client tx) result.now ≡ filter (of.is_of (meaning_of K.Registry) client tx) (take most self.now.trace.now) }
    {
        marks_of::<K>(self.trace, &self.tables.marks, client, tx, most)
    }

    // From the first reply of a transaction to one past its last.
    fn window(&self, client: u16, tx: u32) -> (usize, usize)
        requires { runs.IsRun (meaning_of K.Registry) K.same_answers self.now.objects.now self.now.history.now self.now.trace.now self.now.tables.now }
        ensures { runs.Covers (meaning_of K.Registry) self.now.trace.now client tx result }
    {
        self.tables.marks.window(key(client, tx))
    }

    /// The entries of the history up to a place, from the first to the last one of a transaction.
    pub fn entries(&self, client: u16, tx: u32, most: usize) -> &[DoneOf<K>]
        requires run { runs.IsRun (meaning_of K.Registry) K.same_answers self.now.objects.now self.now.history.now self.now.trace.now self.now.tables.now }
        requires most { most ≤ length self.now.history.now }
        ensures { filter (of.entry_of (meaning_of K.Registry) client tx) result.now ≡ filter (of.entry_of (meaning_of K.Registry) client tx) (take most self.now.history.now) }
    {
        entries_of::<K>(self.history, &self.tables.entries, client, tx, most)
    }

    /// The entries of the history with a stamp, and those between.
    pub fn stamped(&self, stamp: Pos) -> &[DoneOf<K>]
        requires { runs.IsRun (meaning_of K.Registry) K.same_answers self.now.objects.now self.now.history.now self.now.trace.now self.now.tables.now }
        ensures { filter (has_stamp (meaning_of K.Registry) stamp) result.now ≡ filter (has_stamp (meaning_of K.Registry) stamp) self.now.history.now }
    {
        stamped_at::<K>(self.history, &self.tables.stamped, stamp)
    }

    /// Whether an answer is the plain machine's before a position. An `Err` is want of memory.
    pub fn holds(
        &self,
        alloc: Global,
        before: Pos,
        oid: Oid,
        ask: &K::Ask,
        ans: &K::Ans,
    ) -> Result<bool, NoMemory>
        requires { runs.IsRun (meaning_of K.Registry) K.same_answers self.now.objects.now self.now.history.now self.now.trace.now self.now.tables.now }
        ensures { IfOk result (λ b. b ≡ of.holds (meaning_of K.Registry) K.same_answers self.now.objects.now self.now.history.now before oid ask.now ans.now) }
    {
        let state: K = state_before(alloc, self.objects, self.history, before, oid)?;
        let answer = state.ask(alloc, ask)?;
        Ok(K::is_same_answer(ans, &answer))
    }

    /// Whether the answer at a place is the plain machine's at a position. An `Err` is want of memory.
    pub fn holds_here(
        &self,
        alloc: Global,
        place: usize,
        before: Pos,
        oid: Oid,
        ask: &K::Ask,
        ans: &K::Ans,
    ) -> Result<bool, NoMemory>
        requires run { runs.IsRun (meaning_of K.Registry) K.same_answers self.now.objects.now self.now.history.now self.now.trace.now self.now.tables.now }
        requires here { runs.IsAskedAt (meaning_of K.Registry) self.now.trace.now place oid ask.now ans.now }
        ensures { IfOk result (λ b. b ≡ of.holds (meaning_of K.Registry) K.same_answers self.now.objects.now self.now.history.now before oid ask.now ans.now) }
    {
        if is_known(&self.tables.asked, place, before) {
            return Ok(true);
        }
        if is_known(&self.tables.ended, place, before) {
            return Ok(true);
        }
        self.holds(alloc, before, oid, ask, ans)
    }

    // Whether the reply's answer, if it is one, holds at a position that isn't below its snapshot.
    fn still_holds(
        &self,
        alloc: Global,
        place: usize,
        mark: &MarkOf<K>,
        at: Pos,
    ) -> Result<bool, NoMemory>
        requires run { runs.IsRun (meaning_of K.Registry) K.same_answers self.now.objects.now self.now.history.now self.now.trace.now self.now.tables.now }
        requires place { place < length self.now.trace.now }
        requires here { mark.now ≡ get_or self.now.trace.now place mark.now }
        ensures { IfOk result (λ b. b ≡ of.asked_all (meaning_of K.Registry) (of.holds_still (meaning_of K.Registry) K.same_answers self.now.objects.now self.now.history.now at) mark.now.what) }
    {
        let What::Asked {
            oid,
            ask,
            at: snapshot,
            ans,
        } = &mark.what
        else {
            return Ok(true);
        };
        if *snapshot > at {
            return Ok(false);
        }
        self.holds_here(alloc, place, at, *oid, ask, ans)
    }

    // The same of a reply of a transaction. Others pass.
    fn passes(
        &self,
        alloc: Global,
        place: usize,
        mark: &MarkOf<K>,
        client: u16,
        tx: u32,
        at: Pos,
    ) -> Result<bool, NoMemory>
        requires run { runs.IsRun (meaning_of K.Registry) K.same_answers self.now.objects.now self.now.history.now self.now.trace.now self.now.tables.now }
        requires place { place < length self.now.trace.now }
        requires here { mark.now ≡ get_or self.now.trace.now place mark.now }
        ensures { IfOk result (λ b. b ≡ of.passes (meaning_of K.Registry) client tx (of.holds_still (meaning_of K.Registry) K.same_answers self.now.objects.now self.now.history.now at) mark.now) }
    {
        if !is_of::<K>(mark, client, tx) {
            return Ok(true);
        }
        self.still_holds(alloc, place, mark, at)
    }

    /// Whether each answer of a transaction holds at a position that isn't below its snapshot. An `Err` is want of memory.
    pub fn all_hold(&self, alloc: Global, client: u16, tx: u32, at: Pos) -> Result<bool, NoMemory>
        requires { runs.IsRun (meaning_of K.Registry) K.same_answers self.now.objects.now self.now.history.now self.now.trace.now self.now.tables.now }
        ensures { IfOk result (λ b. b ≡ list_all (of.passes (meaning_of K.Registry) client tx (of.holds_still (meaning_of K.Registry) K.same_answers self.now.objects.now self.now.history.now at)) self.now.trace.now) }
    {
        let trace = self.trace;
        let window = self.window(client, tx);
        for place in window.0..window.1 {
            if !self.passes(alloc, place, &trace[place], client, tx, at)? {
                return Ok(false);
            }
        }
        Ok(true)
    }

    /// The version of a part of an object before a position.
    pub fn changed(&self, oid: Oid, part: &Part, before: Pos) -> u128
        requires { runs.IsRun (meaning_of K.Registry) K.same_answers self.now.objects.now self.now.history.now self.now.trace.now self.now.tables.now }
        ensures { result ≡ changed (meaning_of K.Registry) self.now.history.now oid part.now before }
    {
        if !self.tables.rise {
            return changed::<K>(self.history, oid, part, before);
        }
        match split(self.tables.stamps.as_slice(), before) {
            Some(most) => changed_below::<K>(self.history, oid, part, most, before),
            None => changed::<K>(self.history, oid, part, before),
        }
    }
}
