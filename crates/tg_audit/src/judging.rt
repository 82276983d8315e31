//! The judge's tests, and the verdict.

ghost use Rattle.std.specs.Prelude.{◌≡◌, ◌+◌, ◌^◌, ◌<◌, ◌≤◌, nat_le, true, length, get_or, take, IfOk, IfSome};
ghost use Rattle.std.specs.List.{list_any};
ghost use Rattle.tg_kind.specs.Of.{meaning_of};
ghost use Rattle.tg_kind.specs.Headers.{is_header};
ghost use Rattle.tg_audit.specs.Judging as of;
ghost use Rattle.tg_audit.specs.Runs as runs;
ghost use Rattle.tg_audit.specs.Ruling as rule;
ghost use Rattle.tg_audit.specs.Told.{verdict_of};
ghost use Rattle.tg_base.specs.declared.fault.Clause.TheVariants as clause;
ghost use Rattle.tg_audit.specs.declared.verdict.Verdict.TheVariants.{Illegal};

use crate::asks::is_of;
use crate::index::key;
use crate::judged::Judged;
use crate::run::Run;
use crate::tables::tables_of;
use crate::verdict::Verdict;
use crate::versions::looks_at;
use std::alloc::Global;
use tg_base::{Clause, NoMemory, Oid, Part, Pos};
use tg_model::{DoneOf, MarkOf, Refusal, What};

// The clause, where its test fails.
fn failed(clause: Clause, right: bool) -> Option<Clause>
    ensures { result ≡ of.failed clause right }
{
    if right { None } else { Some(clause) }
}

impl<'a, K: Judged> Run<'a, K> {
    // The greatest point of a reply before the transaction's last begin.
    #[tactic(auto, unfolding(crate::specs::Ruling::reach_before))]
    fn bound(&self, client: u16, tx: u32) -> u128
        requires { runs.IsRun (meaning_of K.Registry) K.same_answers self.now.objects.now self.now.history.now self.now.trace.now self.now.tables.now }
        ensures { result ≡ rule.reach_before (meaning_of K.Registry) K.same_ops K.same_answers self.now.objects.now self.now.history.now self.now.trace.now client tx }
    {
        match self.tables.bounds.get(&key(client, tx)) {
            Some(bound) => *bound,
            None => 0,
        }
    }

    // Whether a place isn't below the transaction's bound.
    fn is_bounded(&self, client: u16, tx: u32, at: Pos) -> bool
        requires { runs.IsRun (meaning_of K.Registry) K.same_answers self.now.objects.now self.now.history.now self.now.trace.now self.now.tables.now }
        ensures { result ≡ nat_le (rule.reach_before (meaning_of K.Registry) K.same_ops K.same_answers self.now.objects.now self.now.history.now self.now.trace.now client tx) at }
    {
        self.bound(client, tx) <= u128::from(at)
    }

    // Whether an answer is that at its snapshot, which is that of the transaction's earlier ones.
    fn is_right_answer(
        &self,
        alloc: Global,
        place: usize,
        client: u16,
        tx: u32,
        oid: Oid,
        ask: &K::Ask,
        at: Pos,
        ans: &K::Ans,
    ) -> Result<bool, NoMemory>
        requires run { runs.IsRun (meaning_of K.Registry) K.same_answers self.now.objects.now self.now.history.now self.now.trace.now self.now.tables.now }
        requires here { runs.IsAskedAt (meaning_of K.Registry) self.now.trace.now place oid ask.now ans.now }
        ensures { IfOk result (λ b. b ≡ rule.right_answer (meaning_of K.Registry) K.same_ops K.same_answers self.now.objects.now self.now.history.now self.now.trace.now (take place self.now.trace.now) client tx oid ask.now at ans.now) }
    {
        if !self.asked_before(place, client, tx, at) {
            return Ok(false);
        }
        self.holds_here(alloc, place, at, oid, ask, ans)
    }

    // Whether a committed transaction that wrote is in the history with its writes, and its answers hold there.
    fn is_right_write(&self, alloc: Global, client: u16, tx: u32, at: Pos) -> Result<bool, NoMemory>
        requires { runs.IsRun (meaning_of K.Registry) K.same_answers self.now.objects.now self.now.history.now self.now.trace.now self.now.tables.now }
        ensures { IfOk result (λ b. b ≡ rule.right_write (meaning_of K.Registry) K.same_ops K.same_answers self.now.objects.now self.now.history.now self.now.trace.now client tx at) }
    {
        if !self.committed(client, tx, at) {
            return Ok(false);
        }
        self.all_hold(alloc, client, tx, at)
    }

    // Whether a committed transaction that wrote nothing is at its snapshot, or at 0 where it asked nothing.
    fn is_right_read(&self, client: u16, tx: u32, at: Pos) -> bool
        requires { runs.IsRun (meaning_of K.Registry) K.same_answers self.now.objects.now self.now.history.now self.now.trace.now self.now.tables.now }
        ensures { result ≡ rule.right_read (meaning_of K.Registry) K.same_ops K.same_answers self.now.objects.now self.now.history.now self.now.trace.now client tx at }
    {
        self.asked_at(client, tx, at) && (self.asked(client, tx) || at == 0)
    }

    #[tactic(auto, unfolding(crate::specs::Ruling::right_commit))]
    fn is_right_commit(
        &self,
        alloc: Global,
        client: u16,
        tx: u32,
        at: Pos,
    ) -> Result<bool, NoMemory>
        requires { runs.IsRun (meaning_of K.Registry) K.same_answers self.now.objects.now self.now.history.now self.now.trace.now self.now.tables.now }
        ensures { IfOk result (λ b. b ≡ rule.right_commit (meaning_of K.Registry) K.same_ops K.same_answers self.now.objects.now self.now.history.now self.now.trace.now client tx at) }
    {
        if self.wrote(client, tx) {
            self.is_right_write(alloc, client, tx, at)
        } else {
            Ok(self.is_right_read(client, tx, at))
        }
    }

    // Whether an ask at a snapshot looked at a part that had the one version there and has the other at a place.
    fn explains(
        &self,
        ask: &K::Ask,
        snapshot: Pos,
        at: Pos,
        oid: Oid,
        part: &Part,
        seen: u64,
        now: u64,
    ) -> bool
        requires { runs.IsRun (meaning_of K.Registry) K.same_answers self.now.objects.now self.now.history.now self.now.trace.now self.now.tables.now }
        ensures { result ≡ rule.explains_part (meaning_of K.Registry) K.same_ops K.same_answers self.now.objects.now self.now.history.now self.now.trace.now at oid part.now seen now ask.now snapshot }
    {
        looks_at::<K>(ask, part)
            && self.caused(oid, part, now, snapshot, at)
            && u128::from(seen) == self.changed(oid, part, snapshot)
            && u128::from(now) == self.changed(oid, part, at)
    }

    // The same of a reply, if it answers an ask of the transaction about the object.
    fn is_explained(
        &self,
        mark: &MarkOf<K>,
        client: u16,
        tx: u32,
        place: Pos,
        object: Oid,
        part: &Part,
        seen: u64,
        now: u64,
    ) -> bool
        requires { runs.IsRun (meaning_of K.Registry) K.same_answers self.now.objects.now self.now.history.now self.now.trace.now self.now.tables.now }
        ensures { result ≡ of.meets (meaning_of K.Registry) client tx (rule.explains (meaning_of K.Registry) K.same_ops K.same_answers self.now.objects.now self.now.history.now self.now.trace.now place object part.now seen now) mark.now }
    {
        if !is_of::<K>(mark, client, tx) {
            return false;
        }
        match &mark.what {
            What::Asked { oid, ask, at, .. } => {
                oid.0 == object.0 && self.explains(ask, *at, place, object, part, seen, now)
            }
            _ => false,
        }
    }

    // Whether one of the transaction's asks looked at what was changed.
    fn has_reason(
        &self,
        client: u16,
        tx: u32,
        at: Pos,
        oid: Oid,
        part: &Part,
        seen: u64,
        now: u64,
    ) -> bool
        requires { runs.IsRun (meaning_of K.Registry) K.same_answers self.now.objects.now self.now.history.now self.now.trace.now self.now.tables.now }
        ensures { result ≡ list_any (of.meets (meaning_of K.Registry) client tx (rule.explains (meaning_of K.Registry) K.same_ops K.same_answers self.now.objects.now self.now.history.now self.now.trace.now at oid part.now seen now)) self.now.trace.now }
    {
        let marks = self.marks(client, tx, self.trace.len());
        for mark in marks {
            if self.is_explained(mark, client, tx, at, oid, part, seen, now) {
                return true;
            }
        }
        false
    }

    // Whether an aborted transaction isn't in the history, and one of its asks looked at what was changed.
    #[tactic(auto, unfolding(crate::specs::Ruling::right_abort))]
    fn is_right_abort(
        &self,
        client: u16,
        tx: u32,
        at: Pos,
        oid: Oid,
        part: &Part,
        seen: u64,
        now: u64,
    ) -> bool
        requires { runs.IsRun (meaning_of K.Registry) K.same_answers self.now.objects.now self.now.history.now self.now.trace.now self.now.tables.now }
        ensures { result ≡ rule.right_abort (meaning_of K.Registry) K.same_ops K.same_answers self.now.objects.now self.now.history.now self.now.trace.now client tx at oid part.now seen now }
    {
        if self.entered(client, tx) {
            return false;
        }
        self.has_reason(client, tx, at, oid, part, seen, now)
    }

    fn is_right_fate(&self, at: Pos, fate: Option<bool>) -> bool
        requires { runs.IsRun (meaning_of K.Registry) K.same_answers self.now.objects.now self.now.history.now self.now.trace.now self.now.tables.now }
        ensures { result ≡ rule.right_fate (meaning_of K.Registry) K.same_ops K.same_answers self.now.objects.now self.now.history.now self.now.trace.now at fate }
    {
        match fate {
            None => true,
            Some(true) => self.stamps(at),
            Some(false) => !self.stamps(at),
        }
    }

    // The clause that fails at an answer.
    #[tactic(auto, unfolding(crate::specs::Ruling::answer_fault))]
    fn asked_fault(
        &self,
        alloc: Global,
        place: usize,
        client: u16,
        tx: u32,
        oid: Oid,
        ask: &K::Ask,
        at: Pos,
        ans: &K::Ans,
    ) -> Result<Option<Clause>, NoMemory>
        requires run { runs.IsRun (meaning_of K.Registry) K.same_answers self.now.objects.now self.now.history.now self.now.trace.now self.now.tables.now }
        requires here { runs.IsAskedAt (meaning_of K.Registry) self.now.trace.now place oid ask.now ans.now }
        ensures { IfOk result (λ f. f ≡ rule.answer_fault (meaning_of K.Registry) K.same_ops K.same_answers self.now.objects.now self.now.history.now self.now.trace.now (take place self.now.trace.now) client tx oid ask.now at ans.now) }
    {
        if !self.is_right_answer(alloc, place, client, tx, oid, ask, at, ans)? {
            return Ok(Some(Clause::A));
        }
        Ok(failed(Clause::E, self.is_bounded(client, tx, at)))
    }

    fn commit_fault(
        &self,
        alloc: Global,
        client: u16,
        tx: u32,
        at: Pos,
    ) -> Result<Option<Clause>, NoMemory>
        requires { runs.IsRun (meaning_of K.Registry) K.same_answers self.now.objects.now self.now.history.now self.now.trace.now self.now.tables.now }
        ensures { IfOk result (λ f. f ≡ of.failed clause.B (rule.right_commit (meaning_of K.Registry) K.same_ops K.same_answers self.now.objects.now self.now.history.now self.now.trace.now client tx at)) }
    {
        let right = self.is_right_commit(alloc, client, tx, at)?;
        Ok(failed(Clause::B, right))
    }

    // The clause that fails where a command was refused.
    fn refused_fault(&self, client: u16, tx: u32, why: Refusal) -> Option<Clause>
        requires { runs.IsRun (meaning_of K.Registry) K.same_answers self.now.objects.now self.now.history.now self.now.trace.now self.now.tables.now }
        ensures { result ≡ rule.refused_fault (meaning_of K.Registry) K.same_ops K.same_answers self.now.objects.now self.now.history.now self.now.trace.now client tx why }
    {
        match why {
            Refusal::Forgotten { at, .. } => { failed(Clause::D, self.entered_at(client, tx, at)) }
            _ => None,
        }
    }

    // The clause that fails at a reply of a transaction.
    #[tactic(auto, unfolding(crate::specs::Ruling::transaction_fault))]
    fn transaction_fault(
        &self,
        alloc: Global,
        place: usize,
        mark: &MarkOf<K>,
    ) -> Result<Option<Clause>, NoMemory>
        requires run { runs.IsRun (meaning_of K.Registry) K.same_answers self.now.objects.now self.now.history.now self.now.trace.now self.now.tables.now }
        requires place { place < length self.now.trace.now }
        requires here { mark.now ≡ get_or self.now.trace.now place mark.now }
        ensures { IfOk result (λ f. f ≡ rule.transaction_fault (meaning_of K.Registry) K.same_ops K.same_answers self.now.objects.now self.now.history.now self.now.trace.now (take place self.now.trace.now) mark.now.client mark.now.tx mark.now.what) }
    {
        let client = mark.client;
        let tx = mark.tx;
        match &mark.what {
            What::Asked { oid, ask, at, ans } => {
                self.asked_fault(alloc, place, client, tx, *oid, ask, *at, ans)
            }
            What::Committed { at } => self.commit_fault(alloc, client, tx, *at),
            What::Aborted {
                at,
                oid,
                part,
                seen,
                now,
            } => {
                let right = self.is_right_abort(client, tx, *at, *oid, part, *seen, *now);
                Ok(failed(Clause::C, right))
            }
            What::Unsure { at, .. } => {
                let right = self.entered_at(client, tx, *at);
                Ok(failed(Clause::D, right))
            }
            What::Refused { why } => Ok(self.refused_fault(client, tx, *why)),
            What::Dropped => {
                let right = !self.entered(client, tx);
                Ok(failed(Clause::D, right))
            }
            _ => Ok(None),
        }
    }

    // The clause that fails at a reply.
    #[tactic(auto, unfolding(crate::specs::Ruling::mark_fault))]
    fn mark_fault(
        &self,
        alloc: Global,
        place: usize,
        mark: &MarkOf<K>,
    ) -> Result<Option<Clause>, NoMemory>
        requires run { runs.IsRun (meaning_of K.Registry) K.same_answers self.now.objects.now self.now.history.now self.now.trace.now self.now.tables.now }
        requires place { place < length self.now.trace.now }
        requires here { mark.now ≡ get_or self.now.trace.now place mark.now }
        ensures { IfOk result (λ f. f ≡ rule.mark_fault (meaning_of K.Registry) K.same_ops K.same_answers self.now.objects.now self.now.history.now self.now.trace.now (take place self.now.trace.now) mark.now) }
    {
        match &mark.what {
            What::Fate { at, yes } => Ok(failed(Clause::D, self.is_right_fate(*at, *yes))),
            What::Decided { at, yes } => Ok(failed(Clause::D, self.is_right_fate(*at, *yes))),
            _ => {
                if mark.tx == 0 {
                    return Ok(None);
                }
                self.transaction_fault(alloc, place, mark)
            }
        }
    }

    // Whether an entry is that of an ended transaction with its writes, the first one, and its answers hold there.
    fn is_right_entry(
        &self,
        alloc: Global,
        place: usize,
        done: &DoneOf<K>,
    ) -> Result<bool, NoMemory>
        requires run { runs.IsRun (meaning_of K.Registry) K.same_answers self.now.objects.now self.now.history.now self.now.trace.now self.now.tables.now }
        requires place { place < length self.now.history.now }
        ensures { IfOk result (λ b. b ≡ rule.right_entry (meaning_of K.Registry) K.same_ops K.same_answers self.now.objects.now self.now.history.now self.now.trace.now (take place self.now.history.now) done.now) }
    {
        let client = done.client;
        let tx = done.number;
        if tx == 0 || !self.ended(client, tx) {
            return Ok(false);
        }
        if !self.put(done.writes.as_slice(), client, tx) {
            return Ok(false);
        }
        if self.entered_before(place, client, tx) {
            return Ok(false);
        }
        self.all_hold(alloc, client, tx, done.stamp)
    }

    // The clause that fails at an entry.
    #[tactic(auto, unfolding(crate::specs::Ruling::done_fault))]
    fn done_fault(
        &self,
        alloc: Global,
        place: usize,
        done: &DoneOf<K>,
    ) -> Result<Option<Clause>, NoMemory>
        requires run { runs.IsRun (meaning_of K.Registry) K.same_answers self.now.objects.now self.now.history.now self.now.trace.now self.now.tables.now }
        requires place { place < length self.now.history.now }
        ensures { IfOk result (λ f. f ≡ rule.done_fault (meaning_of K.Registry) K.same_ops K.same_answers self.now.objects.now self.now.history.now self.now.trace.now (take place self.now.history.now) done.now) }
    {
        if !self.is_right_entry(alloc, place, done)? {
            return Ok(Some(Clause::D));
        }
        Ok(failed(
            Clause::E,
            self.is_bounded(done.client, done.number, done.stamp),
        ))
    }

    // The first reply at which a clause fails.
    fn in_trace(&self, alloc: Global) -> Result<Option<(usize, Clause)>, NoMemory>
        requires { runs.IsRun (meaning_of K.Registry) K.same_answers self.now.objects.now self.now.history.now self.now.trace.now self.now.tables.now }
        ensures within { IfOk result (λ f. IfSome f (λ p. p.0 < length self.now.trace.now)) }
        ensures first { IfOk result (λ f. f ≡ rule.in_trace (meaning_of K.Registry) K.same_ops K.same_answers self.now.objects.now self.now.history.now self.now.trace.now) }
    {
        let trace = self.trace;
        for place in 0..trace.len() {
            if let Some(clause) = self.mark_fault(alloc, place, &trace[place])? {
                return Ok(Some((place, clause)));
            }
        }
        Ok(None)
    }

    // The first entry at which a clause fails.
    fn in_history(&self, alloc: Global) -> Result<Option<(usize, Clause)>, NoMemory>
        requires { runs.IsRun (meaning_of K.Registry) K.same_answers self.now.objects.now self.now.history.now self.now.trace.now self.now.tables.now }
        ensures within { IfOk result (λ f. IfSome f (λ p. p.0 < length self.now.history.now)) }
        ensures first { IfOk result (λ f. f ≡ rule.in_history (meaning_of K.Registry) K.same_ops K.same_answers self.now.objects.now self.now.history.now self.now.trace.now) }
    {
        let history = self.history;
        for place in 0..history.len() {
            if let Some(clause) = self.done_fault(alloc, place, &history[place])? {
                return Ok(Some((place, clause)));
            }
        }
        Ok(None)
    }
}

// The verdict that names an item's line, where the first item has this one.
fn illegal(first: u64, place: usize, clause: Clause) -> Verdict
    requires { first + place < 2 ^ 64 }
    ensures { result ≡ Illegal (first + place) clause }
{
    let line = first + place as u64;
    Verdict::Illegal { line, clause }
}

impl<'a, K: Judged> Run<'a, K> {
    // The verdict where no clause fails at a reply.
    fn past_trace(&self, alloc: Global) -> Result<Verdict, NoMemory>
        requires run { runs.IsRun (meaning_of K.Registry) K.same_answers self.now.objects.now self.now.history.now self.now.trace.now self.now.tables.now }
        requires room { length self.now.trace.now + length self.now.history.now + 3 < 2 ^ 64 }
        ensures { IfOk result (λ v. v ≡ rule.past_trace (meaning_of K.Registry) K.same_ops K.same_answers self.now.objects.now self.now.history.now self.now.trace.now) }
    {
        let Some((place, clause)) = self.in_history(alloc)? else {
            return Ok(Verdict::Legal);
        };
        Ok(illegal(self.trace.len() as u64 + 3, place, clause))
    }

    fn verdict(&self, alloc: Global) -> Result<Verdict, NoMemory>
        requires run { runs.IsRun (meaning_of K.Registry) K.same_answers self.now.objects.now self.now.history.now self.now.trace.now self.now.tables.now }
        requires room { length self.now.trace.now + length self.now.history.now + 3 < 2 ^ 64 }
        ensures { IfOk result (λ v. v ≡ rule.verdict (meaning_of K.Registry) K.same_ops K.same_answers self.now.objects.now self.now.history.now self.now.trace.now) }
    {
        match self.in_trace(alloc)? {
            Some((place, clause)) => Ok(illegal(2, place, clause)),
            None => self.past_trace(alloc),
        }
    }
}

// The verdict by the judge's tests of one reply or entry at a time.
fn ruled<K: Judged>(
    alloc: Global,
    objects: &[Oid],
    history: &[DoneOf<K>],
    trace: &[MarkOf<K>],
) -> Result<Verdict, NoMemory>
    requires header { is_header objects.now ≡ true }
    requires room { length trace.now + length history.now + 3 < 2 ^ 64 }
    ensures { IfOk result (λ v. v ≡ rule.verdict (meaning_of K.Registry) K.same_ops K.same_answers objects.now history.now trace.now) }
{
    let tables = tables_of::<K>(alloc, objects, history, trace)?;
    let run: Run<'_, K> = Run {
        objects,
        history,
        trace,
        tables: &tables,
    };
    run.verdict(alloc)
}

/// The verdict on a run by the objects of its header, its committed transactions and its replies: legal, or the first
/// line of its transcript at which a clause of a legal run fails, and the first such clause there. Its lines have numbers
/// of 64 bits. An `Err` is want of memory.
///
/// It goes over the replies and the history once and makes tables of where each transaction stands. Where stamps rise it
/// plays the history once for each object that is asked; else it plays the object of each answer anew.
pub fn verdict_on<K: Judged>(
    alloc: Global,
    objects: &[Oid],
    history: &[DoneOf<K>],
    trace: &[MarkOf<K>],
) -> Result<Verdict, NoMemory>
    requires header { is_header objects.now ≡ true }
    requires room { length trace.now + length history.now + 3 < 2 ^ 64 }
    ensures { IfOk result (λ v. v ≡ verdict_of (meaning_of K.Registry) K.same_ops K.same_answers objects.now history.now trace.now) }
{
    ruled::<K>(alloc, objects, history, trace)
}
