//! What is asked of a transaction, by the replies and the entries from its first to its last.

ghost use Rattle.std.specs.Prelude.{◌≡◌, ◌<◌, ◌≤◌, true, length, take};
ghost use Rattle.std.specs.List.{list_any, list_all};
ghost use Rattle.tg_kind.specs.Of.{meaning_of};
ghost use Rattle.tg_model.specs.Stores.{is_stamp};
ghost use Rattle.tg_model.specs.Traces.{puts_of, has_items};
ghost use Rattle.tg_audit.specs.Judging as of;
ghost use Rattle.tg_audit.specs.Runs as runs;

use crate::asks::{all_at, has_asked, has_ended};
use crate::entries::{has_cause, has_commit, has_entry, has_stamp, only_at};
use crate::judged::Judged;
use crate::puts::{are_puts, has_put};
use crate::run::Run;
use tg_base::{Oid, Part, Pos};

impl<'a, K: Judged> Run<'a, K> {
    /// Whether the transaction wrote.
    pub fn wrote(&self, client: u16, tx: u32) -> bool
        requires { runs.IsRun (meaning_of K.Registry) K.same_answers self.now.objects.now self.now.history.now self.now.trace.now self.now.tables.now }
        ensures { result ≡ has_items (meaning_of K.Registry) (puts_of (meaning_of K.Registry) self.now.trace.now client tx) }
    {
        let marks = self.marks(client, tx, self.trace.len());
        has_put::<K>(marks, client, tx)
    }

    /// Whether the transaction asked.
    pub fn asked(&self, client: u16, tx: u32) -> bool
        requires { runs.IsRun (meaning_of K.Registry) K.same_answers self.now.objects.now self.now.history.now self.now.trace.now self.now.tables.now }
        ensures { result ≡ list_any (of.meets (meaning_of K.Registry) client tx (of.any_ask (meaning_of K.Registry))) self.now.trace.now }
    {
        let marks = self.marks(client, tx, self.trace.len());
        has_asked::<K>(marks, client, tx)
    }

    /// Whether the transaction was ended.
    pub fn ended(&self, client: u16, tx: u32) -> bool
        requires { runs.IsRun (meaning_of K.Registry) K.same_answers self.now.objects.now self.now.history.now self.now.trace.now self.now.tables.now }
        ensures { result ≡ list_any (of.ends_by (meaning_of K.Registry) client tx) self.now.trace.now }
    {
        let marks = self.marks(client, tx, self.trace.len());
        has_ended::<K>(marks, client, tx)
    }

    /// Whether the transaction asked at this snapshot alone.
    pub fn asked_at(&self, client: u16, tx: u32, snapshot: Pos) -> bool
        requires { runs.IsRun (meaning_of K.Registry) K.same_answers self.now.objects.now self.now.history.now self.now.trace.now self.now.tables.now }
        ensures { result ≡ list_all (of.passes (meaning_of K.Registry) client tx (of.snapshot_is (meaning_of K.Registry) snapshot)) self.now.trace.now }
    {
        let marks = self.marks(client, tx, self.trace.len());
        all_at::<K>(marks, client, tx, snapshot)
    }

    /// Whether the transaction asked at this snapshot alone, before a place.
    pub fn asked_before(&self, place: usize, client: u16, tx: u32, snapshot: Pos) -> bool
        requires run { runs.IsRun (meaning_of K.Registry) K.same_answers self.now.objects.now self.now.history.now self.now.trace.now self.now.tables.now }
        requires place { place ≤ length self.now.trace.now }
        ensures { result ≡ list_all (of.passes (meaning_of K.Registry) client tx (of.snapshot_is (meaning_of K.Registry) snapshot)) (take place self.now.trace.now) }
    {
        let marks = self.marks(client, tx, place);
        all_at::<K>(marks, client, tx, snapshot)
    }

    /// Whether these are the transaction's writes, in order.
    pub fn put(&self, writes: &[(Oid, K::Op)], client: u16, tx: u32) -> bool
        requires { runs.IsRun (meaning_of K.Registry) K.same_answers self.now.objects.now self.now.history.now self.now.trace.now self.now.tables.now }
        ensures { result ≡ of.are_same (meaning_of K.Registry) K.same_ops writes.now (puts_of (meaning_of K.Registry) self.now.trace.now client tx) }
    {
        let marks = self.marks(client, tx, self.trace.len());
        are_puts::<K>(writes, marks, client, tx)
    }

    /// Whether the transaction is in the history.
    pub fn entered(&self, client: u16, tx: u32) -> bool
        requires { runs.IsRun (meaning_of K.Registry) K.same_answers self.now.objects.now self.now.history.now self.now.trace.now self.now.tables.now }
        ensures { result ≡ list_any (of.entry_of (meaning_of K.Registry) client tx) self.now.history.now }
    {
        let entries = self.entries(client, tx, self.history.len());
        has_entry::<K>(entries, client, tx)
    }

    /// Whether the transaction is in the history before a place.
    pub fn entered_before(&self, place: usize, client: u16, tx: u32) -> bool
        requires run { runs.IsRun (meaning_of K.Registry) K.same_answers self.now.objects.now self.now.history.now self.now.trace.now self.now.tables.now }
        requires place { place ≤ length self.now.history.now }
        ensures { result ≡ list_any (of.entry_of (meaning_of K.Registry) client tx) (take place self.now.history.now) }
    {
        let entries = self.entries(client, tx, place);
        has_entry::<K>(entries, client, tx)
    }

    /// Whether the transaction is in the history at this place alone, if at all.
    pub fn entered_at(&self, client: u16, tx: u32, at: Pos) -> bool
        requires { runs.IsRun (meaning_of K.Registry) K.same_answers self.now.objects.now self.now.history.now self.now.trace.now self.now.tables.now }
        ensures { result ≡ list_all (of.only_here (meaning_of K.Registry) client tx at) self.now.history.now }
    {
        let entries = self.entries(client, tx, self.history.len());
        only_at::<K>(entries, client, tx, at)
    }

    /// Whether the transaction is in the history, at this place and with its writes.
    pub fn committed(&self, client: u16, tx: u32, at: Pos) -> bool
        requires { runs.IsRun (meaning_of K.Registry) K.same_answers self.now.objects.now self.now.history.now self.now.trace.now self.now.tables.now }
        ensures { result ≡ list_any (of.commits (meaning_of K.Registry) K.same_ops self.now.trace.now client tx at) self.now.history.now }
    {
        let marks = self.marks(client, tx, self.trace.len());
        let entries = self.entries(client, tx, self.history.len());
        has_commit::<K>(entries, marks, client, tx, at)
    }

    /// Whether a transaction has this place.
    pub fn stamps(&self, at: Pos) -> bool
        requires { runs.IsRun (meaning_of K.Registry) K.same_answers self.now.objects.now self.now.history.now self.now.trace.now self.now.tables.now }
        ensures { result ≡ is_stamp (meaning_of K.Registry) self.now.history.now at }
    {
        has_stamp::<K>(self.stamped(at), at)
    }

    /// Whether a committed transaction from a snapshot on and below a place gave a part this version.
    pub fn caused(&self, oid: Oid, part: &Part, version: u64, snapshot: Pos, at: Pos) -> bool
        requires { runs.IsRun (meaning_of K.Registry) K.same_answers self.now.objects.now self.now.history.now self.now.trace.now self.now.tables.now }
        ensures { result ≡ list_any (of.causes (meaning_of K.Registry) at oid part.now version snapshot) self.now.history.now }
    {
        if version == 0 {
            return false;
        }
        has_cause::<K>(self.stamped(version - 1), oid, part, version, snapshot, at)
    }
}
