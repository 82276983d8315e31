//! What the history says of transactions.

ghost use Rattle.std.specs.Prelude.{◌≡◌, ◌+◌, ◌&&◌, ◌||◌, ◌==◌, not, nat_le, nat_lt};
ghost use Rattle.std.specs.List.{list_any, list_all};
ghost use Rattle.tg_kind.specs.Of.{meaning_of};
ghost use Rattle.tg_model.specs.Stores.{is_stamp, has_stamp};
ghost use Rattle.tg_audit.specs.Judging as of;

use crate::judged::Judged;
use crate::puts::are_puts;
use crate::versions::changes;
use tg_base::{Oid, Part, Pos};
use tg_kind::Registry;
use tg_model::{DoneOf, MarkOf};

// Whether a committed transaction is this one.
fn is_entry<K: Registry>(done: &DoneOf<K>, client: u16, tx: u32) -> bool
    ensures { result ≡ of.entry_of (meaning_of K.Registry) client tx done.now }
{
    done.client == client && done.number == tx
}

/// Whether the transaction is in the history.
pub fn has_entry<K: Registry>(history: &[DoneOf<K>], client: u16, tx: u32) -> bool
    ensures { result ≡ list_any (of.entry_of (meaning_of K.Registry) client tx) history.now }
{
    history.iter().any(|done| is_entry::<K>(done, client, tx))
}

// Whether a committed transaction is another one, or has this place.
fn is_at<K: Registry>(done: &DoneOf<K>, client: u16, tx: u32, at: Pos) -> bool
    ensures { result ≡ of.only_here (meaning_of K.Registry) client tx at done.now }
{
    !is_entry::<K>(done, client, tx) || done.stamp == at
}

/// Whether the transaction is in the history at this place alone, if at all.
pub fn only_at<K: Registry>(history: &[DoneOf<K>], client: u16, tx: u32, at: Pos) -> bool
    ensures { result ≡ list_all (of.only_here (meaning_of K.Registry) client tx at) history.now }
{
    history.iter().all(|done| is_at::<K>(done, client, tx, at))
}

/// Whether a transaction has this place.
pub fn has_stamp<K: Registry>(history: &[DoneOf<K>], at: Pos) -> bool
    ensures { result ≡ is_stamp (meaning_of K.Registry) history.now at }
{
    history.iter().any(|done| done.stamp == at)
}

// Whether a committed transaction is this one, at this place and with its writes.
fn is_commit<K: Judged>(
    done: &DoneOf<K>,
    trace: &[MarkOf<K>],
    client: u16,
    tx: u32,
    at: Pos,
) -> bool
    ensures { result ≡ of.commits (meaning_of K.Registry) K.same_ops trace.now client tx at done.now }
{
    done.stamp == at
        && is_entry::<K>(done, client, tx)
        && are_puts::<K>(done.writes.as_slice(), trace, client, tx)
}

/// Whether the transaction is in the history, at this place and with its writes.
pub fn has_commit<K: Judged>(
    history: &[DoneOf<K>],
    trace: &[MarkOf<K>],
    client: u16,
    tx: u32,
    at: Pos,
) -> bool
    ensures { result ≡ list_any (of.commits (meaning_of K.Registry) K.same_ops trace.now client tx at) history.now }
{
    history
        .iter()
        .any(|done| is_commit::<K>(done, trace, client, tx, at))
}

// Whether a committed transaction from a snapshot on and below a place gave a part this version.
fn is_cause<K: Registry>(
    done: &DoneOf<K>,
    oid: Oid,
    part: &Part,
    version: u64,
    snapshot: Pos,
    at: Pos,
) -> bool
    ensures { result ≡ of.causes (meaning_of K.Registry) at oid part.now version snapshot done.now }
{
    u128::from(done.stamp) + 1 == u128::from(version)
        && changes::<K>(done, oid, part)
        && snapshot <= done.stamp
        && done.stamp < at
}

/// Whether a committed transaction from a snapshot on and below a place gave a part this version.
pub fn has_cause<K: Registry>(
    history: &[DoneOf<K>],
    oid: Oid,
    part: &Part,
    version: u64,
    snapshot: Pos,
    at: Pos,
) -> bool
    ensures { result ≡ list_any (of.causes (meaning_of K.Registry) at oid part.now version snapshot) history.now }
{
    history.iter().any(|done| is_cause::<K>(done, oid, part, version, snapshot, at))
}
