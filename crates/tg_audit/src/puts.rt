//! What a transaction wrote.

ghost use Rattle.std.specs.Prelude.{◌≡◌, Option, Some, None};
ghost use Rattle.std.specs.List.{list_any};
ghost use Rattle.tg_kind.specs.Of.{meaning_of};
ghost use Rattle.tg_model.specs.Traces.{puts_of, has_items};
ghost use Rattle.tg_audit.specs.Judging as of;

use crate::asks::is_of;
use crate::judged::Judged;
use tg_base::Oid;
use tg_kind::Registry;
use tg_model::{MarkOf, What};

// Whether a reply tells a write of the transaction.
fn is_put<K: Registry>(mark: &MarkOf<K>, client: u16, tx: u32) -> bool
    ensures { result ≡ of.puts_by (meaning_of K.Registry) client tx mark.now }
{
    is_of::<K>(mark, client, tx) && matches!(&mark.what, What::Put { .. })
}

// Whether one of the replies tells a write of the transaction.
fn some_put<K: Registry>(trace: &[MarkOf<K>], client: u16, tx: u32) -> bool
    ensures { result ≡ list_any (of.puts_by (meaning_of K.Registry) client tx) trace.now }
{
    trace.iter().any(|mark| is_put::<K>(mark, client, tx))
}

/// Whether the transaction wrote.
pub fn has_put<K: Registry>(trace: &[MarkOf<K>], client: u16, tx: u32) -> bool
    ensures { result ≡ has_items (meaning_of K.Registry) (puts_of (meaning_of K.Registry) trace.now client tx) }
{
    some_put::<K>(trace, client, tx)
}

// Whether a reply tells a write of the transaction, and what is left of the writes where it is the first of them.
// None where it isn't.
fn after_put<'a, K: Judged>(
    writes: &'a [(Oid, K::Op)],
    mark: &MarkOf<K>,
) -> Option<&'a [(Oid, K::Op)]>
    ensures { of.left_is (meaning_of K.Registry) (of.after_put (meaning_of K.Registry) K.same_ops writes.now mark.now.what) result }
{
    let What::Put { oid, op } = &mark.what else {
        return Some(writes);
    };
    let [(written, by), rest @ ..] = writes else {
        return None;
    };
    if written.is_same(*oid) && K::is_same_op(by, op) {
        Some(rest)
    } else {
        None
    }
}

/// Whether these are the transaction's writes, in order.
pub fn are_puts<K: Judged>(
    writes: &[(Oid, K::Op)],
    trace: &[MarkOf<K>],
    client: u16,
    tx: u32,
) -> bool
    ensures { result ≡ of.are_same (meaning_of K.Registry) K.same_ops writes.now (puts_of (meaning_of K.Registry) trace.now client tx) }
{
    let mut left = writes;
    for mark in trace {
        if !is_of::<K>(mark, client, tx) {
            continue;
        }
        let Some(rest) = after_put::<K>(left, mark) else {
            return false;
        };
        left = rest;
    }
    left.is_empty()
}
