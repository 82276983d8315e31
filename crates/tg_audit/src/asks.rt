//! What a transaction asked, began and ended.

ghost use Rattle.std.specs.Prelude.{◌≡◌};
ghost use Rattle.std.specs.List.{list_any, list_all};
ghost use Rattle.tg_kind.specs.Of.{meaning_of};
ghost use Rattle.tg_audit.specs.Judging as of;

use tg_base::Pos;
use tg_kind::Registry;
use tg_model::{MarkOf, What};

/// Whether a reply speaks of a client's transaction.
pub fn is_of<K: Registry>(mark: &MarkOf<K>, client: u16, tx: u32) -> bool
    ensures { result ≡ of.is_of (meaning_of K.Registry) client tx mark.now }
{
    mark.client == client && mark.tx == tx
}

// Whether a reply answers no ask of the transaction at another snapshot.
fn has_snapshot<K: Registry>(mark: &MarkOf<K>, client: u16, tx: u32, snapshot: Pos) -> bool
    ensures { result ≡ of.passes (meaning_of K.Registry) client tx (of.snapshot_is (meaning_of K.Registry) snapshot) mark.now }
{
    if !is_of::<K>(mark, client, tx) {
        return true;
    }
    match &mark.what {
        What::Asked { at, .. } => *at == snapshot,
        _ => true,
    }
}

/// Whether the transaction asked at this snapshot alone.
pub fn all_at<K: Registry>(trace: &[MarkOf<K>], client: u16, tx: u32, snapshot: Pos) -> bool
    ensures { result ≡ list_all (of.passes (meaning_of K.Registry) client tx (of.snapshot_is (meaning_of K.Registry) snapshot)) trace.now }
{
    trace
        .iter()
        .all(|mark| has_snapshot::<K>(mark, client, tx, snapshot))
}

// Whether a reply answers an ask of the transaction.
fn is_answer<K: Registry>(mark: &MarkOf<K>, client: u16, tx: u32) -> bool
    ensures { result ≡ of.meets (meaning_of K.Registry) client tx (of.any_ask (meaning_of K.Registry)) mark.now }
{
    is_of::<K>(mark, client, tx) && matches!(&mark.what, What::Asked { .. })
}

/// Whether the transaction asked.
pub fn has_asked<K: Registry>(trace: &[MarkOf<K>], client: u16, tx: u32) -> bool
    ensures { result ≡ list_any (of.meets (meaning_of K.Registry) client tx (of.any_ask (meaning_of K.Registry))) trace.now }
{
    trace.iter().any(|mark| is_answer::<K>(mark, client, tx))
}

// Whether a reply is the transaction's end.
fn is_end<K: Registry>(mark: &MarkOf<K>, client: u16, tx: u32) -> bool
    ensures { result ≡ of.ends_by (meaning_of K.Registry) client tx mark.now }
{
    is_of::<K>(mark, client, tx) && matches!(&mark.what, What::End)
}

/// Whether the transaction was ended.
pub fn has_ended<K: Registry>(trace: &[MarkOf<K>], client: u16, tx: u32) -> bool
    ensures { result ≡ list_any (of.ends_by (meaning_of K.Registry) client tx) trace.now }
{
    trace.iter().any(|mark| is_end::<K>(mark, client, tx))
}
