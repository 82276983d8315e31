//! How many replies there are of a word.

ghost use Rattle.std.specs.Prelude.{◌≡◌};
ghost use Rattle.tg_kind.specs.Of.{meaning_of};
ghost use Rattle.tg_bench.specs.Summaries as of;

use tg_kind::Registry;
use tg_model::{MarkOf, What};

/// How many transactions were committed. It takes no memory.
pub fn committed<K: Registry>(trace: &[MarkOf<K>]) -> u64
    ensures { result ≡ of.many (meaning_of K.Registry) (of.says_committed (meaning_of K.Registry)) trace.now }
{
    trace
        .iter()
        .filter(|mark| matches!(&mark.what, What::Committed { .. }))
        .count() as u64
}

/// How many were aborted. It takes no memory.
pub fn aborted<K: Registry>(trace: &[MarkOf<K>]) -> u64
    ensures { result ≡ of.many (meaning_of K.Registry) (of.says_aborted (meaning_of K.Registry)) trace.now }
{
    trace
        .iter()
        .filter(|mark| matches!(&mark.what, What::Aborted { .. }))
        .count() as u64
}

/// How many couldn't be decided. It takes no memory.
pub fn unsure<K: Registry>(trace: &[MarkOf<K>]) -> u64
    ensures { result ≡ of.many (meaning_of K.Registry) (of.says_unsure (meaning_of K.Registry)) trace.now }
{
    trace
        .iter()
        .filter(|mark| matches!(&mark.what, What::Unsure { .. }))
        .count() as u64
}

/// How many commands were refused. It takes no memory.
pub fn refused<K: Registry>(trace: &[MarkOf<K>]) -> u64
    ensures { result ≡ of.many (meaning_of K.Registry) (of.says_refused (meaning_of K.Registry)) trace.now }
{
    trace
        .iter()
        .filter(|mark| matches!(&mark.what, What::Refused { .. }))
        .count() as u64
}
