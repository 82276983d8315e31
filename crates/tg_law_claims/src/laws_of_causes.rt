//! What a refusal keeps, and why a command is refused.

ghost use Rattle.tg_any.specs.AllKinds.{all_kinds};
ghost use Rattle.tg_kind.specs.Of.{meaning_of};
ghost use Rattle.tg_protocol.specs.Causes.{AbortsLeast, DirectoryTrue, RefusalsKeep};
ghost use Rattle.tg_protocol.specs.Runs.{Always, EachStep};

use tg_kind::Registry;

/// A refusal keeps the host list, the directory as played and the transaction, but that one whose record was trimmed is closed;
/// of a command that is refused at once the client keeps all but the count of its steps. While a command waits, nothing of
/// them changes.
pub fn refusals_keep<K: Registry>()
    ensures { EachStep (meaning_of K.Registry) (RefusalsKeep (meaning_of K.Registry)) }
{}

/// The directory of each client of the store is that of the history, at the position to which the client has played it.
pub fn directories_true()
    ensures { Always all_kinds (DirectoryTrue all_kinds) }
{}

/// An abort names the least of the reads whose versions differ: of each read before it the record's version is that of the log.
pub fn aborts_name_least()
    ensures { Always all_kinds (AbortsLeast all_kinds) }
{}
