//! What clients count: what bounds it is the number of steps.

ghost use Rattle.tg_kind.specs.Of.{meaning_of};
ghost use Rattle.tg_protocol.specs.Runs.{Always};
ghost use Rattle.tg_law_sizes.specs.Counts.{CountsStayLow};

use tg_kind::Registry;

/// In every run of every cluster a client has taken no more steps than its world, and has begun no more transactions,
/// decision records and checkpoints than it has taken steps.
pub fn counts_stay_low<K: Registry>()
    ensures { Always (meaning_of K.Registry) (CountsStayLow (meaning_of K.Registry)) }
{}
