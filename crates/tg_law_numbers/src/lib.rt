//! The laws of a client's numbers: it draws few in a step, and counts few things.
#![tactic(auto)]

ghost use Rattle.tg_kind.specs.Of.{meaning_of};
ghost use Rattle.tg_law_numbers.specs.Counts.{DrawFew, AllCountOne};

use tg_kind::Registry;

/// A client that knows of so many layout servers and units draws no more than twice as many numbers in a step, and
/// three.
pub fn draws_are_few<K: Registry>()
    ensures { DrawFew (meaning_of K.Registry) }
{}

/// A client counts each of its steps, and at most one transaction, one decision record and one checkpoint in it.
pub fn counts_rise_by_one<K: Registry>()
    ensures { AllCountOne (meaning_of K.Registry) }
{}
