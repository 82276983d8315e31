//! What holds of every transcript.

ghost use Rattle.tg_kind.specs.Of.{meaning_of};
ghost use Rattle.tg_law_verdicts.specs.Laws.{VerdictsAreTrue};

use tg_kind::Registry;

/// The judge finds no fault in a transcript exactly where it is legal.
pub fn verdicts_are_true<K: Registry>()
    ensures { VerdictsAreTrue (meaning_of K.Registry) }
{}
