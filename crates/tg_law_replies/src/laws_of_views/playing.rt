//! Views that play, and what they say of records.

ghost use Rattle.tg_kind.specs.Of.{meaning_of};
ghost use Rattle.tg_law_replies.specs.Views.Laws.{FreshTrue, StartsTrue, PlaysTrue, VerdictsTrue, ChangesTrue, SavesTrue};

use tg_kind::Registry;

/// A fresh base is true of each log.
pub fn fresh_true<K: Registry>()
    ensures { FreshTrue (meaning_of K.Registry) }
{}

/// A view that starts from true bases is true.
pub fn starts_true<K: Registry>()
    ensures { StartsTrue (meaning_of K.Registry) }
{}

/// A true view stays so by every play over entries of the log that lack none of its objects' between where the view
/// has them and the end of the play, and whose decision records are true.
pub fn plays_true<K: Registry>()
    ensures { PlaysTrue (meaning_of K.Registry) }
{}

/// What a true view says of a commit record that it can judge is the record's outcome.
pub fn verdicts_true<K: Registry>()
    ensures { VerdictsTrue (meaning_of K.Registry) }
{}

/// The read that a true view says has changed has done so: the log has another version of it at the record.
pub fn changes_true<K: Registry>()
    ensures { ChangesTrue (meaning_of K.Registry) }
{}

/// A checkpoint of a sound and true view, loaded again, is a true base, if the object's state loads from what is
/// saved.
pub fn saves_true<K: Registry>()
    ensures { SavesTrue (meaning_of K.Registry) }
{}
