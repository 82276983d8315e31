//! What holds of views, whatever their entries: plays one after the other, the versions that a view tells, and
//! checkpoints of it. Laws over the definitions of `tg_protocol`, for the kinds of any implementation.

ghost use Rattle.tg_kind.specs.Of.{meaning_of};
ghost use Rattle.tg_law_replies.specs.Plays.Laws.{PlaysJoin, StartsSound, PlaysKeep, AnswersStay, CheckpointsKeep};
ghost use Rattle.tg_law_replies.specs.Plays.Old.{OldEntriesWhole};

use tg_kind::Registry;

/// A play that wasn't blocked, and one from there on over the same entries, make the view that one play to the
/// end makes.
pub fn plays_join<K: Registry>()
    ensures { PlaysJoin (meaning_of K.Registry) }
{}

/// A view that starts from lawful bases is sound.
pub fn starts_sound<K: Registry>()
    ensures { StartsSound (meaning_of K.Registry) }
{}

/// A sound view stays so by every play over entries whose positions rise.
pub fn plays_keep<K: Registry>()
    ensures { PlaysKeep (meaning_of K.Registry) }
{}

/// An object's answer stays while the version of the part that the ask looks at stays: a change that moves the
/// answer moves the version.
pub fn answers_stay<K: Registry>()
    ensures { AnswersStay (meaning_of K.Registry) }
{}

/// A checkpoint of a sound view, loaded again, has the object's state and the version of each of its parts.
pub fn checkpoints_keep<K: Registry>()
    ensures { CheckpointsKeep (meaning_of K.Registry) }
{}

/// A view that was played over entries of format 1, whose reads are of whole objects, says of each record what whole reads
/// say: it commits where none of the objects that it read was written by a committed record since.
pub fn old_entries_whole<K: Registry>()
    ensures { OldEntriesWhole (meaning_of K.Registry) }
{}
