//! What the directory's floor says of the log.

ghost use Rattle.tg_kind.specs.Of.{meaning_of};
ghost use Rattle.tg_law_replies.specs.History.Floors.{FloorsAreMarked, FloorsAreSafe};

use tg_kind::Registry;

/// Where the floor has risen since an object was registered, a committed transaction has marked the object at or past
/// the floor.
pub fn floors_are_marked<K: Registry>()
    ensures { FloorsAreMarked (meaning_of K.Registry) }
{}

/// An entry below the floor is no longer needed: each object in whose stream it stands has a checkpoint that reaches
/// the floor, and the floor is no higher than the log was played. From two premises on the log: a committed mark
/// stands after a checkpoint that reaches it, and an entry stands only in streams of objects that were registered.
pub fn floors_are_safe<K: Registry>()
    ensures { FloorsAreSafe (meaning_of K.Registry) }
{}
