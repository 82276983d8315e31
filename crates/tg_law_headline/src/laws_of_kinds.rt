//! What the laws of the log ask of the kinds of objects, of all kinds that the program has: a directory whose floor
//! rises by marks, states that load again from what is saved of them, and ops that touch parts of the format.

ghost use Rattle.tg_law_headline.specs.AllKinds.Kinds.{KindsHaveDirectory, KindsKeepDirectory, KindsAreStates, KindsBegin, KindsReadBack, KindsReadOps, KindsTouchParts};

/// The directory is one: objects stay registered, an op that has a spelling changes the mark of no object but the one
/// that it marks, and the floor never falls, nor rises above the mark of an object that is registered.
pub fn kinds_have_directory()
    ensures { KindsHaveDirectory }
{}

/// No user may put an op that marks an object, the marks of two objects are told apart, what is registered is an object, and
/// what an op touches is a part of the format.
pub fn kinds_keep_directory()
    ensures { KindsKeepDirectory }
{}

/// Ops that have a spelling keep the states of each kind, and a state loads again from what is saved of it.
pub fn kinds_are_states()
    ensures { KindsAreStates }
{}

/// Each object begins with a state of its kind, where the header's objects are distinct and none is the directory.
pub fn kinds_begin()
    ensures { KindsBegin }
{}

/// What is read as an op touches a part of the format, whatever the bytes are.
pub fn kinds_touch_parts()
    ensures { KindsTouchParts }
{}

/// What is read of bytes as an op of an object is one that has a spelling.
pub fn kinds_read_ops()
    ensures { KindsReadOps }
{}

/// And so is what is read of the spelling of an op, whatever that op is.
pub fn kinds_read_back()
    ensures { KindsReadBack }
{}
