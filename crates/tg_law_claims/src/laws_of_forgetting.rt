//! Each claim is of every run of the store, with no premise.

ghost use Rattle.tg_any.specs.AllKinds.{all_kinds};
ghost use Rattle.tg_protocol.specs.Claims.{Forgetting};
ghost use Rattle.tg_protocol.specs.Holding.{FloorsStay, MarksRest, SerialFirst, TrimsSpare};
ghost use Rattle.tg_protocol.specs.Runs.{Always};

/// Where each transaction of a run has only asks, or only puts, its answers, its commits and the entries of its history are right; so
/// they are in the store wherever it has both, too.
pub fn serial_first()
    ensures { Always all_kinds (SerialFirst all_kinds) }
{}

/// Below the floor of the directory that a client has played the log is whole: whoever marked an object had found its stream settled up
/// to the mark, and each position below a floor was issued to the stream of an object that is marked past it, or settled before.
pub fn floors_stay()
    ensures { Always all_kinds (FloorsStay all_kinds) }
{}

/// What a unit has trimmed is in the log, and each object with an entry there has a checkpoint that stands past what is trimmed and saves
/// the object up to there or further.
pub fn trims_spare()
    ensures { Always all_kinds (TrimsSpare all_kinds) }
{}

/// An object is marked only where it has a checkpoint that stands at or past the mark and reaches it, and where each record of its
/// stream below the mark that needs a decision record has one: whoever forgot had found both, or had met a trim, which came of an
/// earlier mark.
pub fn marks_rest()
    ensures { Always all_kinds (MarksRest all_kinds) }
{}

/// So the claims of forgetting hold of the store: with these, that the log's checkpoints have the states and the versions of the whole
/// history.
pub fn forgetting_holds()
    ensures { Forgetting all_kinds }
{}
