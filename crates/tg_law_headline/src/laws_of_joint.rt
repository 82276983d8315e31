//! What is left of each step of a run of the store (`StepsHold` of `tg_law_headline`) follows from the ends of walks from which the log's
//! checkpoints and marks come: those have settled what they walked, found decided what they let be forgotten, and met only trims that
//! were told as floors.

ghost use Rattle.tg_kind.specs.Of.{meaning_of};
ghost use Rattle.tg_law_headline.specs.Joint.Joint.{EachStepHolds, MarksRestWhere, MetSettledWhere, StepsHoldWhere};

use tg_kind::Registry;

/// Each mark of a log rests on a checkpoint of its object, which whoever forgot had found: it stands below the mark's record and
/// reaches the mark, and what was issued to the object below it in the epoch of its tail was settled by then.
pub fn marks_rest_where<K: Registry>()
    ensures { MarksRestWhere (meaning_of K.Registry) }
{}

/// Each record that needs a decision, and that stands below a trim which a walk of its stream met, had its decision settled before:
/// the trim came of a floor, the floor of a mark, and whoever made the mark had found the record decided, or had met an earlier trim
/// above it.
pub fn met_settled_where<K: Registry>()
    ensures { MetSettledWhere (meaning_of K.Registry) }
{}

/// In each step of a run of the store before which trims were spare, the log's floors rest on checkpoints, and what a kept view has
/// gone past has a fate, or is decided; where the log's checkpoints and marks come from ends of walks, as `JointRests` says.
pub fn steps_hold_where()
    ensures { StepsHoldWhere }
{}

/// They do: so it is in each step of every run of the store.
pub fn steps_hold()
    ensures { EachStepHolds }
{}
