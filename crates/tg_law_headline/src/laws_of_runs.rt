//! The headline of every run of the store: what holds in the world that it comes to.

ghost use Rattle.tg_law_headline.specs.Runs.Logs.{EachLogHolds};
ghost use Rattle.tg_law_headline.specs.Runs.Runs.{EachRunHolds};

/// Whatever losses, repeats, reorderings, stops and reconfigurations a run takes: the stamps of its history rise, its replies
/// are those of the plain machine over that history and in order, and what it tells of the log, of past positions and of
/// rescues is true, as are the log's decision records and checkpoints (`Holds` of `tg_protocol`).
pub fn runs_hold()
    ensures { EachRunHolds }
{}

/// Trims leave what is needed in each run. An entry of its log is what its client began to append, and stands once; a commit record
/// is of what was put and asked; and what a reply tells of stands there as it says.
pub fn logs_hold()
    ensures { EachLogHolds }
{}
