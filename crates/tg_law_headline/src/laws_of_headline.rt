//! The headline of the store: its runs are legal, and what they tell and write is true of the log, by what is had of each step
//! before which trims were spare (`StepsHold` of `tg_law_headline`) alone.

ghost use Rattle.tg_law_headline.specs.Headline.Store.{StoreRunsHold, StoreRunsLegal, StoreRunsLegalBySteps};

/// A run is legal where trims were spare and kept views leave no record without a fate.
pub fn store_runs_legal()
    ensures { StoreRunsLegal }
{}

/// So is one in each step of which, where trims were spare before, the log's floors rest on checkpoints and a kept view leaves no
/// record without a fate.
pub fn store_runs_legal_by_steps()
    ensures { StoreRunsLegalBySteps }
{}

/// Of such a run the stamps of the history rise, the replies are legal and in order, and what it tells of outcomes, of past
/// positions and of rescues is true of its log, as are the log's decision records and checkpoints.
pub fn store_runs_hold()
    ensures { StoreRunsHold }
{}
