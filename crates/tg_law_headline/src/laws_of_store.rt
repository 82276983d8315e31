//! The store's own runs: what the laws ask of kinds is had of all kinds that it has, and what two laws ask of each other is had
//! step by step.
//!
//! What is read of its logs is an op of the format, and states load from what is saved of them. So its runs are legal where trims
//! were spare, kept views leave no record without a fate, and the order holds; and trims are spare where, as far as they were
//! so before, floors rest on checkpoints and kept views leave none.

ghost use Rattle.tg_law_headline.specs.Store.States.{StoreHasStates, StoreReadsOps};
ghost use Rattle.tg_law_headline.specs.Store.Steps.{StoreStepsRest, StoreTrimsAreSpare};

/// What is read of the writes of a log is an op of the format, where trims were safe: each is what its client had put.
pub fn store_reads_ops()
    ensures { StoreReadsOps }
{}

/// So each object's state loads from what is saved of it.
pub fn store_has_states()
    ensures { StoreHasStates }
{}

/// Where, as far as trims were spare before, the log's floors rest on checkpoints and kept views leave no record without a fate,
/// all is had of each such step that the law of trims asks.
pub fn store_steps_rest()
    ensures { StoreStepsRest }
{}

/// So trims are spare, and safe and in time, in each run in the steps of which, as far as trims were spare before, the log's
/// floors rest on checkpoints and kept views leave no record without a fate.
pub fn store_trims_are_spare()
    ensures { StoreTrimsAreSpare }
{}
