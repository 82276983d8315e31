//! Each group of claims is of every run of the store, with no premise.

ghost use Rattle.tg_any.specs.AllKinds.{all_kinds};
ghost use Rattle.tg_protocol.specs.Claims.{CausesHold, OneLog, RunsHold};

/// There is one log, over all reconfigurations: an epoch has at most one layout, which follows the one before it; a cell of the
/// log stays; entries stand once, as they were issued and as their clients began them; records are of what was put and asked, and
/// what replies tell of stands there; a sync finds exactly the streams; clients read on the paths of tails that they were told,
/// and play on from where their views stand; and no place precedes a reply from before its transaction.
pub fn one_log()
    ensures { OneLog all_kinds }
{}

/// The headline holds of every run; and a rescue stays undecided only where the walk of the object that it names met a trim.
pub fn headline_holds()
    ensures { RunsHold all_kinds }
{}

/// Answers have their causes: each refusal and each unsure outcome has one, and what has a cause at once is refused; a refusal keeps what
/// the client had, a client's directory is the history's, an abort names the first read that changed, and `none` is told only where no
/// such record is for the client.
pub fn causes_hold()
    ensures { CausesHold all_kinds }
{}
