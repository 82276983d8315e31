//! When a command is refused, and when it tells that no record is there.

ghost use Rattle.tg_any.specs.AllKinds.{all_kinds};
ghost use Rattle.tg_protocol.specs.Causes.{CausesRefuse, NonesTrue};
ghost use Rattle.tg_protocol.specs.Runs.{EachStep};

/// A command of the store for whose refusal there is a cause at once is refused in the step that takes it.
pub fn causes_refuse()
    ensures { EachStep all_kinds (CausesRefuse all_kinds) }
{}

/// Where `fate`, `decide` or `rescue` of the store tells none, no commit record stands there that is for the client, below a tail that
/// was told for the command: none of its own, and none in a stream that it hosts.
pub fn nones_true()
    ensures { EachStep all_kinds (NonesTrue all_kinds) }
{}
