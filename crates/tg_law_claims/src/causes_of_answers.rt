//! Each refusal has its cause.

ghost use Rattle.tg_any.specs.AllKinds.{all_kinds};
ghost use Rattle.tg_protocol.specs.Causes.{RefusalsTrue};
ghost use Rattle.tg_protocol.specs.Runs.{EachStep};

/// Each refusal of a step of the store has its cause: at the world before the step, where the step gives the command; and of a command
/// that waited, by what the client was told for it, by where it stands, or by what its walks found.
pub fn refusals_true()
    ensures { EachStep all_kinds (RefusalsTrue all_kinds) }
{}
