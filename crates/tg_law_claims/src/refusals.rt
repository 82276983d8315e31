//! Each refusal has its cause.

ghost use Rattle.tg_any.specs.AllKinds.{all_kinds};
ghost use Rattle.tg_kind.specs.Of.{meaning_of};
ghost use Rattle.tg_law_claims.specs.Causes.Sorts.{MostRefusalsTrue, RefusedAtOnceTrue, RefusedLaterTrue};
ghost use Rattle.tg_protocol.specs.Runs.{EachStep};

use tg_kind::Registry;

/// Each refusal of the step that gives a command has its cause: the client was busy, or the transaction, the directory as played, the
/// host list, the numbers and sizes, or the layout are such that the command isn't done.
pub fn refused_at_once_true()
    ensures { EachStep all_kinds (RefusedAtOnceTrue all_kinds) }
{}

/// Each refusal of a command that waited has its cause, where that is what the client was told or where it stands: all but `undecided`,
/// `no-checkpoint`, `open-decision` and a late `not-hosted`.
pub fn refused_later_true<K: Registry>()
    ensures { EachStep (meaning_of K.Registry) (RefusedLaterTrue (meaning_of K.Registry)) }
{}

/// So each refusal of a step has its cause, but for `no-checkpoint`, `open-decision` and `not-hosted`; of the last, where it is told in
/// the step that gives the command, it is said above.
pub fn most_refusals_true()
    ensures { EachStep all_kinds (MostRefusalsTrue all_kinds) }
{}
