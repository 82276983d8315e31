//! From where clients play on.
//!
//! Proved for every lawful header and every run of lawful events.

ghost use Rattle.tg_kind.specs.Of.{meaning_of};
ghost use Rattle.tg_law_claims.specs.Playing.Rules.{ViewsFallAtTrims, ViewsReadOn};
ghost use Rattle.tg_protocol.specs.Runs.{EachStep};

use tg_kind::Registry;

/// A view goes back only in a step in which its client hosts an object, or by a trim above it that a unit answered to the command.
pub fn views_fall_at_trims<K: Registry>()
    ensures { EachStep (meaning_of K.Registry) (ViewsFallAtTrims (meaning_of K.Registry)) }
{}

/// A command that reads for the view alone reads nothing below where the view stood when it was given, but where it met such a
/// trim.
pub fn views_read_on<K: Registry>()
    ensures { EachStep (meaning_of K.Registry) (ViewsReadOn (meaning_of K.Registry)) }
{}
