//! Requests and what their answers tell, in every run of every cluster, whatever was lost, repeated or stopped.
//! Nodes number their requests, and no number stands for two; so an answer is told from any other by its number.
//! What a unit has told of its cells stays so, it tells one cell at a position, and what it tells in an epoch
//! below a seal's lies below what the seal told. Nothing is presumed of layouts, or of how many nodes run.

ghost use Rattle.tg_kind.specs.Of.{meaning_of};
ghost use Rattle.tg_protocol.specs.Runs.{Always};
ghost use Rattle.tg_law_layouts.specs.Requests.Laws.{NumbersUnique, ToldIsSo, ToldOnce, SealsBound};

use tg_kind::Registry;

/// Two requests of one node to one node under one number are the same.
pub fn numbers_are_unique<K: Registry>()
    ensures { Always (meaning_of K.Registry) (NumbersUnique (meaning_of K.Registry)) }
{}

/// A cell that a unit has told it still has, or has trimmed.
pub fn told_is_so<K: Registry>()
    ensures { Always (meaning_of K.Registry) (ToldIsSo (meaning_of K.Registry)) }
{}

/// A unit tells one cell at a position, whatever it is asked, and in whatever epoch.
pub fn told_once<K: Registry>()
    ensures { Always (meaning_of K.Registry) (ToldOnce (meaning_of K.Registry)) }
{}

/// What a unit tells in an epoch below a seal's lies below the position that the seal tells.
pub fn seals_bound<K: Registry>()
    ensures { Always (meaning_of K.Registry) (SealsBound (meaning_of K.Registry)) }
{}
