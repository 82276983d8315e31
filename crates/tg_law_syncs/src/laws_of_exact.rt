//! Exact syncs, in every run of every cluster in which trims leave what is needed: where a step ends the walks of a command,
//! the positions that its client found of each stream are exactly the log's, from where the walk of the stream ended up to
//! the tail, then and later. For what a client's walks have found so far stays true of the log through each of its steps.
//! So most of the premises are had by which clients find what they need (`tg_law_syncs::laws_of_finds`).
//!
//! The premise is that of `tg_law_walks::laws_of_lists`: `TrimsWereSpare`.

mod rounds;
mod worked;

ghost use Rattle.tg_kind.specs.Of.{meaning_of};
ghost use Rattle.tg_law_syncs.specs.Exact.Exact.{ClientsWork, SyncsExactBySpareTrims};
ghost use Rattle.tg_law_walks.specs.Lists.Lists.{EachLaterBySpareTrims};

pub use rounds::{
    clients_find, passes_own, rounds_are_exact, rounds_are_known, views_are_below, views_fit,
};
use tg_kind::Registry;
pub use worked::walk_is_in_hand;

/// What each client's command has found so far is true of the log, then and later, and its kept view has bases of objects that
/// it hosts alone.
pub fn clients_work<K: Registry>()
    ensures { EachLaterBySpareTrims (meaning_of K.Registry) (ClientsWork (meaning_of K.Registry)) }
{}

/// Where a step ends the walks of a command, what they found of each stream is exactly the log's, then and later.
pub fn syncs_are_exact<K: Registry>()
    ensures { SyncsExactBySpareTrims (meaning_of K.Registry) }
{}
