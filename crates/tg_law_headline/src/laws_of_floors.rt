//! What the floors of a log rest on, part by part, in every run of every cluster in which trims were spare.
//!
//! `tg_law_headline::laws_of_trims` names the parts. Here is that a client which has walked has confirmed its tail, and that below a confirmed tail
//! all was settled up to the start of its epoch, and issued from there on.

ghost use Rattle.tg_kind.specs.Of.{meaning_of};
ghost use Rattle.tg_law_headline.specs.Floors.Confirming.{TrimsConfirmTails, WalksHaveTails};
ghost use Rattle.tg_law_headline.specs.Floors.Tokens.{TokensName};
ghost use Rattle.tg_law_headline.specs.Floors.Wholes.{TailsAreWhole};
ghost use Rattle.tg_protocol.specs.Runs.{Always};

use tg_kind::Registry;

/// A client at the end of its walks has confirmed the tail up to which it walked, in the epoch in which it stands or before:
/// the sequencer of a decided layout told it, and the position below it is settled, or it isn't past the layout's start.
pub fn walks_have_tails<K: Registry>()
    ensures { WalksHaveTails (meaning_of K.Registry) }
{}

/// So has a client that trims.
pub fn trims_confirm_tails<K: Registry>()
    ensures { TrimsConfirmTails (meaning_of K.Registry) }
{}

/// Each token that was asked for names a stream.
pub fn tokens_name<K: Registry>()
    ensures { Always (meaning_of K.Registry) (TokensName (meaning_of K.Registry)) }
{}

/// A confirmed tail is whole: below the start of its epoch's layout all was settled in that epoch or before, and each position
/// from there up to the tail was issued in the epoch, to some stream.
pub fn tails_are_whole<K: Registry>()
    ensures { TailsAreWhole (meaning_of K.Registry) }
{}
