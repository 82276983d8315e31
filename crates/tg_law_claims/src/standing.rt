//! Where clients of the store stand once a command is answered, and so from where they play on.
//!
//! Proved for every lawful header and every run of lawful events over the store's own kinds.

ghost use Rattle.tg_any.specs.AllKinds.{all_kinds};
ghost use Rattle.tg_law_claims.specs.Playing.Rules.{AsksStand, PagesGiveUp};
ghost use Rattle.tg_protocol.specs.Playing.{PlaysOn};
ghost use Rattle.tg_protocol.specs.Runs.{EachStep};

/// An answered ask leaves its client's view at the tail that the answer names.
pub fn asks_stand()
    ensures { EachStep all_kinds (AsksStand all_kinds) }
{}

/// A client whose command is answered knows no page below where its view stands but those of its own commit records.
pub fn pages_give_up()
    ensures { EachStep all_kinds (PagesGiveUp all_kinds) }
{}

/// So clients play on from where their views stand, by all four rules.
pub fn plays_on()
    ensures { EachStep all_kinds (PlaysOn all_kinds) }
{}
