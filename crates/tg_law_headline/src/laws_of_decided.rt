//! What was settled and confirmed when a client began a command lies below the tail up to which the command's walks go.

ghost use Rattle.tg_kind.specs.Of.{meaning_of};
ghost use Rattle.tg_law_headline.specs.Decided.Later.{LaterTailsFollow};

use tg_kind::Registry;

/// A client that has no work asks for its next tail afterwards, and a whole chain of its layout serves requests since. So each page
/// that was settled then lies below the tail up to which it walks next, and each tail that was confirmed then at it or below it.
pub fn later_tails_follow<K: Registry>()
    ensures { LaterTailsFollow (meaning_of K.Registry) }
{}
