//! The order of places over reconfigurations. A layout is decided only once units of each chain of the layout before it are
//! sealed, and a sealed unit serves nothing of the epoch that it has left. So nothing is settled, and no tail is confirmed, in
//! an earlier epoch afterwards but what was sent before: what follows a confirmed tail stands at it or past it, in whatever
//! layout its client stands.
//!
//! Proved for every lawful header and every run of lawful events, of the world that it comes to and each through which it
//! came, with no other premise.

ghost use Rattle.tg_kind.specs.Of.{meaning_of};
ghost use Rattle.tg_law_cells.specs.Order.Tails.{EachPassed};
ghost use Rattle.tg_law_cells.specs.Places.Late.{LatePages, NewPagesFollow, ServedTailsRise};
ghost use Rattle.tg_law_cells.specs.Places.Left.{ChainsLeft, ChainsStand, EarlySettledTold, LeftRefuse, LeftTold, ServedLate};
ghost use Rattle.tg_law_cells.specs.Places.Order.{PointsPrecede};
ghost use Rattle.tg_law_cells.specs.Places.Past.{NewPagesRise, ServedTailsPast};
ghost use Rattle.tg_protocol.specs.Runs.{Always};

use tg_kind::Registry;

/// A unit serves no request of an epoch that it has left.
pub fn left_refuse<K: Registry>()
    ensures { EachPassed (meaning_of K.Registry) (LeftRefuse (meaning_of K.Registry)) }
{}

/// So what it tells of its cells in such an epoch, it had told before it left it.
pub fn left_told<K: Registry>()
    ensures { EachPassed (meaning_of K.Registry) (LeftTold (meaning_of K.Registry)) }
{}

/// Each unit of a decided layout's chains stands in the layout's epoch, or in a later one.
pub fn chains_stand<K: Registry>()
    ensures { Always (meaning_of K.Registry) (ChainsStand (meaning_of K.Registry)) }
{}

/// Once a layout is decided, some unit of each chain of an earlier one has left that one's epoch.
pub fn chains_are_left<K: Registry>()
    ensures { Always (meaning_of K.Registry) (ChainsLeft (meaning_of K.Registry)) }
{}

/// What is settled in a layout of an earlier epoch than a decided one's, some unit of its chain had told when that was decided.
pub fn early_settled_told<K: Registry>()
    ensures { EachPassed (meaning_of K.Registry) (EarlySettledTold (meaning_of K.Registry)) }
{}

/// Where each unit of a layout's chain has served a request in the layout's epoch after a world, no layout was decided there
/// for a later epoch.
pub fn served_chains_are_late<K: Registry>()
    ensures { EachPassed (meaning_of K.Registry) (ServedLate (meaning_of K.Registry)) }
{}

/// A settled page that wasn't sent to be stored before a layout was decided was sent in the layout's epoch, or a later one.
pub fn late_pages<K: Registry>()
    ensures { EachPassed (meaning_of K.Registry) (LatePages (meaning_of K.Registry)) }
{}

/// A page with tokens that were issued after a tail was confirmed is settled only at the tail or past it, in whatever layout
/// its client stands.
pub fn new_pages_follow<K: Registry>()
    ensures { EachPassed (meaning_of K.Registry) (NewPagesFollow (meaning_of K.Registry)) }
{}

/// Nor is a lower tail told after a confirmed one, of whatever epoch, where a whole chain of the epoch's layout serves requests
/// afterwards.
pub fn served_tails_rise<K: Registry>()
    ensures { EachPassed (meaning_of K.Registry) (ServedTailsRise (meaning_of K.Registry)) }
{}

/// A page with tokens that were issued after a page was settled is settled only past that one.
pub fn new_pages_rise<K: Registry>()
    ensures { EachPassed (meaning_of K.Registry) (NewPagesRise (meaning_of K.Registry)) }
{}

/// Nor is a tail told that isn't past a page which was settled before, by the sequencer of a layout of which a whole chain
/// serves requests afterwards.
pub fn served_tails_past<K: Registry>()
    ensures { EachPassed (meaning_of K.Registry) (ServedTailsPast (meaning_of K.Registry)) }
{}

/// So no place precedes a point: a confirmed tail, or one past a settled page, isn't above where a new page is settled, nor above a
/// tail that is told afterwards by the sequencer of a layout of which a whole chain serves requests since.
pub fn points_precede_places<K: Registry>()
    ensures { EachPassed (meaning_of K.Registry) (PointsPrecede (meaning_of K.Registry)) }
{}
