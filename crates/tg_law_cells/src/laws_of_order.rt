//! The order of tails and tokens: what is issued after a sequencer told a tail stands at that tail or past it, in its epoch and,
//! where the tail was confirmed, in each later one. Laws over the definitions of `tg_protocol`, for the kinds of any
//! implementation.

ghost use Rattle.tg_kind.specs.Of.{meaning_of};
ghost use Rattle.tg_law_cells.specs.Order.Later.{TailsRise};
ghost use Rattle.tg_law_cells.specs.Order.Tails.{ConfirmedPrecede, EachPassed, TailsPrecede};

use tg_kind::Registry;

/// What a sequencer issues in an epoch after it told a tail there stands at that tail or past it.
pub fn tails_precede<K: Registry>()
    ensures { EachPassed (meaning_of K.Registry) (TailsPrecede (meaning_of K.Registry)) }
{}

/// What any sequencer issues after a tail was told by the sequencer of a decided layout, and was confirmed, stands at that tail
/// or past it, unless it is issued in an earlier epoch: a tail is confirmed where the cell below it is settled, in the tail's
/// epoch or before, or where it isn't past the layout's start.
pub fn confirmed_tails_precede<K: Registry>()
    ensures { EachPassed (meaning_of K.Registry) (ConfirmedPrecede (meaning_of K.Registry)) }
{}

/// No sequencer tells a lower tail after a confirmed one, in the tail's epoch or a later one.
pub fn tails_rise<K: Registry>()
    ensures { EachPassed (meaning_of K.Registry) (TailsRise (meaning_of K.Registry)) }
{}
