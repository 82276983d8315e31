//! The home of a page: the epoch with whose token it was written, in every run of every cluster. However the page came
//! down its chain, and over however many reconfigurations, each layout of a later epoch starts past its position. So of
//! two epochs that issued one position, only the later one's page can be settled.
//!
//! Proved for every lawful header and every run of lawful events, with no other premise.

ghost use Rattle.tg_kind.specs.Of.{meaning_of};
ghost use Rattle.tg_law_cells.specs.Homes.Homes.{EpochsDecided, GonesAsked, SettledBelow, SettledHome, StartsRise};
ghost use Rattle.tg_protocol.specs.Runs.{Always};

use tg_kind::Registry;

/// A settled page was sent to be stored in some epoch, up to that of the layout in which it is settled, and each layout
/// of a later epoch than that starts past it.
pub fn settled_has_home<K: Registry>()
    ensures { Always (meaning_of K.Registry) (SettledHome (meaning_of K.Registry)) }
{}

/// A settled position lies below the start of each layout that is later than the one in which it is settled.
pub fn settled_is_below<K: Registry>()
    ensures { Always (meaning_of K.Registry) (SettledBelow (meaning_of K.Registry)) }
{}

/// No decided layout starts below an earlier one's start.
pub fn starts_rise<K: Registry>()
    ensures { Always (meaning_of K.Registry) (StartsRise (meaning_of K.Registry)) }
{}

/// No epoch between the first and a decided layout's lacks a decided layout.
pub fn epochs_are_decided<K: Registry>()
    ensures { Always (meaning_of K.Registry) (EpochsDecided (meaning_of K.Registry)) }
{}

/// What a unit tells as gone some unit was asked to trim, in the epoch of the answer or before.
pub fn gone_is_asked<K: Registry>()
    ensures { Always (meaning_of K.Registry) (GonesAsked (meaning_of K.Registry)) }
{}
