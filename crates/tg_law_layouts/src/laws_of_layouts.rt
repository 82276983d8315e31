//! Layouts, in every run of every cluster, whatever was lost, repeated or stopped: for each epoch at most one is
//! decided, and it stays; every layout that a node knows is decided; each follows the one before it by a lawful
//! change, once its units were sealed; the layout over which the log is read is the last one. Proved for every lawful
//! header and every run of lawful events, with no other premise. The agreement on one epoch is that of
//! `tg_law_layouts::laws_of_agreement`; what is new here is that a client proposes once for an epoch, and that no node stands at a
//! layout that isn't decided.

ghost use Rattle.tg_kind.specs.Of.{meaning_of};
ghost use Rattle.tg_law_layouts.specs.Layouts.Decisions.{DecidedStays, LayoutsKnown, LayoutsSound, ReadStays};
ghost use Rattle.tg_protocol.specs.Chosen.{LatestDecided, OneLayout};
ghost use Rattle.tg_protocol.specs.Following.{LayoutsFollow};
ghost use Rattle.tg_protocol.specs.Runs.{Always, EachLater};

use tg_kind::Registry;

/// At most one layout is decided for each epoch, however many clients reconfigure at once.
pub fn one_layout<K: Registry>()
    ensures { Always (meaning_of K.Registry) (OneLayout (meaning_of K.Registry)) }
{}

/// What is decided for an epoch stays decided, and no later world has another for it.
pub fn decided_stays<K: Registry>()
    ensures { EachLater (meaning_of K.Registry) (DecidedStays (meaning_of K.Registry)) }
{}

/// So does what is read off from the packets as decided.
pub fn decided_reading_stays<K: Registry>()
    ensures { EachLater (meaning_of K.Registry) (ReadStays (meaning_of K.Registry)) }
{}

/// The layout over which the log is read is decided, and no decided layout is newer.
pub fn latest_decided<K: Registry>()
    ensures { Always (meaning_of K.Registry) (LatestDecided (meaning_of K.Registry)) }
{}

/// Every layout at which a node stands, and every one that is told as decided, is decided for its epoch.
pub fn layouts_are_known<K: Registry>()
    ensures { Always (meaning_of K.Registry) (LayoutsKnown (meaning_of K.Registry)) }
{}

/// Every decided layout keeps the rules of layouts, is of the epoch for which it is decided, and starts below 2^62.
pub fn layouts_are_sound<K: Registry>()
    ensures { Always (meaning_of K.Registry) (LayoutsSound (meaning_of K.Registry)) }
{}

/// Each decided layout but the header's is the one before it after a change that wasn't refused: each of its units
/// was sealed for it, it starts exactly at the greatest position that these told, or where the one before starts, and
/// a unit that joins a chain has answered, in its epoch, that it has all of the stripe.
pub fn layouts_follow<K: Registry>()
    ensures { Always (meaning_of K.Registry) (LayoutsFollow (meaning_of K.Registry)) }
{}
