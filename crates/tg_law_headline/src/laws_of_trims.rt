//! Trims are spare, and so safe and in time, in every run of every cluster in which clients that trim tell the floor of the
//! log's directory, and that floor rests on checkpoints.
//!
//! What is left is named in the laws: that these clients have confirmed their tails (`ConfirmsTail`) and see the directory
//! (`SeesDirectory`, which is had from what clients find), and what floors rest on (`FloorsRest`). Each may be shown of a step
//! by what is known of the run before it, in which trims were spare.

ghost use Rattle.tg_kind.specs.Of.{meaning_of};
ghost use Rattle.tg_law_headline.specs.Trims.Floors.{FloorsAreSpare, SightsByFinds, TrimsAreSpareBySight};
ghost use Rattle.tg_law_headline.specs.Trims.Spare.{TrimsAreSpare};

use tg_kind::Registry;

/// Trims are spare, and so safe and in time, in each run in which a client that trims tells a spare floor wherever its
/// streams are walked, as far as trims were spare before.
pub fn trims_are_spare<K: Registry>()
    ensures { TrimsAreSpare (meaning_of K.Registry) }
{}

/// The floor of the log's directory below a confirmed tail is spare, where the log's floors rest on checkpoints.
pub fn floors_are_spare<K: Registry>()
    ensures { FloorsAreSpare (meaning_of K.Registry) }
{}

/// Over kinds with a directory they are so where a client that trims has confirmed its tail and sees the directory that the
/// log has below it, and the log's floors rest on checkpoints, as far as trims were spare before.
pub fn trims_are_spare_by_sight<K: Registry>()
    ensures { TrimsAreSpareBySight (meaning_of K.Registry) }
{}

/// Clients see the log's directory where they find what the log has, and appends that ended stand there.
pub fn sights_by_finds<K: Registry>()
    ensures { SightsByFinds (meaning_of K.Registry) }
{}
