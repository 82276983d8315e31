//! Reconfigurations finish: what is proved of it. All but the first law ask for a quiet world, in which no other client
//! that runs waits and no limit stops the settling, as the claim does: a request or an answer was lost before, or went
//! to a stopped node; or the client waits for a tick, since its sequencer has told it that it scans, or a `Nack` has
//! set a round. Right after the command its seals are on their way, and none of them speaks.

ghost use Rattle.tg_any.specs.AllKinds.{all_kinds};
ghost use Rattle.tg_kind.specs.Of.{meaning_of};
ghost use Rattle.tg_law_reconfs.specs.Changes.{ChangesWork, ChangesStart, ChangesInstall, ReconfsEnd};
ghost use Rattle.tg_law_reconfs.specs.Ready.{ChangesAreReady, ReconfIsFinished};
ghost use Rattle.tg_law_reconfs.specs.Changing.{JoinsFinish};
ghost use Rattle.tg_law_reconfs.specs.Reconfs.{ReconfEndsAreTold, StartedFinishes, VotesFinish, SealsFinish};
ghost use Rattle.tg_law_reconfs.specs.Scans.{ScansFinish, ScansInstall};
ghost use Rattle.tg_law_reconfs.specs.Settled.{SealsAreAnswered, VotesAreAnswered, JoinsAreAnswered, ScansAreAnswered};
ghost use Rattle.tg_protocol.specs.Runs.{Always};

use tg_kind::Registry;

/// In any world, where a settling ends a client's reconfiguration, the client has told how it ended: a layout is
/// installed, another's was decided, or the spare unit isn't whole.
pub fn reconf_ends_are_told<K: Registry>()
    ensures { ReconfEndsAreTold (meaning_of K.Registry) }
{}

/// A client that stands at its new layout, and waits for that layout's sequencer, which serves, is told that it does:
/// within two deliveries for each layout server, and two more.
pub fn started_reconfs_finish()
    ensures { Always all_kinds (StartedFinishes all_kinds) }
{}

/// So where the sequencer may have to learn its layout and to scan the log first, as long as it runs, and the layout's
/// units do, and no node stands past the layout's epoch: the client is told so within four deliveries for each layout
/// server, and four more. The sequencer serves then, and its scan has taken two deliveries at most for each position
/// below the layout's start and each unit of the longest chain, two more for each position, and two.
pub fn scans_finish()
    ensures { Always all_kinds (ScansFinish all_kinds) }
{}

/// So all that is claimed of a reconfiguration holds from there on.
pub fn scans_install()
    ensures { Always all_kinds (ScansInstall all_kinds) }
{}

/// A client that votes on a layout, or tells that it is decided, while most layout servers run and no node stands past the
/// next epoch, has told after a settling how its reconfiguration ended, or stands at the new layout and waits for that
/// one's sequencer, which may not serve yet: within 34 deliveries for each layout server, and 16 more.
pub fn votes_finish()
    ensures { Always all_kinds (VotesFinish all_kinds) }
{}

/// So from the seals on, where no unit joins, and the client waits for some unit and for none that doesn't run: within two
/// deliveries more for each of these units.
pub fn seals_finish()
    ensures { Always all_kinds (SealsFinish all_kinds) }
{}

/// So of whatever a client waits for before it adopts its own layout, also where a unit joins: while the units of its
/// next layout run, most layout servers do, and no node stands past the next epoch. Of the units that it waits for it
/// asks what is so of a reconfiguration that is ready (`WaitsForUnits`, by `changes_work`). Within two deliveries for
/// each unit, 64 for each layout server, and 22 more.
pub fn joins_finish()
    ensures { Always all_kinds (JoinsFinish all_kinds) }
{}

/// A run in which a client opens a range at the one unit, and the unit's seal is lost, is one for which `seals_finish` asks
/// no more than it has. A settling of it takes twelve deliveries with the client, where 52 are allowed, and the layout is
/// installed.
pub fn seals_are_answered()
    ensures { SealsAreAnswered }
{}

/// A run in which that unit is sealed, and the request for the layout server's promise is lost, is one for which
/// `votes_finish` asks no more than it has. A settling of it takes ten deliveries with the client, where 50 are allowed,
/// and the layout is installed.
pub fn votes_are_answered()
    ensures { VotesAreAnswered }
{}

/// A client that waits alone with a reconfiguration that is ready, at the epoch at which the change was given, works on it:
/// its hand doesn't wait for a newer layout, and it has not adopted one of its own. It waits for units of the next layout
/// alone, for some where it seals them, and looks at a joining unit only after that was sealed; all of these run.
pub fn changes_work()
    ensures { Always all_kinds (ChangesWork all_kinds) }
{}

/// Where it stands at the next epoch it waits for the new layout's sequencer, and that is the change's.
pub fn changes_start()
    ensures { Always all_kinds (ChangesStart all_kinds) }
{}

/// From there all that is claimed of a reconfiguration holds: its new layout's units are those that the change makes of the
/// layout before it, so they run, and a settling installs the layout.
pub fn changes_install()
    ensures { Always all_kinds (ChangesInstall all_kinds) }
{}

/// Wherever it stands a settling ends it, within two deliveries for each unit, 64 for each layout server, and 22 more, and the
/// client is told how: a layout is installed, another's was decided, or the joining unit isn't whole.
pub fn reconfs_end()
    ensures { Always all_kinds (ReconfsEnd all_kinds) }
{}

/// A run in which a client opens a range at the one unit, and the unit's seal is lost, is one for which `changes_work` asks no
/// more than it has; so is for `changes_start` one in which its layout is adopted, and the request to the sequencer is lost.
pub fn changes_are_ready()
    ensures { ChangesAreReady }
{}

/// A run in which a client opens a range at one of two units, and then lets the other join the first range's stripe, while
/// that unit's seal is lost, is one for which `joins_finish` asks no more than it has. A settling of it takes twenty
/// deliveries with the client, where 90 are allowed, and the layout is installed.
pub fn joins_are_answered()
    ensures { JoinsAreAnswered }
{}

/// A run in which a client adds to a counter twice, and then opens a range, and the request to the new layout's
/// sequencer is lost, is one for which `scans_finish` asks no more than it has, and `scans_install` no more but where
/// its client stands, which `changes_start` tells. A settling of it takes eight deliveries with the client, which is as
/// many as are allowed, and four for the scan of two positions, where ten are; and the command has ended.
pub fn scans_are_answered()
    ensures { ScansAreAnswered }
{}

/// A run in which a client opens a range at the one unit, and the unit's seal is lost, is one for which `reconfs_end` asks no
/// more than it has. A settling of it takes twelve deliveries with the client, where 88 are allowed; the layout is
/// installed, and its sequencer serves.
pub fn reconf_is_finished()
    ensures { ReconfIsFinished }
{}
