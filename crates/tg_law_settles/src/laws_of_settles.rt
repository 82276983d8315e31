//! What a script's `settle` line does, as a replay runs it.

ghost use Rattle.tg_law_settles.specs.Changes.{SettleLinesChange, SettleLinesInstall, SettleLinesEnd, DrainedLinesChange, DrainedLinesInstall, DrainedLinesEnd, SettleLinesScan};
ghost use Rattle.tg_law_settles.specs.PastViews.{UpdateIsSettled};
ghost use Rattle.tg_law_settles.specs.Settles.{DrainedLinesAnswer, DrainedLinesFinish, SettleLinesFinish};

/// In the world before a script's `settle` line one client waits alone, with nothing on its way but its requests, as
/// right after its command; the world is ready for it; and its command is one that is proved to finish (`Waits`): it
/// waits for an append after which nothing is left, for the record of a transaction with reads, in a sync or a walk,
/// wherever that stands, for units that are asked to trim, or in a copy to a spare unit that runs and isn't past the
/// layout; or, within a larger bound, for whatever it is, with any command but a reconfiguration; and within the bound
/// of its command alone where nothing is trimmed, the log is long for the units that have trimmed, or, in a sync or a
/// walk of a command other than `rescue`, long for these and for its streams. Then the line ends the command, the
/// client tells a reply, and at most so many packets with it are delivered, whatever was trimmed and lost before.
pub fn settle_lines_finish()
    ensures { SettleLinesFinish }
{}

/// Whatever is on its way before the line, it begins with a drain. Where the client waits so in the world that the
/// drain leaves, the line ends the command, the client tells a reply after the drain, and at most so many packets
/// with it are delivered after it.
pub fn drained_lines_finish()
    ensures { DrainedLinesFinish }
{}

/// Where the drain ends a client's command that syncs and plays, the client has told a reply by then, and it is
/// idle after the line.
pub fn drained_lines_answer()
    ensures { DrainedLinesAnswer }
{}

/// The first `settle` line of `examples/past-views.script`, right after an update, is one for which
/// `settle_lines_finish` and `drained_lines_answer` ask no more than there is. It takes four deliveries with the
/// client, where eight are allowed, and its drain ends the update.
pub fn update_is_settled()
    ensures { UpdateIsSettled }
{}

/// In the world before the line a client waits alone, with nothing on its way, with a reconfiguration that is ready.
/// Then the line ends its command, and the client has told how: the layout is installed, another's was decided, or the
/// joining unit isn't whole. At most two packets with it are delivered for each unit, 64 for each layout server, and 22.
pub fn settle_lines_end()
    ensures { SettleLinesEnd }
{}

/// So of the world that the line's drain leaves, whatever is on its way before the line.
pub fn drained_lines_end()
    ensures { DrainedLinesEnd }
{}

/// In the world before the line a client waits alone, with nothing on its way, with a reconfiguration that is ready,
/// and stands at the epoch at which the change was given. (Right after the command its seals are on their way.) Then
/// the line ends its command, and the client has told how; or it stands at the next epoch, and waits for that layout's
/// sequencer. At most two packets with it are delivered for each unit, 64 for each layout server, and 22.
pub fn settle_lines_change()
    ensures { SettleLinesChange }
{}

/// So of the world that the line's drain leaves, whatever is on its way before the line.
pub fn drained_lines_change()
    ensures { DrainedLinesChange }
{}

/// Where it stands at the next epoch, all that is claimed of a reconfiguration holds of the line: the client tells that the
/// layout is installed, and the new sequencer serves then.
pub fn settle_lines_install()
    ensures { SettleLinesInstall }
{}

/// So of the world that the line's drain leaves.
pub fn drained_lines_install()
    ensures { DrainedLinesInstall }
{}

/// Where a client waits for its new layout's sequencer, which runs, as do the layout's units, and no node stands past
/// that layout's epoch, the line ends its command, and the client tells that the layout is installed; the sequencer
/// serves then.
pub fn settle_lines_scan()
    ensures { SettleLinesScan }
{}
