//! Commands of the store finish, in every run over the store's own kinds. A client waits alone: nothing is on its
//! way, or its requests alone are, as right after its command (`IsAlone` in specs/Finish/Alone.antt). The latest
//! layout's units and sequencer, and the client, run and stand in it. Then a settling ends the command, the client
//! tells a reply, and at most so many packets with it are delivered as its bound says (`Finishes` of tg_protocol).
//! Where anything else is on its way, take the world that the settling's first drain leaves (`drains_come_first`,
//! `drains_are_runs`, `drains_answer`).
//!
//! Of the world it is asked that it is ready, and of a copy that its spare unit is: what `Granted` asks
//! (specs/Finish/Granted.antt), and where an append stands, is so in each run of the store. Fewer deliveries are taken
//! where nothing is trimmed (`asks_finish`, `makes_finish`, `calm_commands_finish`), or the log is long for what is
//! (`few_streams_finish`, `long_commands_finish`); these ask for that too.

ghost use Rattle.tg_any.specs.AllKinds.{all_kinds};
ghost use Rattle.tg_law_finish.specs.Finish.Anywhere.{CalmCommand, CommandWalks, FewStreams, LongCommand};
ghost use Rattle.tg_law_finish.specs.Finish.Copies.{CopyFinishes};
ghost use Rattle.tg_law_finish.specs.Finish.Ends.{EndFinishes, RecordFinishes};
ghost use Rattle.tg_law_finish.specs.Finish.Makes.{MakeFinishes};
ghost use Rattle.tg_law_finish.specs.Finish.Rescues.{RescueWalks};
ghost use Rattle.tg_law_finish.specs.Finish.Store.{AppendFinishes, AskFinishes};
ghost use Rattle.tg_law_finish.specs.Finish.Trims.{TrimFinishes};
ghost use Rattle.tg_law_finish.specs.Finish.Walks.{AskWalks, MakeWalks};
ghost use Rattle.tg_protocol.specs.Runs.{Always};

/// A client that waits for an append after which nothing is left to do is answered, wherever the append stands, and
/// whatever is trimmed: of a transaction without reads, a decision record, a checkpoint or a mark.
pub fn appends_finish()
    ensures { Always all_kinds (AppendFinishes all_kinds) }
{}

/// A client whose `ask`, `fate` or `ask-at` waits in a sync or in a walk, wherever that stands, is answered within the
/// bound of its command where nothing is trimmed. Where no position was issued the sync probes.
pub fn asks_finish()
    ensures { Always all_kinds (AskFinishes all_kinds) }
{}

/// So is one whose `decide`, `checkpoint` or `forget` does: once all is walked it is refused, or appends a decision
/// record, a checkpoint or a mark. So is one whose `end` has appended its record, and syncs to judge it.
pub fn makes_finish()
    ensures { Always all_kinds (MakeFinishes all_kinds) }
{}

/// An `ask`, `fate` or `ask-at` that waits in a sync or in a walk, wherever that stands, is answered whatever is
/// trimmed, and whether or not the sequencer has issued a position since its layout's start. Its walks may meet trims,
/// find the tail stale and sync again, and give up the kept view and start over: in so many passes as there are units
/// that have trimmed anything, and two.
pub fn asks_finish_anyway()
    ensures { Always all_kinds (AskWalks all_kinds) }
{}

/// So is a `decide`, `checkpoint` or `forget`, and an `end` whose record is appended.
pub fn makes_finish_anyway()
    ensures { Always all_kinds (MakeWalks all_kinds) }
{}

/// So is a `rescue`, however many streams join those that it walks: within the bound of its command too, and 129
/// times what trims may cost.
pub fn rescues_finish()
    ensures { Always all_kinds (RescueWalks all_kinds) }
{}

/// So is an `end` whose record still asks for its token: the record goes down its chain, or the log is full; then
/// the client syncs, walks what it hosts, and tells the outcome, or appends a decision record first.
pub fn ends_finish()
    ensures { Always all_kinds (EndFinishes all_kinds) }
{}

/// So is one wherever the append of its record stands: the page may be on its way down the chain, or the position
/// of a token of an older layout may be settled. Where another cell is there, another token is asked for.
pub fn records_finish()
    ensures { Always all_kinds (RecordFinishes all_kinds) }
{}

/// So is a `trim`, in a sync, in a walk, or once units are asked to trim: of the floor that the directory has at the
/// tail, which is less than 2^62, so that the client takes their answers.
pub fn trims_finish()
    ensures { Always all_kinds (TrimFinishes all_kinds) }
{}

/// So is a `copy`, wherever it stands, where its spare unit runs and isn't past the latest layout: within the bound of
/// its command. It goes on to the end of the stripe, and once more from the first position that the spare lacks then.
pub fn copies_finish()
    ensures { Always all_kinds (CopyFinishes all_kinds) }
{}

/// So each command but `reconf` is answered wherever it stands, a copy where its spare unit runs and isn't past the latest
/// layout: within the bound of its command, and 129 times what trims may cost walks over 128 streams.
pub fn commands_finish()
    ensures { Always all_kinds (CommandWalks all_kinds) }
{}

/// Where nothing is trimmed, each is answered within the bound of its command alone: of `trim`, `rescue`, `copy`, and
/// an `end` whose record is still being appended, too.
pub fn calm_commands_finish()
    ensures { Always all_kinds (CalmCommand all_kinds) }
{}

/// So is one other than `rescue` that waits in a sync or in a walk, where its streams and the units that have trimmed anything
/// are few for the log: three more than its streams, times two more than such units, is no more than six times the next
/// position, and 23.
pub fn few_streams_finish()
    ensures { Always all_kinds (FewStreams all_kinds) }
{}

/// And so where the log is long: the sequencer's next position is no less than 23 times the number of units that have trimmed
/// anything, and 46 more.
pub fn long_commands_finish()
    ensures { Always all_kinds (LongCommand all_kinds) }
{}
