//! Commands finish, in every run of every cluster. A client waits alone (`IsAlone` in specs/Finish/Alone.antt):
//! nothing is on its way, or its requests alone are, as right after its command. The latest layout's units and
//! sequencer, and the client, run and stand in it. Then a settling ends the command, the client tells a reply, and
//! few packets with it are delivered until then. Where anything else is on its way, this is said of the world that
//! the settling's first drain leaves (`drains_come_first`, `drains_are_runs`), or the drain ends the command
//! (`drains_answer`).
//!
//! Proved for a command that waits for an append after which nothing is left to do (of a transaction without reads,
//! a decision record, a checkpoint or a mark), from wherever the append stands; and for `ask`, `fate` and `ask-at`
//! whose sync waits for its first answer, where nothing is trimmed (`NothingTrimmed` in specs/Finish/Asks.antt). Three
//! conditions on a world are premises: `Granted` in specs/Finish/Granted.antt. Where an append stands is a premise too: `AppendStands` in
//! specs/Finish/Appends.antt. In the store all these hold (`laws_of_store`). That the next position is unwritten,
//! and that a sequencer names positions below it alone, is proved (`tg_law_headline::laws_of_issues`).

ghost use Rattle.tg_kind.specs.Of.{meaning_of};
ghost use Rattle.tg_law_finish.specs.Finish.Anywhere.{ReadyClientsWork};
ghost use Rattle.tg_law_finish.specs.Finish.Drains.{DrainsAnswer, DrainsAreRuns, DrainsComeFirst};
ghost use Rattle.tg_law_finish.specs.Finish.Laws.{AppendAnswered, AppendInTime, AskAnswered, AskInTime, DeliveriesTakeTurns, EndsAreTold, RepliesAreTold};
ghost use Rattle.tg_law_finish.specs.Finish.Walks.{StreamsFew};
ghost use Rattle.tg_protocol.specs.Runs.{Always};

use tg_kind::Registry;

/// A client that waits for an append alone is answered, within four deliveries for each unit of the longest chain, two
/// for each layout server, and two more. Conditions: the client waits alone in a world which is ready for it; where
/// its append stands (`WaitsForAppend`); and of units and the sequencer, `Granted`.
pub fn appends_are_answered<K: Registry>()
    ensures { Always (meaning_of K.Registry) (AppendAnswered (meaning_of K.Registry)) }
{}

/// So it is answered within the bound of its command.
pub fn appends_are_answered_in_time<K: Registry>()
    ensures { Always (meaning_of K.Registry) (AppendInTime (meaning_of K.Registry)) }
{}

/// A client whose `ask`, `fate` or `ask-at` still waits for its sync's first answer is answered, within two
/// deliveries for each unit of the longest chain and one more, at each position and once more, and two for each
/// layout server. Conditions: the client waits alone in a world which is ready for it; `Granted`; and nothing is
/// trimmed.
pub fn asks_are_answered<K: Registry>()
    ensures { Always (meaning_of K.Registry) (AskAnswered (meaning_of K.Registry)) }
{}

/// So it is answered within the bound of its command.
pub fn asks_are_answered_in_time<K: Registry>()
    ensures { Always (meaning_of K.Registry) (AskInTime (meaning_of K.Registry)) }
{}

/// In any world, where a settling ends a client's command that plays, the client has told something.
pub fn ends_are_told<K: Registry>()
    ensures { EndsAreTold (meaning_of K.Registry) }
{}

/// In each world of a run it has told a reply: no mere mark of a transaction's beginning, of a write, or of an end
/// that is accepted.
pub fn replies_are_told<K: Registry>()
    ensures { Always (meaning_of K.Registry) (RepliesAreTold (meaning_of K.Registry)) }
{}

/// In any world a settling is one of the world that its first drain leaves; and unless a limit stops it, nothing is
/// on its way in that world.
pub fn drains_come_first<K: Registry>()
    ensures { DrainsComeFirst (meaning_of K.Registry) }
{}

/// The drained world of a run's world is a later one: so the laws of every run, and of each later world, hold of it.
pub fn drains_are_runs<K: Registry>()
    ensures { DrainsAreRuns (meaning_of K.Registry) }
{}

/// In each world of a run, where a settling's first drain ends a client's command that plays, the client has told a
/// reply by then, and it is idle when the world has settled.
pub fn drains_answer<K: Registry>()
    ensures { Always (meaning_of K.Registry) (DrainsAnswer (meaning_of K.Registry)) }
{}

/// In any world the delivery of the oldest packet takes it out, and puts what a node sends then behind the others.
pub fn deliveries_take_turns<K: Registry>()
    ensures { DeliveriesTakeTurns (meaning_of K.Registry) }
{}

/// A command walks 128 streams at most.
pub fn streams_are_few<K: Registry>()
    ensures { Always (meaning_of K.Registry) (StreamsFew (meaning_of K.Registry)) }
{}

/// In a world that is ready for it, where a copy's spare unit runs and isn't past the layout, a client that waits with a
/// command other than `reconf` has a task in hand, and doesn't wait for a newer layout. One that did would have been told
/// of it by a node that it asked, which is past the client's layout, or a sequencer that is fenced in it.
pub fn ready_clients_work<K: Registry>()
    ensures { Always (meaning_of K.Registry) (ReadyClientsWork (meaning_of K.Registry)) }
{}
