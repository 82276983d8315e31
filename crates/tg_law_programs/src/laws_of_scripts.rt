//! Scripts as runs: the world that a script makes is one to which lawful events lead.

ghost use Rattle.std.specs.Prelude.{◌<◌, length};
ghost use Rattle.tg_protocol.specs.Runs.{LawfulCommand};
ghost use Rattle.tg_any.specs.AllKinds.{all_kinds};
ghost use Rattle.tg_replay.specs.Runs.{IsScript};
ghost use Rattle.tg_replay.specs.Headline.{ScriptsReach};
ghost use Rattle.tg_law_programs.specs.Scripts.Long.{long_op, long_put, puts_long};
ghost use Rattle.tg_law_programs.specs.Scripts.Scripts.{EachScriptReaches};

/// The world of a script is one to which a run of lawful events comes, whether a limit stops the script or not.
pub fn scripts_reach()
    ensures within { ScriptsReach }
    ensures each { EachScriptReaches }
{}

/// A line has room for an op that has none in a page: the script whose one line puts it keeps the grammar, and its command
/// is lawful, since it is refused.
pub fn scripts_put_long_ops()
    ensures script { IsScript puts_long }
    ensures long { 4096 < length (all_kinds.spell long_op) }
    ensures lawful { LawfulCommand all_kinds long_put }
{}
