//! The headline of every script and of every live run: what is told in its world holds, as in that of each run.

ghost use Rattle.tg_law_programs.specs.Headline.Headline.{EachLiveHolds, EachScriptHolds};

/// What is told holds in the world of each script, whether a limit stops it or not: that world is one to which a run of lawful events comes.
pub fn scripts_hold()
    ensures { EachScriptHolds }
{}

/// And of each live run, whatever the link hands over: its recording is a script, whose world is the live run's.
pub fn lives_hold()
    ensures { EachLiveHolds }
{}
