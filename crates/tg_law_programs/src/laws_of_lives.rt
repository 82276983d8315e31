//! Live runs as scripts: what a live run records is a script, whose world lawful events make.

ghost use Rattle.tg_live.specs.Headline.{LivesReach};
ghost use Rattle.tg_law_programs.specs.Lives.Lives.{EachLiveReaches};

/// The recording of a live run is a script, whatever the link hands over: each of its lines keeps the grammar, and a packet
/// that is delivered was sent. Its world is the live run's, and one to which a run of lawful events comes. So it is where a
/// limit has stopped the live run.
pub fn lives_reach()
    ensures within { LivesReach }
    ensures each { EachLiveReaches }
{}
