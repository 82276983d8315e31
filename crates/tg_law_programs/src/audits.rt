//! What an audit says of scripts and of live runs.

ghost use Rattle.tg_law_programs.specs.Transcripts.Auditing.{EachAudited, EachLiveAudited};

/// What is told in the world of a script, whether a limit stops it or not, is judged legal.
pub fn audits_say_legal()
    ensures { EachAudited }
{}

/// What is told in the world of a live run, whatever the link hands over and wherever a limit stops it, is a transcript, and judged
/// legal.
pub fn live_audits_say_legal()
    ensures { EachLiveAudited }
{}
