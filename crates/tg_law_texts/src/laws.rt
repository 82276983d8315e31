//! What is true of small texts, and what isn't of others.

ghost use Rattle.std.specs.Prelude.{◌≡◌, ℕ, List, true, false};
ghost use Rattle.tg_trace.specs.Transcripts.{is_transcript};
ghost use Rattle.tg_any.specs.AllKinds.{all_kinds};
ghost use Rattle.tg_replay.specs.Runs.{world_of};
ghost use Rattle.tg_replay.specs.Headline.{IsReached, IsTrueRun, TrueReplay, told_in};
ghost use Rattle.tg_live.specs.Headline.{IsScripted, TrueLive};
ghost use Rattle.tg_law_programs.specs.Sessions.Holding.{MakesARun};
ghost use Rattle.tg_law_texts.specs.Texts.{cluster, begins, begins_nowhere, late_reply, script, script_of_a_stranger, transcript_text, another_reply, no_reply, adding_script, adding_transcript, another_op, no_history, live_script, link, unasked, recording_text, drain_recorded, lived, unrecorded, busy_link, adding_recording, AllTranscriptsFit};
ghost use Rattle.tg_law_texts.specs.Sessions.{Sessions, Hold, one_begins, in_order, idle, takes_unsent, stranger_begins};

/// A script in which a client begins a transaction comes to the world of a run of which the headline holds, and its
/// transcript keeps the grammar. Under a header that is none it comes to no run's, and a reply past all numbers has no line.
pub fn a_script_reaches()
    ensures reached { IsReached begins }
    ensures true_run { IsTrueRun begins }
    ensures fits { is_transcript (told_in cluster (world_of begins)) ≡ true }
    ensures nowhere { IsReached begins_nowhere → ⊥ }
    ensures late { is_transcript (told_in cluster late_reply) ≡ false }
{}

/// A script of 2^64 drains and a command tells a reply past all numbers of transcripts, since a drain of nothing makes no
/// step. So that the transcript of each script keeps the grammar is claimed of fewer lines alone.
pub fn transcripts_want_few_lines()
    ensures { AllTranscriptsFit → ⊥ }
{}

/// The first script's text and the transcript of its world are a true replay. With the reply of another transaction, or
/// without the reply, they aren't, and a text that names an undeclared client is none with anything that is written.
pub fn a_replay_is_true()
    ensures holds { TrueReplay script transcript_text }
    ensures changed { TrueReplay script another_reply → ⊥ }
    ensures left_out { TrueReplay script no_reply → ⊥ }
    ensures stranger { (out : List ℕ) → TrueReplay script_of_a_stranger out → ⊥ }
{}

/// So are a script in which a client adds to a counter and its transaction commits, and the transcript of its world. With
/// another op in the history, or without it, they aren't.
pub fn a_replayed_commit_is_true()
    ensures holds { TrueReplay adding_script adding_transcript }
    ensures changed { TrueReplay adding_script another_op → ⊥ }
    ensures left_out { TrueReplay adding_script no_history → ⊥ }
{}

/// The first script with a drain, over a link that hands nothing over, and its recording, in which no drain is, are a true
/// live run. With the drain in the recording, or over a link that wasn't asked, they aren't, and with nothing recorded the
/// recording's world isn't the run's.
pub fn a_live_run_is_true()
    ensures holds { TrueLive link live_script recording_text }
    ensures changed { TrueLive link live_script drain_recorded → ⊥ }
    ensures not_asked { TrueLive unasked live_script recording_text → ⊥ }
    ensures scripted { IsScripted cluster lived }
    ensures left_out { IsScripted cluster unrecorded → ⊥ }
{}

/// So are the script whose transaction commits, over a link that is sent its packets and hands each over once, and its
/// recording. Over a link that hands nothing over they aren't.
pub fn a_live_commit_is_true()
    ensures holds { TrueLive busy_link adding_script adding_recording }
    ensures unhanded { TrueLive link adding_script adding_recording → ⊥ }
{}

/// Sessions of which one is that command meet what `SessionsHold` asks, and make a run that holds. Where the client's
/// session lacks the command, a unit takes a packet that nobody sent, or an undeclared client takes the command, they make
/// none.
pub fn sessions_hold()
    ensures holds { Hold cluster one_begins in_order }
    ensures left_out { MakesARun all_kinds cluster idle in_order → ⊥ }
    ensures unsent { (sessions : Sessions) → MakesARun all_kinds cluster sessions takes_unsent → ⊥ }
    ensures stranger { (sessions : Sessions) → MakesARun all_kinds cluster sessions stranger_begins → ⊥ }
{}
