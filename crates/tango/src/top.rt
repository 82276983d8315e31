//! The top call: what the program does with words, a source, a sink and a link.

ghost use Rattle.std.specs.Prelude.{◌≡◌, ◌≢◌, ◌≤◌, ◌⊎◌, ℕ, true, false, None, Some, map, IfSome, string_bytes};
ghost use Rattle.tg_base.specs.declared.fault.Clause.{Clause};
ghost use Rattle.tg_base.specs.declared.fault.Which.{Which};
ghost use Rattle.tg_base.specs.declared.ids.NodeId.{NodeId};
ghost use Rattle.tg_io.specs.Bytes.{Takes};
ghost use Rattle.tg_io.specs.Faults.{Rose, StaysSure};
ghost use Rattle.tg_io.specs.declared.status.Status.TheVariants.{Done, Illegal, Words, Script as AtLine, ReadFault, WriteFault, LinkFault, Limit, NoMemory as OutOfMemory};
ghost use Rattle.tango_words.specs.Forms.{form_of};
ghost use Rattle.tango_words.specs.declared.forms.Form.TheVariants.{Replay, Live, Node, Bench, Audit};
ghost use Rattle.tg_replay.specs.Runs.{IsOutsideAt, Script, IsScript, IsWithin, Tells, FirstOutside, PassesLimit, Replayed, Refused, Limited, run_of};
ghost use Rattle.tg_replay.specs.Outcomes.{Told, IsCutShort, IsOfReplay};
ghost use Rattle.tg_lines.specs.Feeds.{NoneOutside};
ghost use Rattle.tg_lines.specs.Lines.{lines};
ghost use Rattle.tg_live.specs.Breaks.{IsDone};
ghost use Rattle.tg_live.specs.Outcomes as lives;
ghost use Rattle.tg_live.specs.Outcomes.{IsOfLive};
ghost use Rattle.tg_live.specs.Scripts as recordings;
ghost use Rattle.tg_live.specs.Scripts.{IsLiveScript, PassesNone};
ghost use Rattle.tg_live.specs.Sends.{carried};
ghost use Rattle.tg_live.specs.Stages.{over};
ghost use Rattle.tg_node.specs.Stages.{seen};
ghost use Rattle.tg_node.specs.Texts as nodes;
ghost use Rattle.tg_node.specs.Texts.{IsText, IsOfNode};
ghost use Rattle.tg_bench.specs.Loads.{load, summary, IsFront, IsOfLoad};
ghost use Rattle.tg_trace.specs.Reading.{IsFirstOutside};
ghost use Rattle.tg_trace.specs.Transcripts.{rendered, is_transcript};
ghost use Rattle.tg_trace.specs.declared.transcript.Transcript.{Transcript};
ghost use Rattle.tg_audit.specs.declared.verdict.Verdict.TheVariants as verdict;
ghost use Rattle.tg_audit_run.specs.Verdicts.{judged, status_of};
ghost use Rattle.tg_audit_run.specs.Outcomes as verdicts;
ghost use Rattle.tg_audit_run.specs.Outcomes.{IsToldOf, IsRefused, IsSilent, IsOfJudge};
ghost use Rattle.tg_law_programs.specs.Headline.Headline.{ScriptHolds};
ghost use Rattle.tg_law_programs.specs.Sessions.Nodes.{NodesHold};
ghost use Rattle.tango.specs.Forms.{is_over_link, is_reading};
ghost use Rattle.tango.specs.Holding.{LimitedTruly, LiveLimitedTruly, LiveRefusedTruly, LivedTruly, RefusedTruly, ReplayedTruly};
ghost use Rattle.tango.specs.Holding.{LimitedLegally, LiveLimitedLegally, LiveRefusedLegally, LivedLegally, RefusedLegally, ReplayedLegally};
ghost use Rattle.tango.specs.Lawful.{IsLegalText, IsIllegalText};

use std::alloc::Global;
use tango_words::{Form, read_form};
use tg_any::AnyKind;
use tg_audit_run::judge;
use tg_base::NoMemory;
use tg_bench::bench;
use tg_io::{Link, Sink, Source, Status};
use tg_law_programs::laws_of_headline::{lives_hold, scripts_hold};
use tg_law_programs::{audits_say_legal, live_audits_say_legal, nodes_hold, transcripts_fit};
use tg_law_verdicts::verdicts_are_true;
use tg_live::run;
use tg_node::node;
use tg_replay::replay;

/// Runs the program. `words` are those after its name. A replay and a live run read a script from the source, a node its
/// lines and an audit a transcript; each writes to the sink. Packets of a live run and of a node go over the link.
pub fn tango<S: Source, K: Sink, L: Link>(
    alloc: Global,
    words: &[String],
    source: &mut S,
    sink: &mut K,
    link: &mut L,
) -> Status
    // Words that are no form are told so, and no others.
    ensures words { result ≡ Words → form_of (map string_bytes words.now) ≡ None }
    ensures no_form { form_of (map string_bytes words.now) ≡ None → (result ≡ Words) ⊎ (result ≡ OutOfMemory) }
    ensures no_output { form_of (map string_bytes words.now) ≡ None → K.written sink.new ≡ K.written sink.old }
    // No count of faults falls, and each rises only where its fault, or want of memory, is answered.
    ensures read_later { S.faults source.old ≤ S.faults source.new }
    ensures write_later { K.faults sink.old ≤ K.faults sink.new }
    ensures link_later { L.faults link.old ≤ L.faults link.new }
    ensures read_still { result ≢ ReadFault → result ≢ OutOfMemory → S.faults source.new ≡ S.faults source.old }
    ensures write_still { result ≢ WriteFault → result ≢ OutOfMemory → K.faults sink.new ≡ K.faults sink.old }
    ensures link_still { result ≢ LinkFault → result ≢ OutOfMemory → L.faults link.new ≡ L.faults link.old }
    // A replay: at `Done` the text was read to its end, and what was written is the transcript of the world of its steps.
    ensures done { form_of (map string_bytes words.now) ≡ Some Replay → result ≡ Done → Told (S.left source.old) (K.written sink.old) (K.written sink.new) Replayed }
    // A line is refused that is the first outside, after the transcript of the events before it.
    ensures script { form_of (map string_bytes words.now) ≡ Some Replay → (line : ℕ) → result ≡ AtLine line → Told (S.left source.old) (K.written sink.old) (K.written sink.new) (λ text out. Refused text line out) }
    // A limit stops a run, after the transcript of the steps before it.
    ensures limit { form_of (map string_bytes words.now) ≡ Some Replay → (which : Which) → result ≡ Limit which → Told (S.left source.old) (K.written sink.old) (K.written sink.new) (λ text out. Limited text which out) }
    // Whatever losses, repeats, reorderings, stops and reconfigurations the script says, what is printed is of a run that holds: it
    // is the replies and the one history of a world to which lawful events lead; the replies are those of the plain machine over
    // that history, and in order; and what they tell of the log is true of it. So it is as far as a run came.
    ensures done_truly { form_of (map string_bytes words.now) ≡ Some Replay → result ≡ Done → Told (S.left source.old) (K.written sink.old) (K.written sink.new) ReplayedTruly }
    ensures script_truly { form_of (map string_bytes words.now) ≡ Some Replay → (line : ℕ) → result ≡ AtLine line → Told (S.left source.old) (K.written sink.old) (K.written sink.new) (λ text out. RefusedTruly text line out) }
    ensures limit_truly { form_of (map string_bytes words.now) ≡ Some Replay → (which : Which) → result ≡ Limit which → Told (S.left source.old) (K.written sink.old) (K.written sink.new) (λ text out. LimitedTruly text which out) }
    // An audit of what is printed says legal: it is a transcript, in which the rules of a legal run find no fault.
    ensures done_legally { form_of (map string_bytes words.now) ≡ Some Replay → result ≡ Done → Told (S.left source.old) (K.written sink.old) (K.written sink.new) ReplayedLegally }
    ensures script_legally { form_of (map string_bytes words.now) ≡ Some Replay → (line : ℕ) → result ≡ AtLine line → Told (S.left source.old) (K.written sink.old) (K.written sink.new) (λ text out. RefusedLegally text line out) }
    ensures limit_legally { form_of (map string_bytes words.now) ≡ Some Replay → (which : Which) → result ≡ Limit which → Told (S.left source.old) (K.written sink.old) (K.written sink.new) (λ text out. LimitedLegally text which out) }
    // What is written at a fault is a front of a transcript, or nothing.
    ensures cut_short { form_of (map string_bytes words.now) ≡ Some Replay → (result ≡ WriteFault) ⊎ (result ≡ OutOfMemory) → Told (S.left source.old) (K.written sink.old) (K.written sink.new) IsCutShort }
    ensures silent { form_of (map string_bytes words.now) ≡ Some Replay → result ≡ ReadFault → K.written sink.new ≡ K.written sink.old }
    ensures ways { form_of (map string_bytes words.now) ≡ Some Replay → IsOfReplay result }
    // Without a fault each text has its status, unless memory runs out.
    ensures complete { form_of (map string_bytes words.now) ≡ Some Replay → (Rose (S.faults source.old) (S.faults source.new) → ⊥) → (Rose (K.faults sink.old) (K.faults sink.new) → ⊥) →
        IfSome (S.left source.old) (λ text. (s : Script) → IsScript s → IsWithin s → Tells text s → (result ≡ Done) ⊎ (result ≡ OutOfMemory)) }
    ensures refuses { form_of (map string_bytes words.now) ≡ Some Replay → (Rose (S.faults source.old) (S.faults source.new) → ⊥) → (Rose (K.faults sink.old) (K.faults sink.new) → ⊥) →
        IfSome (S.left source.old) (λ text. (line : ℕ) (s : Script) → FirstOutside text line s → (result ≡ AtLine line) ⊎ (result ≡ OutOfMemory)) }
    ensures limits { form_of (map string_bytes words.now) ≡ Some Replay → (Rose (S.faults source.old) (S.faults source.new) → ⊥) → (Rose (K.faults sink.old) (K.faults sink.new) → ⊥) →
        IfSome (S.left source.old) (λ text. (which : Which) (s : Script) → PassesLimit text which s → (result ≡ Limit which) ⊎ (result ≡ OutOfMemory)) }
    // A read fault is answered only where none of the lines that came whole before it is outside.
    ensures first { form_of (map string_bytes words.now) ≡ Some Replay → result ≡ ReadFault → IfSome (S.left source.old) (λ text. NoneOutside text (S.left source.new) (IsOutsideAt text)) }
    // A live run: at `Done` the text was read to its end, and a live run of its script took the answers that the link
    // handed over and sent the packets of its world, in the order of one list in which a packet goes out when its step is
    // made; and it was printed: its recording, whose world is the run's, and its transcript.
    ensures live_done { form_of (map string_bytes words.now) ≡ Some Live → result ≡ Done → Told (S.left source.old) (K.written sink.old) (K.written sink.new) (recordings.Replayed (over (L.handed link.old) (L.handed link.new) (carried (L.sent link.old) (L.acts link.old)) (carried (L.sent link.new) (L.acts link.new)))) }
    // A line is refused that is the first outside, after the live run of the lines before it.
    ensures live_script { form_of (map string_bytes words.now) ≡ Some Live → (line : ℕ) → result ≡ AtLine line → Told (S.left source.old) (K.written sink.old) (K.written sink.new) (λ text out. recordings.Refused (over (L.handed link.old) (L.handed link.new) (carried (L.sent link.old) (L.acts link.old)) (carried (L.sent link.new) (L.acts link.new))) text line out) }
    // A limit stops a run, which is printed as far as it came.
    ensures live_limit { form_of (map string_bytes words.now) ≡ Some Live → (which : Which) → result ≡ Limit which → Told (S.left source.old) (K.written sink.old) (K.written sink.new) (λ text out. recordings.Limited (over (L.handed link.old) (L.handed link.new) (carried (L.sent link.old) (L.acts link.old)) (carried (L.sent link.new) (L.acts link.new))) text which out) }
    // So is what a live run prints, whatever the link hands over: its recording is a script, whose world is the run's.
    ensures live_done_truly { form_of (map string_bytes words.now) ≡ Some Live → result ≡ Done → Told (S.left source.old) (K.written sink.old) (K.written sink.new) (LivedTruly (over (L.handed link.old) (L.handed link.new) (carried (L.sent link.old) (L.acts link.old)) (carried (L.sent link.new) (L.acts link.new)))) }
    ensures live_script_truly { form_of (map string_bytes words.now) ≡ Some Live → (line : ℕ) → result ≡ AtLine line → Told (S.left source.old) (K.written sink.old) (K.written sink.new) (λ text out. LiveRefusedTruly (over (L.handed link.old) (L.handed link.new) (carried (L.sent link.old) (L.acts link.old)) (carried (L.sent link.new) (L.acts link.new))) text line out) }
    ensures live_limit_truly { form_of (map string_bytes words.now) ≡ Some Live → (which : Which) → result ≡ Limit which → Told (S.left source.old) (K.written sink.old) (K.written sink.new) (λ text out. LiveLimitedTruly (over (L.handed link.old) (L.handed link.new) (carried (L.sent link.old) (L.acts link.old)) (carried (L.sent link.new) (L.acts link.new))) text which out) }
    // An audit says so of the transcript that a live run prints after its recording.
    ensures live_done_legally { form_of (map string_bytes words.now) ≡ Some Live → result ≡ Done → Told (S.left source.old) (K.written sink.old) (K.written sink.new) (LivedLegally (over (L.handed link.old) (L.handed link.new) (carried (L.sent link.old) (L.acts link.old)) (carried (L.sent link.new) (L.acts link.new)))) }
    ensures live_script_legally { form_of (map string_bytes words.now) ≡ Some Live → (line : ℕ) → result ≡ AtLine line → Told (S.left source.old) (K.written sink.old) (K.written sink.new) (λ text out. LiveRefusedLegally (over (L.handed link.old) (L.handed link.new) (carried (L.sent link.old) (L.acts link.old)) (carried (L.sent link.new) (L.acts link.new))) text line out) }
    ensures live_limit_legally { form_of (map string_bytes words.now) ≡ Some Live → (which : Which) → result ≡ Limit which → Told (S.left source.old) (K.written sink.old) (K.written sink.new) (λ text out. LiveLimitedLegally (over (L.handed link.old) (L.handed link.new) (carried (L.sent link.old) (L.acts link.old)) (carried (L.sent link.new) (L.acts link.new))) text which out) }
    // What is written at a fault is a front of what a run prints, or nothing.
    ensures live_cut_short { form_of (map string_bytes words.now) ≡ Some Live → (result ≡ WriteFault) ⊎ (result ≡ OutOfMemory) → Told (S.left source.old) (K.written sink.old) (K.written sink.new) (lives.IsCutShort (over (L.handed link.old) (L.handed link.new) (carried (L.sent link.old) (L.acts link.old)) (carried (L.sent link.new) (L.acts link.new)))) }
    ensures live_silent { form_of (map string_bytes words.now) ≡ Some Live → (result ≡ ReadFault) ⊎ (result ≡ LinkFault) → K.written sink.new ≡ K.written sink.old }
    // Whatever the status, a front was done with the link of what a live run does of lines with which the text begins, or
    // nothing.
    ensures live_acts { form_of (map string_bytes words.now) ≡ Some Live → IfSome (S.left source.old) (λ text. IsDone text (L.acts link.old) (L.acts link.new)) }
    ensures live_ways { form_of (map string_bytes words.now) ≡ Some Live → IsOfLive result }
    // A read fault is answered only where none of the lines that came whole before it is outside.
    ensures live_first { form_of (map string_bytes words.now) ≡ Some Live → result ≡ ReadFault → IfSome (S.left source.old) (λ text. NoneOutside text (S.left source.new) (recordings.IsOutsideAt text)) }
    // Without a fault the run of a text ends by it or by a limit, whatever the link tells, unless memory runs out.
    ensures live_ends { form_of (map string_bytes words.now) ≡ Some Live → (Rose (S.faults source.old) (S.faults source.new) → ⊥) → (Rose (K.faults sink.old) (K.faults sink.new) → ⊥) → (Rose (L.faults link.old) (L.faults link.new) → ⊥) →
        IfSome (S.left source.old) (λ text. (s : Script) → IsLiveScript s → Tells text s → lives.IsOrStops result Done) }
    ensures live_refuses_or_ends { form_of (map string_bytes words.now) ≡ Some Live → (Rose (S.faults source.old) (S.faults source.new) → ⊥) → (Rose (K.faults sink.old) (K.faults sink.new) → ⊥) → (Rose (L.faults link.old) (L.faults link.new) → ⊥) →
        IfSome (S.left source.old) (λ text. (line : ℕ) (before : Script) → recordings.FirstOutside text line before → lives.IsOrStops result (AtLine line)) }
    // Of a link that tells what it handed: each text has its status, since the answers say whether a limit is passed.
    ensures live_complete { form_of (map string_bytes words.now) ≡ Some Live → (Rose (S.faults source.old) (S.faults source.new) → ⊥) → (Rose (K.faults sink.old) (K.faults sink.new) → ⊥) → (Rose (L.faults link.old) (L.faults link.new) → ⊥) →
        IfSome (S.left source.old) (λ text. (s : Script) → IsLiveScript s → Tells text s → PassesNone (over (L.handed link.old) (L.handed link.new) (carried (L.sent link.old) (L.acts link.old)) (carried (L.sent link.new) (L.acts link.new))) text → (result ≡ Done) ⊎ (result ≡ OutOfMemory)) }
    ensures live_refuses { form_of (map string_bytes words.now) ≡ Some Live → (Rose (S.faults source.old) (S.faults source.new) → ⊥) → (Rose (K.faults sink.old) (K.faults sink.new) → ⊥) → (Rose (L.faults link.old) (L.faults link.new) → ⊥) →
        IfSome (S.left source.old) (λ text. (line : ℕ) (before : Script) → recordings.FirstOutside text line before → PassesNone (over (L.handed link.old) (L.handed link.new) (carried (L.sent link.old) (L.acts link.old)) (carried (L.sent link.new) (L.acts link.new))) text → (result ≡ AtLine line) ⊎ (result ≡ OutOfMemory)) }
    ensures live_limits { form_of (map string_bytes words.now) ≡ Some Live → (Rose (S.faults source.old) (S.faults source.new) → ⊥) → (Rose (K.faults sink.old) (K.faults sink.new) → ⊥) → (Rose (L.faults link.old) (L.faults link.new) → ⊥) →
        IfSome (S.left source.old) (λ text. IfSome (L.handed link.old) (λ handed. (which : Which) → recordings.PassesLimit (over (L.handed link.old) (L.handed link.new) (carried (L.sent link.old) (L.acts link.old)) (carried (L.sent link.new) (L.acts link.new))) text which → (result ≡ Limit which) ⊎ (result ≡ OutOfMemory))) }
    // A node: at `Done` the text was followed to its end: the packets of its session were sent, its waits took the answers
    // that were handed, in the order of one list in which a packet goes out when its step is made, and its replies were
    // written.
    ensures node_done { (id : NodeId) → form_of (map string_bytes words.now) ≡ Some (Node id) → result ≡ Done → nodes.Told (S.left source.old) (λ text. nodes.Followed text id (seen (L.sent link.old) (L.handed link.old) (L.acts link.old) (K.written sink.old)) (seen (L.sent link.new) (L.handed link.new) (L.acts link.new) (K.written sink.new))) }
    // A line is refused that is the first outside, after the session of the lines before it.
    ensures node_script { (id : NodeId) → form_of (map string_bytes words.now) ≡ Some (Node id) → (line : ℕ) → result ≡ AtLine line → nodes.Told (S.left source.old) (λ text. nodes.Refused text id line (seen (L.sent link.old) (L.handed link.old) (L.acts link.old) (K.written sink.old)) (seen (L.sent link.new) (L.handed link.new) (L.acts link.new) (K.written sink.new))) }
    // A limit stops a session, after the steps before it.
    ensures node_limit { (id : NodeId) → form_of (map string_bytes words.now) ≡ Some (Node id) → (which : Which) → result ≡ Limit which → nodes.Told (S.left source.old) (λ text. nodes.Limited text id which (seen (L.sent link.old) (L.handed link.old) (L.acts link.old) (K.written sink.old)) (seen (L.sent link.new) (L.handed link.new) (L.acts link.new) (K.written sink.new))) }
    // A read fault is answered only where none of the lines that came whole before it is outside.
    ensures node_first { (id : NodeId) → form_of (map string_bytes words.now) ≡ Some (Node id) → result ≡ ReadFault → nodes.Told (S.left source.old) (λ text. NoneOutside text (S.left source.new) (nodes.FirstOutside (lines text) id)) }
    // At a read fault the lines before it were followed whole, and nothing else was done.
    ensures node_read_cut { (id : NodeId) → form_of (map string_bytes words.now) ≡ Some (Node id) → result ≡ ReadFault → nodes.Told (S.left source.old) (λ text. nodes.IsCutBetween text id (seen (L.sent link.old) (L.handed link.old) (L.acts link.old) (K.written sink.old)) (seen (L.sent link.new) (L.handed link.new) (L.acts link.new) (K.written sink.new))) }
    // At a write fault the last line was done, with the answers that were handed, and of its replies a front was written.
    ensures node_write_cut { (id : NodeId) → form_of (map string_bytes words.now) ≡ Some (Node id) → result ≡ WriteFault → nodes.Told (S.left source.old) (λ text. nodes.IsCutInReplies text id (seen (L.sent link.old) (L.handed link.old) (L.acts link.old) (K.written sink.old)) (seen (L.sent link.new) (L.handed link.new) (L.acts link.new) (K.written sink.new))) }
    // At a link fault a front of what the last line does with the link was done, and none of its replies was written.
    ensures node_link_cut { (id : NodeId) → form_of (map string_bytes words.now) ≡ Some (Node id) → result ≡ LinkFault → nodes.Told (S.left source.old) (λ text. nodes.IsCutInLine text id (seen (L.sent link.old) (L.handed link.old) (L.acts link.old) (K.written sink.old)) (seen (L.sent link.new) (L.handed link.new) (L.acts link.new) (K.written sink.new))) }
    // Want of memory is one of the three.
    ensures node_memory_cut { (id : NodeId) → form_of (map string_bytes words.now) ≡ Some (Node id) → result ≡ OutOfMemory → nodes.Told (S.left source.old) (λ text. nodes.IsCutShort text id (seen (L.sent link.old) (L.handed link.old) (L.acts link.old) (K.written sink.old)) (seen (L.sent link.new) (L.handed link.new) (L.acts link.new) (K.written sink.new))) }
    ensures node_ways { (id : NodeId) → form_of (map string_bytes words.now) ≡ Some (Node id) → IsOfNode result }
    // Without a fault a session ends by its text or by a limit, whatever the link tells, unless memory runs out.
    ensures node_ends { (id : NodeId) → form_of (map string_bytes words.now) ≡ Some (Node id) → (Rose (S.faults source.old) (S.faults source.new) → ⊥) → (Rose (K.faults sink.old) (K.faults sink.new) → ⊥) → (Rose (L.faults link.old) (L.faults link.new) → ⊥) →
        nodes.Told (S.left source.old) (λ text. IsText text id → nodes.IsOrStops result Done) }
    ensures node_refuses_or_ends { (id : NodeId) → form_of (map string_bytes words.now) ≡ Some (Node id) → (Rose (S.faults source.old) (S.faults source.new) → ⊥) → (Rose (K.faults sink.old) (K.faults sink.new) → ⊥) → (Rose (L.faults link.old) (L.faults link.new) → ⊥) →
        nodes.Told (S.left source.old) (λ text. (line : ℕ) → nodes.FirstOutside (lines text) id line → nodes.IsOrStops result (AtLine line)) }
    // Of a link that tells what it handed: each text has its status, since the answers say whether a limit is passed.
    ensures node_complete { (id : NodeId) → form_of (map string_bytes words.now) ≡ Some (Node id) → (Rose (S.faults source.old) (S.faults source.new) → ⊥) → (Rose (K.faults sink.old) (K.faults sink.new) → ⊥) → (Rose (L.faults link.old) (L.faults link.new) → ⊥) →
        nodes.Told (S.left source.old) (λ text. IsText text id → nodes.IsWithin text id (L.handed link.old) (L.handed link.new) → (result ≡ Done) ⊎ (result ≡ OutOfMemory)) }
    ensures node_refuses { (id : NodeId) → form_of (map string_bytes words.now) ≡ Some (Node id) → (Rose (S.faults source.old) (S.faults source.new) → ⊥) → (Rose (K.faults sink.old) (K.faults sink.new) → ⊥) → (Rose (L.faults link.old) (L.faults link.new) → ⊥) →
        nodes.Told (S.left source.old) (λ text. (line : ℕ) → nodes.FirstOutside (lines text) id line → nodes.IsWithin text id (L.handed link.old) (L.handed link.new) → (result ≡ AtLine line) ⊎ (result ≡ OutOfMemory)) }
    ensures node_limits { (id : NodeId) → form_of (map string_bytes words.now) ≡ Some (Node id) → (Rose (S.faults source.old) (S.faults source.new) → ⊥) → (Rose (K.faults sink.old) (K.faults sink.new) → ⊥) → (Rose (L.faults link.old) (L.faults link.new) → ⊥) →
        nodes.Told (S.left source.old) (λ text. IfSome (L.handed link.old) (λ handed. (which : Which) → nodes.PassesLimit text id which (L.handed link.old) (L.handed link.new) → (result ≡ Limit which) ⊎ (result ≡ OutOfMemory))) }
    // Nodes that each do what their texts and links tell, as these clauses say of one, make a run that holds, in each order of their
    // steps that keeps each node's own and in which a packet is sent before it is taken.
    ensures nodes_truly { (id : NodeId) → form_of (map string_bytes words.now) ≡ Some (Node id) → (result ≡ Done) ⊎ ((which : Which) × (result ≡ Limit which)) → NodesHold }
    // A made load: its run is a replay's, and what is written is the summary of the world that it comes to, or of the steps before a limit.
    ensures load_done { (start count : ℕ) → form_of (map string_bytes words.now) ≡ Some (Bench start count) → result ≡ Done → IsWithin (load start count) × Takes (K.written sink.old) (summary (load start count)) (K.written sink.new) }
    ensures load_limit { (start count : ℕ) → form_of (map string_bytes words.now) ≡ Some (Bench start count) → (which : Which) → result ≡ Limit which → ((run_of (load start count)).stopped ≡ Some which) × Takes (K.written sink.old) (summary (load start count)) (K.written sink.new) }
    // So is that run: it is of a script, which holds.
    ensures load_truly { (start count : ℕ) → form_of (map string_bytes words.now) ≡ Some (Bench start count) → (result ≡ Done) ⊎ ((which : Which) × (result ≡ Limit which)) → ScriptHolds (load start count) }
    ensures load_cut_short { (start count : ℕ) → form_of (map string_bytes words.now) ≡ Some (Bench start count) → (result ≡ WriteFault) ⊎ (result ≡ OutOfMemory) → IsFront (load start count) (K.written sink.old) (K.written sink.new) }
    ensures load_ways { (start count : ℕ) → form_of (map string_bytes words.now) ≡ Some (Bench start count) → IsOfLoad result }
    ensures load_complete { (start count : ℕ) → form_of (map string_bytes words.now) ≡ Some (Bench start count) → (Rose (K.faults sink.old) (K.faults sink.new) → ⊥) → IsWithin (load start count) → (result ≡ Done) ⊎ (result ≡ OutOfMemory) }
    ensures load_limits { (start count : ℕ) → form_of (map string_bytes words.now) ≡ Some (Bench start count) → (Rose (K.faults sink.old) (K.faults sink.new) → ⊥) → (which : Which) → (run_of (load start count)).stopped ≡ Some which → (result ≡ Limit which) ⊎ (result ≡ OutOfMemory) }
    // An audit: the verdict on the transcript that the text is, and its line; a line that is the first outside is refused, and nothing is written.
    ensures legal { form_of (map string_bytes words.now) ≡ Some Audit → result ≡ Done → Told (S.left source.old) (K.written sink.old) (K.written sink.new) (IsToldOf verdict.Legal) }
    ensures illegal { form_of (map string_bytes words.now) ≡ Some Audit → (line : ℕ) (clause : Clause) → result ≡ Illegal line clause → Told (S.left source.old) (K.written sink.old) (K.written sink.new) (IsToldOf (verdict.Illegal line clause)) }
    ensures outside { form_of (map string_bytes words.now) ≡ Some Audit → (line : ℕ) → result ≡ AtLine line → Told (S.left source.old) (K.written sink.old) (K.written sink.new) (IsRefused line) }
    // So it says legal of a text exactly where the run that the text renders is legal.
    ensures lawful { form_of (map string_bytes words.now) ≡ Some Audit → result ≡ Done → Told (S.left source.old) (K.written sink.old) (K.written sink.new) IsLegalText }
    ensures unlawful { form_of (map string_bytes words.now) ≡ Some Audit → (line : ℕ) (clause : Clause) → result ≡ Illegal line clause → Told (S.left source.old) (K.written sink.old) (K.written sink.new) IsIllegalText }
    ensures verdict_cut_short { form_of (map string_bytes words.now) ≡ Some Audit → (result ≡ WriteFault) ⊎ (result ≡ OutOfMemory) → Told (S.left source.old) (K.written sink.old) (K.written sink.new) verdicts.IsCutShort }
    ensures verdict_silent { form_of (map string_bytes words.now) ≡ Some Audit → IsSilent result → K.written sink.new ≡ K.written sink.old }
    ensures verdict_ways { form_of (map string_bytes words.now) ≡ Some Audit → IsOfJudge result }
    ensures judges { form_of (map string_bytes words.now) ≡ Some Audit → (Rose (S.faults source.old) (S.faults source.new) → ⊥) → (Rose (K.faults sink.old) (K.faults sink.new) → ⊥) →
        IfSome (S.left source.old) (λ text. (t : Transcript) → is_transcript t ≡ true → text ≡ rendered t → (result ≡ status_of (judged t)) ⊎ (result ≡ OutOfMemory)) }
    ensures judges_outside { form_of (map string_bytes words.now) ≡ Some Audit → (Rose (S.faults source.old) (S.faults source.new) → ⊥) → (Rose (K.faults sink.old) (K.faults sink.new) → ⊥) →
        IfSome (S.left source.old) (λ text. (line : ℕ) → IsFirstOutside text line → (result ≡ AtLine line) ⊎ (result ≡ OutOfMemory)) }
    // A fault has its cause in a count that rose.
    ensures read_fault { result ≡ ReadFault → Rose (S.faults source.old) (S.faults source.new) }
    ensures write_fault { result ≡ WriteFault → Rose (K.faults sink.old) (K.faults sink.new) }
    ensures link_fault { result ≡ LinkFault → Rose (L.faults link.old) (L.faults link.new) }
    // What is sure never to fail stays so.
    ensures source { StaysSure (S.sure source.old) (S.sure source.new) (S.faults source.old) (S.faults source.new) }
    ensures sink { StaysSure (K.sure sink.old) (K.sure sink.new) (K.faults sink.old) (K.faults sink.new) }
    ensures link { StaysSure (L.sure link.old) (L.sure link.new) (L.faults link.old) (L.faults link.new) }
    // The other forms leave the link alone, and so do words that are none.
    ensures alone { is_over_link (form_of (map string_bytes words.now)) ≡ false → link.new ≡ link.old }
    // A load is made and reads nothing, and so do words that are no form.
    ensures unread { is_reading (form_of (map string_bytes words.now)) ≡ false → source.new ≡ source.old }
{
    match read_form(alloc, words) {
        Ok(Some(Form::Replay)) => {
            scripts_hold();
            transcripts_fit();
            audits_say_legal();
            replay(alloc, source, sink)
        }
        Ok(Some(Form::Live)) => {
            lives_hold();
            live_audits_say_legal();
            run(alloc, source, sink, link)
        }
        Ok(Some(Form::Node(id))) => {
            nodes_hold();
            node(alloc, id, source, sink, link)
        }
        Ok(Some(Form::Bench { start, count })) => {
            scripts_hold();
            bench(alloc, start, count, sink)
        }
        Ok(Some(Form::Audit)) => {
            verdicts_are_true::<AnyKind>();
            judge(alloc, source, sink)
        }
        Ok(None) => Status::Words,
        Err(NoMemory) => Status::NoMemory,
    }
}
