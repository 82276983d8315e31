//! The picture of a recording.

ghost use Rattle.std.specs.Prelude.{◌≡◌, ◌++◌, map, option_copied, slice_get, IfOk, OnOk};
ghost use Rattle.tg_picture.specs.Bands.{bands};
ghost use Rattle.tg_picture.specs.Courses.{courses};
ghost use Rattle.tg_picture.specs.Replies.{tellings};
ghost use Rattle.tg_picture.specs.Standings.{decided, gone_below, said, said_of};
ghost use Rattle.tg_protocol.specs.Layouts.{first_layout};
ghost use Rattle.tg_protocol.specs.Worlds as seen;
ghost use Rattle.tg_world.specs.Kept.{KeepsWorld};
ghost use Rattle.tg_any.specs.AllKinds.{all_kinds};
ghost use Rattle.tg_trace.specs.Transcripts.{reply_text};
ghost use Rattle.space_time.specs.Pictures.{Says, copied, course_of, mark_of, marks};

use crate::cut::Cut;
use crate::recording::Recording;
use std::alloc::Global;
use tg_any::{AnyKind, put_number};
use tg_base::{Cluster, List, NoMemory, NodeId, Packet, Role, Which};
use tg_chain::header_layout;
use tg_picture::{
    Arrow, Band, Course, Epochs, Happening, LogBox, Moment, Picture, Reply, Step, Telling, bands,
    boxes_of, courses, gone_below, node_of, put_label, put_packet, tellings,
};
use tg_replay::End;
use tg_trace::{AnyMark, print_mark};
use tg_world::World;

/// The picture of the steps that a cut leaves of a recording, and of the log after its last step. An `Err` is want of
/// memory.
pub fn picture_of(
    alloc: Global,
    recording: &Recording,
    end: End,
    cut: Cut,
) -> Result<Picture, NoMemory>
    ensures { (w : seen.World all_kinds) → KeepsWorld all_kinds recording.now.run.world w → IfOk result (Says recording.now.run.cluster recording.now.steps cut w) }
{
    let steps = recording.steps.as_slice();
    let world = &recording.run.world;
    let (from, upto) = cut.range(steps);
    let packets = packets_of(alloc, world)?;
    let arrows = arrows_of(alloc, packets.as_slice(), steps, from, upto)?;
    let replies = replies_of(alloc, steps, world.trace(), from, upto)?;
    let bands = bands_of(
        alloc,
        &recording.run.cluster,
        packets.as_slice(),
        steps,
        from,
        upto,
    )?;
    let boxes = log_of(alloc, world, packets.as_slice())?;
    let Frame {
        lanes,
        moments,
        notes,
    } = frame_of(alloc, recording, end, from, upto)?;
    Ok(Picture {
        lanes,
        first: from as u64,
        moments,
        arrows,
        replies,
        bands,
        boxes,
        notes,
    })
}

// What of a picture no clause speaks of.
#[derive(Drop)]
struct Frame {
    lanes: List<(NodeId, Option<u64>)>,
    moments: List<Moment>,
    notes: List<List<u8>>,
}

fn frame_of(
    alloc: Global,
    recording: &Recording,
    end: End,
    from: usize,
    upto: usize,
) -> Result<Frame, NoMemory> {
    let steps = recording.steps.as_slice();
    let lanes = lanes_of(alloc, &recording.run.cluster, steps)?;
    let moments = moments_of(alloc, recording.lines.as_slice(), steps, from, upto)?;
    let notes = notes_of(alloc, recording, end, from, upto)?;
    Ok(Frame {
        lanes,
        moments,
        notes,
    })
}

// All packets that were sent.
fn packets_of(alloc: Global, world: &World<AnyKind>) -> Result<List<Packet>, NoMemory>
    ensures { (w : seen.World all_kinds) → KeepsWorld all_kinds world.now w → IfOk result (λ ps. ps ≡ w.packets) }
{
    let mut packets = List::new(alloc);
    for number in 0..world.sent() {
        put_copy(world.packet(number), &mut packets)?;
    }
    Ok(packets)
}

fn put_copy(packet: Option<&Packet>, packets: &mut List<Packet>) -> Result<(), NoMemory>
    ensures { OnOk result (packets.new ≡ packets.old ++ copied (option_copied packet.entry)) }
{
    match packet {
        None => Ok(()),
        Some(packet) => packets.push(packet.copy()?),
    }
}

// The boxes of the log.
fn log_of(
    alloc: Global,
    world: &World<AnyKind>,
    packets: &[Packet],
) -> Result<List<LogBox>, NoMemory>
    ensures { (w : seen.World all_kinds) → KeepsWorld all_kinds world.now w → IfOk result (λ bs. map said bs ≡ map (said_of (seen.history all_kinds w) (decided (seen.log all_kinds w)) (gone_below packets.now)) (seen.log all_kinds w)) }
{
    let log = world.log(alloc)?;
    let history = world.history(alloc)?;
    boxes_of(
        alloc,
        log.as_slice(),
        history.as_slice(),
        gone_below(packets),
    )
}

// The seals and the new epochs.
fn bands_of(
    alloc: Global,
    cluster: &Cluster,
    packets: &[Packet],
    steps: &[Step],
    from: usize,
    upto: usize,
) -> Result<List<Band>, NoMemory>
    ensures { IfOk result (λ bs. bs ≡ bands (first_layout cluster.now) cluster.now.layouts packets.now steps.now from upto) }
{
    let first = header_layout(alloc, cluster)?;
    let epochs = Epochs {
        first: &first,
        layouts: cluster.layouts,
        packets,
    };
    bands(alloc, &epochs, steps, from, upto)
}

// The nodes from left to right, each with the step in which it stopped.
fn lanes_of(
    alloc: Global,
    cluster: &Cluster,
    steps: &[Step],
) -> Result<List<(NodeId, Option<u64>)>, NoMemory> {
    let mut lanes = List::new(alloc);
    put_lanes(Role::Client, cluster.clients, steps, &mut lanes)?;
    put_lanes(Role::Seqr, cluster.seqs, steps, &mut lanes)?;
    put_lanes(Role::Unit, cluster.units, steps, &mut lanes)?;
    put_lanes(Role::Layout, cluster.layouts, steps, &mut lanes)?;
    Ok(lanes)
}

fn put_lanes(
    role: Role,
    count: u16,
    steps: &[Step],
    lanes: &mut List<(NodeId, Option<u64>)>,
) -> Result<(), NoMemory> {
    for num in 0..count {
        let node = NodeId { role, num };
        lanes.push((node, stop_of(steps, node)))?;
    }
    Ok(())
}

// The first step in which a node stopped.
fn stop_of(steps: &[Step], node: NodeId) -> Option<u64> {
    let mut at = 0;
    for step in steps {
        if has_stopped(step.happening, node) {
            return Some(at);
        }
        at = at.saturating_add(1);
    }
    None
}

fn has_stopped(happening: Happening, node: NodeId) -> bool {
    match happening {
        Happening::Stopped { node: stopped } => stopped.is_same(node),
        _ => false,
    }
}

// The steps that are drawn.
fn moments_of(
    alloc: Global,
    lines: &[List<u8>],
    steps: &[Step],
    from: usize,
    upto: usize,
) -> Result<List<Moment>, NoMemory> {
    let mut moments = List::new(alloc);
    for at in from..upto {
        if let Some(step) = steps.get(at) {
            moments.push(moment_of(alloc, lines, step_before(steps, at), step)?)?;
        }
    }
    Ok(moments)
}

fn step_before(steps: &[Step], at: usize) -> Option<&Step> {
    if at == 0 {
        return None;
    }
    steps.get(at - 1)
}

fn moment_of(
    alloc: Global,
    lines: &[List<u8>],
    before: Option<&Step>,
    step: &Step,
) -> Result<Moment, NoMemory> {
    let (line, sent, told) = match before {
        None => (0, 0, 0),
        Some(before) => (before.line, before.sent, before.told),
    };
    let begins = begun_line(alloc, lines, line, step.line)?;
    let brings = step.sent != sent || step.told != told;
    Ok(Moment {
        line: step.line,
        shows: begins.is_some() || brings || !is_tick(step.happening),
        begins,
        node: node_of(step.happening),
        replies: step.told.saturating_sub(told),
    })
}

// The text of the line to which a step belongs, unless the step before it belongs to it too.
fn begun_line(
    alloc: Global,
    lines: &[List<u8>],
    before: u64,
    line: u64,
) -> Result<Option<List<u8>>, NoMemory> {
    if line == before {
        return Ok(None);
    }
    Ok(Some(line_text(alloc, lines, line)?))
}

fn is_tick(happening: Happening) -> bool {
    match happening {
        Happening::Ticked { .. } => true,
        _ => false,
    }
}

// The number and the words of an event line.
fn line_text(alloc: Global, lines: &[List<u8>], line: u64) -> Result<List<u8>, NoMemory> {
    let mut text = List::new(alloc);
    put_number(line, &mut text)?;
    text.push(b' ')?;
    if line > 0
        && let Some(words) = lines.get((line - 1) as usize)
    {
        text.extend(words.as_slice())?;
    }
    Ok(text)
}

// One arrow for each course.
fn arrows_of(
    alloc: Global,
    packets: &[Packet],
    steps: &[Step],
    from: usize,
    upto: usize,
) -> Result<List<Arrow>, NoMemory>
    ensures { IfOk result (λ arrows. map course_of arrows ≡ courses packets.now steps.now from upto) }
{
    let found = courses(alloc, packets, steps, from, upto)?;
    let mut arrows = List::new(alloc);
    put_arrows(alloc, packets, found.as_slice(), &mut arrows)?;
    Ok(arrows)
}

fn put_arrows(
    alloc: Global,
    packets: &[Packet],
    found: &[Course],
    arrows: &mut List<Arrow>,
) -> Result<(), NoMemory>
    ensures { OnOk result (map course_of arrows.new ≡ map course_of arrows.old ++ found.now) }
{
    for course in found {
        arrows.push(arrow_of(alloc, packets, *course)?)?;
    }
    Ok(())
}

fn arrow_of(alloc: Global, packets: &[Packet], course: Course) -> Result<Arrow, NoMemory>
    ensures { IfOk result (λ arrow. arrow.course ≡ course) }
{
    let mut label = List::new(alloc);
    let mut whole = List::new(alloc);
    if let Some(packet) = packets.get(course.packet as usize) {
        put_label(&packet.msg, &mut label)?;
        put_packet(alloc, course.packet, packet, &mut whole)?;
    }
    Ok(Arrow {
        course,
        label,
        whole,
    })
}

// The marks of the replies that were told in the steps from one on and below another.
fn replies_of(
    alloc: Global,
    steps: &[Step],
    trace: &[AnyMark],
    from: usize,
    upto: usize,
) -> Result<List<Reply>, NoMemory>
    ensures { IfOk result (λ replies. replies ≡ marks (tellings steps.now from upto) trace.now) }
{
    let places = tellings(alloc, steps, from, upto)?;
    let mut replies = List::new(alloc);
    put_replies(alloc, places.as_slice(), trace, &mut replies)?;
    Ok(replies)
}

fn put_replies(
    alloc: Global,
    places: &[Telling],
    trace: &[AnyMark],
    replies: &mut List<Reply>,
) -> Result<(), NoMemory>
    ensures { OnOk result (replies.new ≡ replies.old ++ marks places.now trace.now) }
{
    for place in places {
        put_place(alloc, *place, trace, replies)?;
    }
    Ok(())
}

// Puts the mark of the reply that was told at a place.
fn put_place(
    alloc: Global,
    place: Telling,
    trace: &[AnyMark],
    replies: &mut List<Reply>,
) -> Result<(), NoMemory>
    ensures { OnOk result (replies.new ≡ replies.old ++ mark_of place (slice_get trace.now place.reply)) }
{
    put_mark(alloc, place, trace.get(place.reply as usize), replies)
}

// Puts a reply's mark, with its line in the transcript.
fn put_mark(
    alloc: Global,
    place: Telling,
    mark: Option<&AnyMark>,
    replies: &mut List<Reply>,
) -> Result<(), NoMemory>
    ensures { OnOk result (replies.new ≡ replies.old ++ mark_of place (option_copied mark.entry)) }
{
    match mark {
        None => Ok(()),
        Some(mark) => replies.push(reply_of(alloc, place.step, mark)?),
    }
}

fn reply_of(alloc: Global, step: u64, mark: &AnyMark) -> Result<Reply, NoMemory>
    ensures { IfOk result (λ reply. reply ≡ record { step = step; client = mark.now.client; line = reply_text mark.now }) }
{
    let mut line = List::new(alloc);
    print_mark(alloc, mark, &mut line)?;
    Ok(Reply {
        step,
        client: mark.client,
        line,
    })
}

// What was left out, and how the run ended.
fn notes_of(
    alloc: Global,
    recording: &Recording,
    end: End,
    from: usize,
    upto: usize,
) -> Result<List<List<u8>>, NoMemory> {
    let mut notes = List::new(alloc);
    if from > 0 || upto < recording.steps.len() {
        notes.push(left_out_note(alloc, recording, from, upto)?)?;
    }
    match end {
        End::Whole => {}
        End::Outside { line } => notes.push(outside_note(alloc, line)?)?,
        End::Limited { which } => notes.push(limit_note(alloc, which)?)?,
    }
    Ok(notes)
}

fn outside_note(alloc: Global, line: u64) -> Result<List<u8>, NoMemory> {
    let mut note = List::new(alloc);
    note.extend(b"Line ")?;
    put_number(line, &mut note)?;
    note.extend(
        b" of the script is outside its grammar, or can't come there; what is drawn is the run before it.",
    )?;
    Ok(note)
}

fn limit_note(alloc: Global, which: Which) -> Result<List<u8>, NoMemory> {
    let mut note = List::new(alloc);
    note.extend(b"A limit stopped the run: ")?;
    note.extend(match which {
        Which::Steps => b"steps.",
        Which::Bytes => b"bytes of packets.",
        Which::Datagrams => b"datagrams.",
    })?;
    Ok(note)
}

fn left_out_note(
    alloc: Global,
    recording: &Recording,
    from: usize,
    upto: usize,
) -> Result<List<u8>, NoMemory> {
    let mut note = List::new(alloc);
    put_left_out(recording, from, upto, &mut note)?;
    Ok(note)
}

fn put_left_out(
    recording: &Recording,
    from: usize,
    upto: usize,
    note: &mut List<u8>,
) -> Result<(), NoMemory> {
    let steps = recording.steps.as_slice();
    note.extend(b"Drawn are ")?;
    put_number(upto.saturating_sub(from), note)?;
    note.extend(b" of ")?;
    put_number(steps.len(), note)?;
    note.extend(b" steps")?;
    put_span(steps, from, upto, note)?;
    note.extend(b" of ")?;
    put_number(recording.lines.len(), note)?;
    note.extend(b". The others are left out; the log is that at the end of the run.")
}

// The event lines of the first step that is drawn and of the last, where any is.
fn put_span(steps: &[Step], from: usize, upto: usize, note: &mut List<u8>) -> Result<(), NoMemory> {
    if from < upto
        && let Some(first) = steps.get(from)
        && let Some(last) = steps.get(upto - 1)
    {
        note.extend(b", of the event lines ")?;
        put_number(first.line, note)?;
        note.extend(b" to ")?;
        put_number(last.line, note)?;
    }
    Ok(())
}
