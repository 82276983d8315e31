//! The whole text.

ghost use Rattle.std.specs.Prelude.{IfOk};
ghost use Rattle.tg_picture.specs.Elements.{IsDrawn};

use crate::Picture;
use crate::svg::arrows::{put_arrows, put_labels};
use crate::svg::boxes::put_boxes;
use crate::svg::lanes::{put_bands, put_dots, put_lanes};
use crate::svg::places::{Places, places_of};
use crate::svg::replies::{put_events, put_replies};
use crate::svg::tags::{put_label, put_numbered, width_of};
use std::alloc::Global;
use tg_base::{List, NoMemory};

const STYLE: &[u8] = b"<style>
text{font:11px 'DejaVu Sans Mono',monospace;fill:#222;paint-order:stroke;stroke:#fff;stroke-width:3px;stroke-linejoin:round}
.name{font-weight:bold;font-size:13px;text-anchor:middle}
.event{fill:#555}
.reply,.left{text-anchor:end}
.reply{font-weight:bold;fill:#123a66}
.left,.right{fill:#555}
.banded{fill:#7a5b00;font-weight:bold}
.caption{font-weight:bold;font-size:13px}
.head,.said{stroke:none}
.head{font-weight:bold}
.lane{stroke:#999;stroke-width:1.5}
.dot{fill:#123a66}
.arrow{stroke-width:1.3;marker-end:url(#head)}
.client{stroke:#1f5fa8}
.seqr{stroke:#b0541a}
.unit{stroke:#2c7a3f}
.layout{stroke:#7a3fa0}
.again{stroke-dasharray:5 4}
.lost{stroke:#c22;stroke-width:1.3}
.cross{stroke:#c22;stroke-width:2}
.seal{fill:#f4c95d;fill-opacity:.75}
.decided{fill:#f4c95d;fill-opacity:.35}
.box{fill:#fff;stroke:#777}
.committed{fill:#dff3e1}
.aborted{fill:#f8dcdc}
.undecided{fill:#fdf3cf}
.decision{fill:#dfeaf8}
.checkpoint{fill:#ece2f5}
.junk{fill:#e4e4e4}
.trimmed{stroke-dasharray:4 3;fill-opacity:.45}
</style>
<defs><marker id=\"head\" viewBox=\"0 0 8 8\" refX=\"7.5\" refY=\"4\" markerWidth=\"7\" markerHeight=\"7\" orient=\"auto\"><path d=\"M0 1L8 4L0 7z\" fill=\"#444\"/></marker></defs>
<rect width=\"100%\" height=\"100%\" fill=\"#fff\"/>
";

/// The text of an SVG of a picture. An `Err` is want of memory.
#[tactic(auto, using(crate::proofs::Drawn::drawn))]
pub fn draw(alloc: Global, picture: &Picture) -> Result<List<u8>, NoMemory>
    ensures { IfOk result (IsDrawn picture.now) }
{
    let places = places_of(alloc, picture)?;
    let below = below_arrows(alloc, picture, &places)?;
    let above = above_arrows(alloc, picture, &places)?;
    let beside = beside_replies(alloc, picture, &places)?;
    let width = places.width.max(width_of_notes(picture));
    let top = places.bottom.saturating_add(48);
    let mut body = List::new(alloc);
    body.extend(below.as_slice())?;
    put_arrows(&places, picture.arrows.as_slice(), &mut body)?;
    body.extend(above.as_slice())?;
    put_replies(&places, picture.replies.as_slice(), &mut body)?;
    body.extend(beside.as_slice())?;
    let y = put_boxes(alloc, picture.boxes.as_slice(), top, width, &mut body)?;
    let notes = notes_of(alloc, picture, y)?;
    let opening = opening_of(alloc, width, end_of(picture, y))?;
    let mut text = List::new(alloc);
    text.extend(opening.as_slice())?;
    text.extend(body.as_slice())?;
    text.extend(notes.as_slice())?;
    text.extend(b"</svg>\n")?;
    Ok(text)
}

// What stands below the arrows: bands and lanes.
fn below_arrows(alloc: Global, picture: &Picture, places: &Places) -> Result<List<u8>, NoMemory> {
    let mut text = List::new(alloc);
    put_bands(alloc, places, picture.bands.as_slice(), &mut text)?;
    put_lanes(places, picture.lanes.as_slice(), &mut text)?;
    Ok(text)
}

// What stands over them: dots, and the labels of arrows.
fn above_arrows(alloc: Global, picture: &Picture, places: &Places) -> Result<List<u8>, NoMemory> {
    let mut text = List::new(alloc);
    put_dots(places, picture.moments.as_slice(), &mut text)?;
    put_labels(places, picture.arrows.as_slice(), &mut text)?;
    Ok(text)
}

// The event lines, and the log's caption.
fn beside_replies(alloc: Global, picture: &Picture, places: &Places) -> Result<List<u8>, NoMemory> {
    let mut text = List::new(alloc);
    put_events(places, picture.moments.as_slice(), &mut text)?;
    let y = places.bottom.saturating_add(34);
    let caption: &[u8] = if picture.boxes.is_empty() {
        b"Log: no position is written"
    } else {
        b"Log"
    };
    put_label(b"caption", (12, y), caption, NOTE, b"", &mut text)?;
    Ok(text)
}

// How high a note is.
const NOTE_ROW: u64 = 16;

// The notes, from a height on.
fn notes_of(alloc: Global, picture: &Picture, top: u64) -> Result<List<u8>, NoMemory> {
    let mut text = List::new(alloc);
    let mut y = top;
    for note in picture.notes.as_slice() {
        y = y.saturating_add(NOTE_ROW);
        put_label(b"event", (12, y), note.as_slice(), NOTE, b"", &mut text)?;
    }
    Ok(text)
}

// Where a picture ends whose notes begin at a height.
fn end_of(picture: &Picture, top: u64) -> u64 {
    let notes = NOTE_ROW.saturating_mul(picture.notes.len() as u64);
    top.saturating_add(notes).saturating_add(14)
}

// The beginning, for a picture of this size.
fn opening_of(alloc: Global, width: u64, height: u64) -> Result<List<u8>, NoMemory> {
    let mut text = List::new(alloc);
    text.extend(b"<svg xmlns=\"http://www.w3.org/2000/svg\"")?;
    put_numbered(b"width", width, &mut text)?;
    put_numbered(b"height", height, &mut text)?;
    text.extend(b">\n")?;
    text.extend(STYLE)?;
    Ok(text)
}

// How many letters of a note fit.
const NOTE: usize = 160;

// How wide the widest note is, with a margin.
fn width_of_notes(picture: &Picture) -> u64 {
    let mut widest = 560;
    for note in picture.notes.as_slice() {
        widest = width_of(note.as_slice(), NOTE)
            .saturating_add(24)
            .max(widest);
    }
    widest
}
