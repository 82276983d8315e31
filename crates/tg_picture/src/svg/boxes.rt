//! The log below the lanes.

ghost use Rattle.std.specs.Prelude.{◌≡◌, ◌++◌, IfOk, OnOk};
ghost use Rattle.tg_picture.specs.Elements as seen;
ghost use Rattle.tg_picture.specs.Elements.{box_text, boxes_text, box_rows, place_of, next_place, head_text, whole_text, standing_word, box_class};

use crate::svg::tags::{LETTER, open_rect, put_label, put_title};
use crate::{LogBox, Standing};
use std::alloc::Global;
use tg_any::put_number;
use tg_base::{List, NoMemory};

// How many letters of a line fit in a box.
const LINE: usize = 21;

const WIDTH: u64 = 160;

const HEIGHT: u64 = 62;

const GAP: u64 = 10;

const LEFT: u64 = 12;

/// Puts a box for each position of the log, from a height on, side by side as far as the width allows; the height below
/// the last one.
#[tactic(auto, unfolding(crate::specs::Elements::boxes_text))]
pub fn put_boxes(
    alloc: Global,
    boxes: &[LogBox],
    top: u64,
    width: u64,
    out: &mut List<u8>,
) -> Result<u64, NoMemory>
    ensures { OnOk result (out.new ≡ out.old ++ boxes_text width (12, top) boxes.now) }
{
    let mut at = (LEFT, top);
    for log_box in boxes {
        at = place_of(width, at);
        put_box(alloc, log_box, at, out)?;
        at = next_place(at);
    }
    Ok(at.1.saturating_add(HEIGHT + GAP))
}

// Where a box stands: at the left of the next row where it would reach over the width.
fn place_of(width: u64, at: (u64, u64)) -> (u64, u64)
    ensures { result ≡ place_of width at }
{
    let (x, y) = at;
    if x > LEFT && x.saturating_add(WIDTH + GAP) > width {
        (LEFT, y.saturating_add(HEIGHT + GAP))
    } else {
        at
    }
}

// The place beside a box.
fn next_place(at: (u64, u64)) -> (u64, u64)
    ensures { result ≡ next_place at }
{
    let (x, y) = at;
    (x.saturating_add(WIDTH + GAP), y)
}

#[tactic(auto, unfolding(crate::specs::Elements::box_text))]
fn put_box(
    alloc: Global,
    log_box: &LogBox,
    at: (u64, u64),
    out: &mut List<u8>,
) -> Result<(), NoMemory>
    ensures { OnOk result (out.new ≡ out.old ++ box_text at log_box.now) }
{
    let head = head_of(alloc, log_box)?;
    let whole = whole_of(alloc, head.as_slice(), log_box)?;
    out.extend(b"<g>")?;
    put_title(whole.as_slice(), out)?;
    open_rect(
        class_of(log_box.standing, log_box.trimmed),
        at,
        (WIDTH, HEIGHT),
        out,
    )?;
    out.extend(b"/>\n")?;
    put_rows(at, head.as_slice(), log_box, out)?;
    out.extend(b"</g>\n")
}

// The position, and what came of it.
#[tactic(auto, unfolding(crate::specs::Elements::head_text))]
fn head_of(alloc: Global, log_box: &LogBox) -> Result<List<u8>, NoMemory>
    ensures { IfOk result (λ text. text ≡ head_text log_box.now) }
{
    let mut head = List::new(alloc);
    put_number(log_box.pos, &mut head)?;
    head.extend(b" ")?;
    head.extend(word_of(log_box.standing))?;
    if log_box.trimmed {
        head.extend(b", trimmed")?;
    }
    Ok(head)
}

// All that is said of a position.
#[tactic(auto, unfolding(crate::specs::Elements::whole_text))]
fn whole_of(alloc: Global, head: &[u8], log_box: &LogBox) -> Result<List<u8>, NoMemory>
    ensures { IfOk result (λ text. text ≡ whole_text head.now log_box.now) }
{
    let mut whole = List::new(alloc);
    whole.extend(head)?;
    whole.extend(b": ")?;
    whole.extend(log_box.by.as_slice())?;
    whole.extend(b": ")?;
    whole.extend(log_box.says.as_slice())?;
    Ok(whole)
}

// Puts the lines of a box.
#[tactic(auto, unfolding(crate::specs::Elements::box_rows))]
fn put_rows(
    at: (u64, u64),
    head: &[u8],
    log_box: &LogBox,
    out: &mut List<u8>,
) -> Result<(), NoMemory>
    ensures { OnOk result (out.new ≡ out.old ++ box_rows at head.now log_box.now) }
{
    put_row(at, 16, b"head", head, out)?;
    put_row(at, 34, b"said", log_box.by.as_slice(), out)?;
    put_row(at, 50, b"said", log_box.says.as_slice(), out)
}

// Puts a line of a box.
fn put_row(
    at: (u64, u64),
    below: u64,
    class: &[u8],
    text: &[u8],
    out: &mut List<u8>,
) -> Result<(), NoMemory>
    ensures { OnOk result (out.new ≡ out.old ++ seen.box_row at below class.now text.now) }
{
    let (x, y) = at;
    put_label(
        class,
        (x.saturating_add(LETTER), y.saturating_add(below)),
        text,
        LINE,
        b"",
        out,
    )
}

fn word_of(standing: Standing) -> &'static [u8]
    ensures { result.now ≡ standing_word standing }
{
    match standing {
        Standing::Committed => b"committed",
        Standing::Aborted => b"aborted",
        Standing::Undecided => b"undecided",
        Standing::Decision => b"decision",
        Standing::Checkpoint => b"checkpoint",
        Standing::Junk => b"junk",
    }
}

fn class_of(standing: Standing, trimmed: bool) -> &'static [u8]
    ensures { result.now ≡ box_class standing trimmed }
{
    match (standing, trimmed) {
        (Standing::Committed, false) => b"box committed",
        (Standing::Aborted, false) => b"box aborted",
        (Standing::Undecided, false) => b"box undecided",
        (Standing::Decision, false) => b"box decision",
        (Standing::Checkpoint, false) => b"box checkpoint",
        (Standing::Junk, false) => b"box junk",
        (Standing::Committed, true) => b"box committed trimmed",
        (Standing::Aborted, true) => b"box aborted trimmed",
        (Standing::Undecided, true) => b"box undecided trimmed",
        (Standing::Decision, true) => b"box decision trimmed",
        (Standing::Checkpoint, true) => b"box checkpoint trimmed",
        (Standing::Junk, true) => b"box junk trimmed",
    }
}
