//! Arrows.

ghost use Rattle.std.specs.Prelude.{◌≡◌, ◌++◌, OnOk};
ghost use Rattle.std.specs.List.{flat_map};
ghost use Rattle.tg_picture.specs.Elements as seen;
ghost use Rattle.tg_picture.specs.Elements.{arrow_text, arrow_class, again_class, course_text};

use crate::svg::places::{LABEL, Places};
use crate::svg::tags::{put_cross, put_label, put_line, put_title};
use crate::{Arrow, Ending};
use tg_base::{List, NoMemory, Role};

/// Puts an element for each arrow: its line, and a cross where it ends by a loss.
pub fn put_arrows(places: &Places, arrows: &[Arrow], out: &mut List<u8>) -> Result<(), NoMemory>
    ensures { OnOk result (out.new ≡ out.old ++ flat_map (arrow_text places.now) arrows.now) }
{
    for arrow in arrows {
        put_arrow(places, arrow, out)?;
    }
    Ok(())
}

#[tactic(auto, unfolding(crate::specs::Elements::arrow_text))]
fn put_arrow(places: &Places, arrow: &Arrow, out: &mut List<u8>) -> Result<(), NoMemory>
    ensures { OnOk result (out.new ≡ out.old ++ arrow_text places.now arrow.now) }
{
    out.extend(b"<g>")?;
    put_title(arrow.whole.as_slice(), out)?;
    put_course(
        arrow.course.ending,
        arrow.course.from.role,
        begin_of(places, arrow),
        end_of(places, arrow),
        out,
    )?;
    out.extend(b"</g>\n")
}

// Puts a line, and a cross at its end where it is lost.
fn put_course(
    ending: Ending,
    role: Role,
    from: (u64, u64),
    to: (u64, u64),
    out: &mut List<u8>,
) -> Result<(), NoMemory>
    ensures { OnOk result (out.new ≡ out.old ++ course_text ending role from to) }
{
    match ending {
        Ending::First => put_line(class_of(role), from, to, out),
        Ending::Again => put_line(again_of(role), from, to, out),
        Ending::Lost => {
            put_line(b"lost", from, to, out)?;
            put_cross(to, out)
        }
    }
}

/// Puts the labels of arrows, each beside the arrow's end.
pub fn put_labels(places: &Places, arrows: &[Arrow], out: &mut List<u8>) -> Result<(), NoMemory> {
    for arrow in arrows {
        let (class, at) = spot_of(places, arrow);
        put_label(
            class,
            at,
            arrow.label.as_slice(),
            LABEL,
            arrow.whole.as_slice(),
            out,
        )?;
    }
    Ok(())
}

// Where an arrow's label stands: at a client's lane below the arrow, since replies stand on the other side, and else beyond
// the arrow's end.
fn spot_of(places: &Places, arrow: &Arrow) -> (&'static [u8], (u64, u64)) {
    let from = places.lane(arrow.course.from);
    let (x, y) = end_of(places, arrow);
    match arrow.course.to.role {
        Role::Client => (b"right", (x.saturating_add(10), y.saturating_add(13))),
        _ => {
            if from <= x {
                (b"right", (x.saturating_add(9), y.saturating_add(4)))
            } else {
                (b"left", (x.saturating_sub(9), y.saturating_add(4)))
            }
        }
    }
}

// Where an arrow begins.
fn begin_of(places: &Places, arrow: &Arrow) -> (u64, u64)
    ensures { result ≡ seen.begin_of places.now arrow.now }
{
    (
        places.lane(arrow.course.from),
        places.row(arrow.course.sent_in),
    )
}

// Where an arrow ends: at its node's lane, or half way where it is lost.
fn end_of(places: &Places, arrow: &Arrow) -> (u64, u64)
    ensures { result ≡ seen.end_of places.now arrow.now }
{
    let from = places.lane(arrow.course.from);
    let to = places.lane(arrow.course.to);
    let y = places.row(arrow.course.ends_in);
    match arrow.course.ending {
        Ending::Lost => (from / 2 + to / 2, y),
        Ending::First | Ending::Again => (to, y),
    }
}

// How an arrow is drawn, by the role of the node that sent it.
fn class_of(role: Role) -> &'static [u8]
    ensures { result.now ≡ arrow_class role }
{
    match role {
        Role::Client => b"arrow client",
        Role::Seqr => b"arrow seqr",
        Role::Unit => b"arrow unit",
        Role::Layout => b"arrow layout",
    }
}

// The same of a repeat.
fn again_of(role: Role) -> &'static [u8]
    ensures { result.now ≡ again_class role }
{
    match role {
        Role::Client => b"arrow client again",
        Role::Seqr => b"arrow seqr again",
        Role::Unit => b"arrow unit again",
        Role::Layout => b"arrow layout again",
    }
}
