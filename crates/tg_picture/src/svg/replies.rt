//! Replies and the words of event lines.

ghost use Rattle.std.specs.Prelude.{◌≡◌, ◌++◌, OnOk};
ghost use Rattle.tg_picture.specs.Elements as seen;
ghost use Rattle.tg_picture.specs.Elements.{below_in, reply_text, replies_text};

use crate::svg::places::{EVENT, Places};
use crate::svg::tags::put_label;
use crate::{Moment, Reply};
use tg_base::{List, NoMemory, NodeId, Role};

/// How many letters of a reply fit.
pub const REPLY: usize = 44;

/// The words of a reply's line that its place doesn't tell: those after its event and its client.
pub fn words_of(line: &[u8]) -> &[u8]
    ensures { result.now ≡ seen.words_of line.now }
{
    let line = without_feed(line);
    after_space(after_space(line))
}

// A line without its last letter, the line feed.
fn without_feed(line: &[u8]) -> &[u8]
    ensures { result.now ≡ seen.without_feed line.now }
{
    match line {
        [] => line,
        [front @ .., _] => front,
    }
}

// What follows the first space.
#[tactic(auto, unfolding(crate::specs::Elements::after_space))]
fn after_space(text: &[u8]) -> &[u8]
    ensures { result.now ≡ seen.after_space text.now }
{
    match text {
        [] => text,
        [b' ', rest @ ..] => rest,
        [_, rest @ ..] => after_space(rest),
    }
}

/// Puts the replies at the left of their clients' lanes, those of one step below one another.
#[tactic(auto, unfolding(crate::specs::Elements::replies_text))]
pub fn put_replies(places: &Places, replies: &[Reply], out: &mut List<u8>) -> Result<(), NoMemory>
    ensures { OnOk result (out.new ≡ out.old ++ replies_text places.now 0 0 replies.now) }
{
    let mut step = 0;
    let mut below = 0;
    for reply in replies {
        below = below_in(step, below, reply.step);
        put_reply(places, below, reply, out)?;
        step = reply.step;
        below = below.saturating_add(14);
    }
    Ok(())
}

// How far below its step's row a reply stands: below those of the same step.
fn below_in(step: u64, below: u64, next: u64) -> u64
    ensures { result ≡ below_in step below next }
{
    if next == step { below } else { 0 }
}

#[tactic(auto, unfolding(crate::specs::Elements::reply_text))]
fn put_reply(places: &Places, below: u64, reply: &Reply, out: &mut List<u8>) -> Result<(), NoMemory>
    ensures { OnOk result (out.new ≡ out.old ++ reply_text places.now below reply.now) }
{
    let lane = places.lane(NodeId {
        role: Role::Client,
        num: reply.client,
    });
    let row = places.row(reply.step);
    put_label(
        b"reply",
        (
            lane.saturating_sub(10),
            row.saturating_add(below).saturating_add(4),
        ),
        words_of(reply.line.as_slice()),
        REPLY,
        without_feed(reply.line.as_slice()),
        out,
    )
}

/// Puts the words of the event lines at the left of the first step of each.
pub fn put_events(places: &Places, moments: &[Moment], out: &mut List<u8>) -> Result<(), NoMemory> {
    let mut step = places.first;
    for moment in moments {
        if let Some(text) = &moment.begins {
            let y = places.row(step).saturating_add(4);
            put_label(
                b"event",
                (12, y),
                text.as_slice(),
                EVENT,
                text.as_slice(),
                out,
            )?;
        }
        step = step.saturating_add(1);
    }
    Ok(())
}
