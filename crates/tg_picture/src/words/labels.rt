//! Short labels of messages.

use tg_any::put_number;
use tg_base::{Cell, List, Msg, NoMemory};

/// Puts a message's short label: its word, and the number that it is most about.
pub fn put_label(msg: &Msg, out: &mut List<u8>) -> Result<(), NoMemory> {
    let (word, number) = label_of(msg);
    out.extend(word)?;
    match number {
        None => Ok(()),
        Some(number) => {
            out.push(b' ')?;
            put_number(number, out)
        }
    }
}

// A message's word, and the number that it is most about.
fn label_of(msg: &Msg) -> (&'static [u8], Option<u64>) {
    match msg {
        Msg::Read { pos, .. } => (b"read", Some(*pos)),
        Msg::Write { pos, .. } => (b"write", Some(*pos)),
        Msg::Fill { pos, .. } => (b"fill", Some(*pos)),
        Msg::Copy { pos, .. } => (b"copy", Some(*pos)),
        Msg::Has { hi, .. } => (b"has below", Some(*hi)),
        Msg::Seal { epoch } => (b"seal", Some(*epoch)),
        Msg::Trim { below, .. } => (b"trim", Some(*below)),
        Msg::Held => (b"held", None),
        Msg::Taken { cell } => (taken(cell), None),
        Msg::Unwritten => (b"unwritten", None),
        Msg::Gone { below } => (b"gone", Some(*below)),
        Msg::Fenced { epoch } => (b"fenced", Some(*epoch)),
        Msg::Sealed { epoch, .. } => (b"sealed", Some(*epoch)),
        Msg::Missing { pos } => (b"missing", Some(*pos)),
        Msg::Whole => (b"whole", None),
        Msg::Prepare { epoch, .. } => (b"prepare", Some(*epoch)),
        Msg::Accept { epoch, .. } => (b"accept", Some(*epoch)),
        Msg::Decided { proj } => (b"decided", Some(proj.epoch)),
        Msg::AskLatest => (b"latest?", None),
        Msg::Promise { epoch, .. } => (b"promise", Some(*epoch)),
        Msg::Nack { epoch, .. } => (b"nack", Some(*epoch)),
        Msg::Accepted { epoch, .. } => (b"accepted", Some(*epoch)),
        Msg::Latest { proj } => (b"latest", Some(proj.epoch)),
        Msg::Learn { proj } => (b"learn", Some(proj.epoch)),
        Msg::Token { .. } => (b"token", None),
        Msg::Check { .. } => (b"check", None),
        Msg::Issued { pos, .. } => (b"issued", Some(*pos)),
        Msg::Tail { tail, .. } => (b"tail", Some(*tail)),
        Msg::Scanning { next, .. } => (b"scanning", Some(*next)),
        Msg::OldEpoch { epoch } => (b"old epoch", Some(*epoch)),
        Msg::Full { limit } => (b"full", Some(*limit)),
    }
}

fn taken(cell: &Cell) -> &'static [u8] {
    match cell {
        Cell::Junk => b"taken junk",
        Cell::Data(_) => b"taken",
    }
}
