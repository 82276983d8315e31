//! The lines of a node's replies.

ghost use Rattle.std.specs.Prelude.{◌≡◌, ◌++◌, OnOk};
ghost use Rattle.tg_trace.specs.Transcripts.{reply_text};
ghost use Rattle.tg_node.specs.Replies.{reply_in, replies_in, replies_text};

use std::alloc::Global;
use tg_any::{AnyAns, AnyAsk, AnyOp};
use tg_base::{List, NoMemory};
use tg_model::{Mark, Note};
use tg_trace::print_mark;

/// Puts the lines of a client's replies in an event last. An `Err` is want of memory; some of the lines may be there then.
pub fn write_replies(
    alloc: Global,
    event: u64,
    client: u16,
    notes: List<Note<AnyOp, AnyAsk, AnyAns>>,
    out: &mut List<u8>,
) -> Result<(), NoMemory>
    ensures { OnOk result (out.new ≡ out.old ++ replies_text (replies_in event client notes)) }
{
    let mut notes = notes;
    while !notes.is_empty() {
        let note = notes.remove(0);
        write_reply(alloc, event, client, note, out)?;
    }
    Ok(())
}

// Puts the line of one reply last.
fn write_reply(
    alloc: Global,
    event: u64,
    client: u16,
    note: Note<AnyOp, AnyAsk, AnyAns>,
    out: &mut List<u8>,
) -> Result<(), NoMemory>
    ensures { OnOk result (out.new ≡ out.old ++ reply_text (reply_in event client note)) }
{
    let Note { tx, what } = note;
    let mark = Mark {
        event,
        client,
        tx,
        what,
    };
    print_mark(alloc, &mark, out)
}
