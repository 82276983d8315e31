//! Replies, with what was noted of their clients.

ghost use Rattle.std.specs.Prelude.{◌≡◌, ◌++◌, map, length, OnOk};
ghost use Rattle.tg_kind.specs.Of.{meaning_of};
ghost use Rattle.tg_world.specs.Kept.{told_all, told_by};

use std::marker::Model;
use tg_base::{Epoch, List, NoMemory, Pos};
use tg_kind::Registry;
use tg_model::{Mark, MarkOf, Note, NoteOf};

/// What a world notes of a client when it is given a command while none waits.
#[derive(Clone, Copy)]
pub struct CommandStart {
    /// Its next request number: answers from there on are of this command.
    pub next: u64,
    pub epoch: Epoch,
    pub upto: Pos,
}

impl Model for CommandStart {
    ghost use Rattle.tg_protocol.specs.Worlds.{CommandStart as Seen};

    ghost Value = { Seen };

    ghost view = { λ n. record { next = n.next; epoch = n.epoch; upto = n.upto } };

    ghost inverse = { λ n. record { next = n.next; epoch = n.epoch; upto = n.upto } };
}

/// Puts the replies that a client's notes make last, in their order, and for each what was noted of the client. An `Err`
/// is want of memory; some of them may be there then.
pub fn tell<K: Registry>(
    told: &mut Vec<MarkOf<K>>,
    told_noted: &mut Vec<CommandStart>,
    event: u64,
    client: u16,
    noted: CommandStart,
    notes: List<NoteOf<K>>,
) -> Result<(), NoMemory>
    requires { length told_noted.old.items ≡ length told.old.items }
    ensures told { OnOk result (told_all (meaning_of K.Registry) told.new.items told_noted.new.items ≡ told_all (meaning_of K.Registry) told.old.items told_noted.old.items ++ map (told_by (meaning_of K.Registry) event client noted) notes) }
    ensures many { OnOk result (length told_noted.new.items ≡ length told.new.items) }
{
    let mut notes = notes;
    while !notes.is_empty() {
        let Note { tx, what } = notes.remove(0);
        told.push(Mark {
            event,
            client,
            tx,
            what,
        })?;
        told_noted.push(noted)?;
    }
    Ok(())
}
