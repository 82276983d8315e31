//! What a view at a past position is.

ghost use Rattle.std.specs.Prelude.{◌≡◌, true, IfOk};
ghost use Rattle.tg_kind.specs.Headers.{is_header};
ghost use Rattle.tg_kind.specs.Of.{meaning_of};
ghost use Rattle.tg_protocol.specs.Past as told;
ghost use Rattle.tg_play.specs.Relations.{PlayedOn};
ghost use Rattle.tg_ckpt.specs.Saving.{AreSpelled};
ghost use Rattle.tg_past.specs.Answers.{KeepsTurn};

use crate::bases::{lost, past_bases};
use std::alloc::Global;
use tg_base::{NoMemory, Oid, Pos};
use tg_entry::Entries;
use tg_kind::Registry;
use tg_model::PlayEnd;
use tg_play::View;

/// What becomes of an ask at a past position.
#[derive(Drop)]
pub enum PastTurn<K> {
    /// The view, and where its play came to.
    Played { view: View<K>, came: PlayEnd },
    /// The walk of the asked object met this trim, and no checkpoint of the object reaches from there to the
    /// position at most.
    Gone { below: Pos },
}

// The view of objects at a position, and where its play came to.
fn played<K: Registry>(
    alloc: Global,
    entries: &Entries,
    gone: &[(Oid, Pos)],
    oids: &[Oid],
    objects: &[Oid],
    pos: Pos,
) -> Result<(View<K>, PlayEnd), NoMemory>
    requires spelled { AreSpelled entries.now }
    requires header { is_header objects.now ≡ true }
    ensures { IfOk result (λ r. PlayedOn (meaning_of K.Registry) r.0 r.1 (told.past_play (meaning_of K.Registry) entries.now gone.now oids.now objects.now pos)) }
{
    let bases = past_bases(alloc, entries, gone, objects, oids, pos)?;
    let view = View::start(alloc, bases)?;
    view.play(alloc, entries, pos)
}

/// The view of objects at a past position, for an ask of one of them, over the entries below a tail.
///
/// An object whose walk met a trim, as `gone` tells with the position, begins at its highest checkpoint from there to
/// the position. Where there is none, the asked object is gone, and another one begins as in a new view. The view
/// plays the entries below the position; decision records are taken from all entries, also from later ones. The
/// entries have a spelling, as those that were read have, so that checkpoints give lawful bases.
///
/// An `Err` is want of memory.
pub fn past_at<K: Registry>(
    alloc: Global,
    entries: &Entries,
    gone: &[(Oid, Pos)],
    oids: &[Oid],
    objects: &[Oid],
    oid: Oid,
    pos: Pos,
) -> Result<PastTurn<K>, NoMemory>
    requires spelled { AreSpelled entries.now }
    requires header { is_header objects.now ≡ true }
    ensures { IfOk result (λ t. KeepsTurn (meaning_of K.Registry) t (told.past_at (meaning_of K.Registry) entries.now gone.now oids.now objects.now oid pos)) }
{
    match lost::<K>(alloc, entries, gone, oid, pos)? {
        Some(below) => Ok(PastTurn::Gone { below }),
        None => {
            let played = played(alloc, entries, gone, oids, objects, pos)?;
            Ok(PastTurn::Played {
                view: played.0,
                came: played.1,
            })
        }
    }
}
