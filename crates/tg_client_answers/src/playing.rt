//! A client's view plays.

ghost use Rattle.std.specs.Prelude.{◌≡◌, Option, IfOk, IsSome};
ghost use Rattle.tg_kind.specs.Of.{meaning_of};
ghost use Rattle.tg_protocol.specs.Answers as told;
ghost use Rattle.tg_protocol.specs.Clients.{Client, Work};
ghost use Rattle.tg_protocol.specs.Views as views;
ghost use Rattle.tg_ckpt.specs.Saving.{AreSpelled};
ghost use Rattle.tg_play.specs.Relations.{KeepsView};
ghost use Rattle.tg_client_state.specs.States.{Rest, KeepsViewIf};
ghost use Rattle.tg_client_answers.specs.Playing.{HasPlayed};

use std::alloc::Global;
use tg_base::{List, NoMemory, Oid, Pos};
use tg_ckpt::view_bases;
use tg_client_state::{HeaderObjects, State};
use tg_entry::Entries;
use tg_kind::Registry;
use tg_model::PlayEnd;
use tg_play::{Base, View};

// A new view of the hosted objects, which has played nothing. An `Err` is want of memory.
fn new_view<K: Registry>(
    alloc: Global,
    entries: &Entries,
    trims: &[(Oid, Pos)],
    objects: &HeaderObjects,
    hosted: &[Oid],
) -> Result<View<K>, NoMemory>
    requires { AreSpelled entries.now }
    ensures { (c : Client (meaning_of K.Registry)) (w : Work (meaning_of K.Registry)) → c.objects ≡ objects.now → c.hosted ≡ hosted.now → w.trims ≡ trims.now → IfOk result (λ k. KeepsView (meaning_of K.Registry) k (told.view_or_new (meaning_of K.Registry) c w entries.now None)) }
{
    let bases: List<Base<K>> = view_bases(alloc, entries, trims, objects.as_slice(), hosted)?;
    View::start(alloc, bases)
}

// The kept view, or else a new one. An `Err` is want of memory.
fn view_or_new<K: Registry>(
    view: Option<View<K>>,
    alloc: Global,
    entries: &Entries,
    trims: &[(Oid, Pos)],
    objects: &HeaderObjects,
    hosted: &[Oid],
) -> Result<View<K>, NoMemory>
    requires { AreSpelled entries.now }
    ensures { (c : Client (meaning_of K.Registry)) (w : Work (meaning_of K.Registry)) (v : Option (views.View (meaning_of K.Registry))) → c.objects ≡ objects.now → c.hosted ≡ hosted.now → w.trims ≡ trims.now → KeepsViewIf (meaning_of K.Registry) view v → IfOk result (λ k. KeepsView (meaning_of K.Registry) k (told.view_or_new (meaning_of K.Registry) c w entries.now v)) }
{
    match view {
        None => new_view(alloc, entries, trims, objects, hosted),
        Some(view) => Ok(view),
    }
}

/// The client whose view has played these entries up to a target, and where the play came to. Where none was kept, a new
/// view of the hosted objects begins.
///
/// An `Err` is want of memory.
pub fn played<K: Registry>(
    state: State<K>,
    alloc: Global,
    entries: &Entries,
    trims: &[(Oid, Pos)],
    target: Pos,
) -> Result<(State<K>, PlayEnd), NoMemory>
    requires { AreSpelled entries.now }
    ensures played { (r : Rest (meaning_of K.Registry)) (w : Work (meaning_of K.Registry)) → KeepsViewIf (meaning_of K.Registry) state.view r.view → w.trims ≡ trims.now → IfOk result (λ x. HasPlayed (meaning_of K.Registry) state r w entries.now target x.0 x.1) }
    ensures others { IfOk result (λ x. x.0 ≡ record state { view = x.0.view }) }
    ensures seen { IfOk result (λ x. IsSome x.0.view) }
{
    let mut state = state;
    let kept = state.parts.view.take();
    let objects = &state.parts.objects;
    let hosted = state.parts.hosted.as_slice();
    let view = view_or_new(kept, alloc, entries, trims, objects, hosted)?;
    let (view, came) = view.play(alloc, entries, target)?;
    state.parts.view = Some(view);
    Ok((state, came))
}
