//! Plays of a view of the directory.

ghost use Rattle.std.specs.Prelude.{◌≡◌, ◌≤◌, ◌+◌, ◌*◌, ◌^◌, true, IfOk};
ghost use Rattle.tg_kind.specs.Of.{meaning_of};
ghost use Rattle.tg_play.specs.Relations.{KeepsView};
ghost use Rattle.tg_protocol.specs.Views as told;
ghost use Rattle.tg_protocol.specs.Words.{directory};
ghost use Rattle.bench_costs.specs.Plays.{begun, played, version_after};

use crate::entries::entries_from;
use crate::records::DIR;
use std::alloc::Global;
use tg_base::{List, NoMemory, Part, Pos};
use tg_kind::Registry;
use tg_play::{Base, View};
use tg_vers::Versions;

/// How many records each further play takes.
const TURN: u32 = 10;

/// The version of the directory after so many records at once, and then ten more so many times. An `Err` is want of
/// memory.
pub fn version_after<K: Registry>(alloc: Global, count: u32, more: u32) -> Result<u64, NoMemory>
    requires { K.is_object directory ≡ true }
    ensures { IfOk result (λ n. n ≡ version_after (meaning_of K.Registry) count more) }
{
    let begun = begun::<K>(alloc)?;
    let mut view = played(alloc, begun, 0, count)?;
    for turn in 0..more {
        view = played(alloc, view, first_of(count, turn), TURN)?;
    }
    Ok(view.version(DIR, &Part::All))
}

// Where the records of a further play begin.
fn first_of(count: u32, turn: u32) -> Pos
    ensures { result ≡ count + turn * 10 }
{
    u64::from(count) + u64::from(turn) * 10
}

// A view of a directory without objects.
fn begun<K: Registry>(alloc: Global) -> Result<View<K>, NoMemory>
    requires { K.is_object directory ≡ true }
    ensures { IfOk result (λ v. KeepsView (meaning_of K.Registry) v (begun (meaning_of K.Registry))) }
{
    let state = K::fresh(alloc, DIR, &[])?;
    let mut bases = List::new(alloc);
    bases.push(Base {
        oid: DIR,
        state,
        vers: Versions::new(alloc),
        upto: 0,
    })?;
    View::start(alloc, bases)
}

// The view after so many records more, from a position on.
fn played<K: Registry>(
    alloc: Global,
    view: View<K>,
    first: Pos,
    count: u32,
) -> Result<View<K>, NoMemory>
    requires { first + count ≤ 2 ^ 62 }
    ensures { (v : told.View (meaning_of K.Registry)) → KeepsView (meaning_of K.Registry) view v → IfOk result (λ r. KeepsView (meaning_of K.Registry) r (played (meaning_of K.Registry) v first count)) }
{
    let entries = entries_from(alloc, first, count)?;
    let (view, _) = view.play(alloc, &entries, first + u64::from(count))?;
    Ok(view)
}
