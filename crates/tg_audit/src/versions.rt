//! Versions of parts in the history.

ghost use Rattle.std.specs.Prelude.{◌≡◌, ◌+◌, ◌==◌, map};
ghost use Rattle.std.specs.Cmp.Lexicographic.{pointwise};
ghost use Rattle.tg_kind.specs.Of.{meaning_of};
ghost use Rattle.tg_kind.specs.Parts.{part_of, overlap, part_eq};
ghost use Rattle.tg_model.specs.Stores.{writes_part, changes, changed};
ghost use Rattle.tg_audit.specs.Judging as of;
ghost use Rattle.tg_audit.specs.Places.{IsRising, Splits};
ghost use Rattle.tg_audit.specs.Runs as runs;

use tg_base::{Oid, Part, Pos};
use tg_kind::{Key, Registry, Scope};
use tg_model::DoneOf;

// Whether two texts are equal.
fn is_text(text: &str, other: &[u8]) -> bool
    ensures { result ≡ pointwise (λ x y. x == y) text.now other.now }
{
    text.as_bytes() == other
}

// Whether what an op changes overlaps a part.
fn overlaps(scope: Scope<'_>, part: &Part) -> bool
    ensures { result ≡ overlap (part_of scope.entry) part.now }
{
    match (scope, part) {
        (Scope::All, _) => true,
        (Scope::One(_), Part::All) => true,
        (Scope::One(Key::Text(text)), Part::Text(other)) => is_text(text, other.as_slice()),
        (Scope::One(Key::Num(number)), Part::Num(other)) => number == *other,
        (Scope::One(_), _) => false,
    }
}

// Whether a scope is this part.
fn is_part(scope: Scope<'_>, part: &Part) -> bool
    ensures { result ≡ part_eq (part_of scope.entry) part.now }
{
    match (scope, part) {
        (Scope::All, Part::All) => true,
        (Scope::One(Key::Text(text)), Part::Text(other)) => is_text(text, other.as_slice()),
        (Scope::One(Key::Num(number)), Part::Num(other)) => number == *other,
        (_, _) => false,
    }
}

// Whether a write changes a part of an object.
fn writes_part<K: Registry>(write: &(Oid, K::Op), oid: Oid, part: &Part) -> bool
    ensures { result ≡ writes_part (meaning_of K.Registry) oid part.now write.now }
{
    write.0.0 == oid.0 && overlaps(K::touch(&write.1), part)
}

/// Whether a transaction changed a part of an object.
pub fn changes<K: Registry>(done: &DoneOf<K>, oid: Oid, part: &Part) -> bool
    ensures { result ≡ changes (meaning_of K.Registry) done.now oid part.now }
{
    done.writes
        .as_slice()
        .iter()
        .any(|write| writes_part::<K>(write, oid, part))
}

// The version of a part after one more transaction, if that is below a position and changed the part.
fn later<K: Registry>(version: u128, done: &DoneOf<K>, oid: Oid, part: &Part, before: Pos) -> u128
    ensures { result ≡ of.later (meaning_of K.Registry) oid part.now before version done.now }
{
    let next = u128::from(done.stamp) + 1;
    if done.stamp < before && changes::<K>(done, oid, part) && version < next {
        next
    } else {
        version
    }
}

// The version of a part of an object before a position, where the transactions so far gave this one.
fn latest<K: Registry>(
    version: u128,
    history: &[DoneOf<K>],
    oid: Oid,
    part: &Part,
    before: Pos,
) -> u128
    ensures { result ≡ of.latest (meaning_of K.Registry) oid part.now before version history.now }
{
    let mut version = version;
    for done in history {
        version = later::<K>(version, done, oid, part, before);
    }
    version
}

/// The version of a part of an object before a position.
pub fn changed<K: Registry>(history: &[DoneOf<K>], oid: Oid, part: &Part, before: Pos) -> u128
    ensures { result ≡ changed (meaning_of K.Registry) history.now oid part.now before }
{
    latest::<K>(0, history, oid, part, before)
}

/// The version of a part of an object before a position, where the transactions below it are so many and stamps rise.
pub fn changed_below<K: Registry>(
    history: &[DoneOf<K>],
    oid: Oid,
    part: &Part,
    most: usize,
    before: Pos,
) -> u128
    requires rising { IsRising (map (runs.stamp_of (meaning_of K.Registry)) history.now) }
    requires split { Splits (map (runs.stamp_of (meaning_of K.Registry)) history.now) most before }
    ensures { result ≡ changed (meaning_of K.Registry) history.now oid part.now before }
{
    for back in 0..most {
        let done = &history[most - 1 - back];
        if changes::<K>(done, oid, part) {
            return u128::from(done.stamp) + 1;
        }
    }
    0
}

/// Whether what an ask looks at is this part.
pub fn looks_at<K: Registry>(ask: &K::Ask, part: &Part) -> bool
    ensures { result ≡ part_eq (K.looked ask.now) part.now }
{
    is_part(K::look(ask), part)
}
