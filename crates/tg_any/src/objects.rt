//! The objects that a header may name.

ghost use Rattle.std.specs.Prelude.{◌≡◌, map};
ghost use Rattle.std.specs.List.{list_all};
ghost use Rattle.tg_base.specs.Clusters.{number_of, is_user_object, are_objects};
ghost use Rattle.tg_base.specs.Units.{has, is_distinct};

use tg_base::Oid;

// Whether an object stands in a list.
fn has(objects: &[Oid], oid: Oid) -> bool
    ensures { result ≡ has (map number_of objects.now) oid.0 }
{
    objects
        .iter()
        .map(|other| other.0)
        .any(|number| number == oid.0)
}

// Whether no object stands twice.
fn are_distinct(objects: &[Oid]) -> bool
    ensures { result ≡ is_distinct (map number_of objects.now) }
{
    match objects {
        [] => true,
        [first, rest @ ..] => !has(rest, *first) && are_distinct(rest),
    }
}

// Whether an object is one that a header may name.
fn is_user_object(oid: Oid) -> bool
    ensures { result ≡ is_user_object oid }
{
    0x100_0000 <= oid.0 && oid.0 < 0x700_0000
}

// Whether each object is one that a header may name.
fn are_user_objects(objects: &[Oid]) -> bool
    ensures { result ≡ list_all is_user_object objects.now }
{
    objects.iter().all(|oid| is_user_object(*oid))
}

/// Whether a header may have these objects: at most 256 that a user may name, none twice.
pub fn are_objects(objects: &[Oid]) -> bool
    ensures { result ≡ are_objects objects.now }
{
    objects.len() <= 256 && are_user_objects(objects) && are_distinct(objects)
}
