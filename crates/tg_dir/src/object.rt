//! Numbers of objects.

ghost use Rattle.std.specs.Prelude.{◌≡◌, true, if◌then◌else◌, Some, None};
ghost use Rattle.tg_dir.specs.Spellings.{is_number};
ghost use Rattle.tg_kind.specs.Headers.{directory};

use std::marker::Model;
use tg_base::Oid;

/// An object's number: 0 for the directory, or one of the tags from 1 to 6 in the top byte, and any index below.
#[derive(Clone, Copy)]
pub struct Object {
    oid: Oid,
}

impl Model for Object {
    ghost use Rattle.std.specs.Prelude.{◌≡◌, true};
    ghost use Rattle.tg_base.specs.declared.ids.Oid.{Oid};
    ghost use Rattle.tg_dir.specs.Spellings.{is_number};

    ghost Value = { Oid };

    ghost view = { λ o. o.oid };

    ghost inverse = { λ o. record { oid = o } };

    ghost invariant = { λ o. is_number o.oid ≡ true };
}

// Whether a number is an object's.
fn is_number(oid: Oid) -> bool
    ensures { result ≡ is_number oid }
{
    oid.0 == 0 || (0x0100_0000 <= oid.0 && oid.0 <= 0x06ff_ffff)
}

impl Object {
    /// The directory.
    pub const fn directory() -> Object
        ensures { result ≡ directory }
    {
        Object { oid: Oid(0) }
    }

    /// The object of this number, None where it is no object's. It takes no memory.
    pub fn of(oid: Oid) -> Option<Object>
        ensures { result ≡ (if is_number oid then Some oid else None) }
    {
        if is_number(oid) {
            Some(Object { oid })
        } else {
            None
        }
    }

    /// The number.
    pub fn oid(&self) -> Oid
        ensures value { result ≡ self.now }
        ensures known { is_number self.now ≡ true }
    {
        self.oid
    }
}
