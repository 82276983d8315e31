//! Where walks met a trim.

ghost use Rattle.std.specs.Prelude.{◌≡◌};
ghost use Rattle.tg_kind.specs.Of.{meaning_of};
ghost use Rattle.tg_protocol.specs.Answers.{trim_above as above};

use tg_base::{Oid, Pos};
use tg_kind::Registry;

/// The trim above a position that the walk of the least object met. It takes no memory.
pub fn trim_above<K: Registry>(trims: &[(Oid, Pos)], pos: Pos) -> Option<Pos>
    ensures { result ≡ above (meaning_of K.Registry) trims.now pos }
{
    match trims {
        [] => None,
        [trim, others @ ..] => {
            if pos < trim.1 {
                return Some(trim.1);
            }
            trim_above::<K>(others, pos)
        }
    }
}
