//! Why a state or an op isn't read.

ghost use Rattle.std.specs.Prelude.{◌≡◌};
ghost use Rattle.tg_kind.specs.declared.fault.KindFault.TheVariants.{NoMemory};

use thiserror::Error;

/// Why a state or an op isn't read.
#[derive(Clone, Copy, Debug, PartialEq, Eq, Error)]
pub enum KindFault {
    /// The byte at this place, counted from 0, breaks the format, or the bytes end there.
    #[error("byte {at} is wrong, or missing")]
    BadBytes { at: usize },
    /// Memory ran out.
    #[error("out of memory")]
    NoMemory,
}

impl From<tg_base::NoMemory> for KindFault {
    ghost from_gives = { λ _ e. e ≡ NoMemory };

    fn from(_e: tg_base::NoMemory) -> KindFault {
        KindFault::NoMemory
    }
}
