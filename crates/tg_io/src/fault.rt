//! Faults of the outside.

use std::alloc::AllocError;
use tg_base::NoMemory;

/// Why a call of the outside gives nothing.
#[derive(Clone, Copy, Debug, PartialEq, Eq)]
pub enum IoErr {
    /// The outside failed, and its count of faults rose in this call.
    Failed,
    /// Memory ran out.
    NoMemory,
}

impl From<NoMemory> for IoErr {
    ghost use Rattle.std.specs.Prelude.{◌≡◌};
    ghost use Rattle.tg_io.specs.declared.fault.IoErr.TheVariants.{NoMemory};

    ghost from_gives = { λ _ e. e ≡ NoMemory };

    fn from(_e: NoMemory) -> IoErr {
        IoErr::NoMemory
    }
}

impl From<AllocError> for IoErr {
    ghost use Rattle.std.specs.Prelude.{◌≡◌};
    ghost use Rattle.tg_io.specs.declared.fault.IoErr.TheVariants.{NoMemory};

    ghost from_gives = { λ _ e. e ≡ NoMemory };

    fn from(_e: AllocError) -> IoErr {
        IoErr::NoMemory
    }
}
