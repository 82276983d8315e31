//! Why an object isn't saved, loaded or forgotten.

ghost use Rattle.std.specs.Prelude.{◌≡◌};
ghost use Rattle.tg_ckpt.specs.Answers.{of_load};
ghost use Rattle.tg_ckpt.specs.declared.fault.SaveFault.TheVariants as saves;
ghost use Rattle.tg_ckpt.specs.declared.fault.LoadFault.TheVariants as loads;
ghost use Rattle.tg_ckpt.specs.declared.fault.ForgetFault.TheVariants as forgets;

use tg_base::{NoMemory, Oid, Pos};
use thiserror::Error;

/// Why an object isn't saved.
#[derive(Clone, Copy, Debug, PartialEq, Eq, Error)]
pub enum SaveFault {
    /// The checkpoint would have so many bytes, and a page has at most 4,096.
    #[error("the checkpoint would have {bytes} bytes, and a page has at most 4096")]
    TooLarge { bytes: usize },
    /// Memory ran out.
    #[error("memory ran out")]
    NoMemory,
}

/// Why an object isn't loaded.
#[derive(Clone, Copy, Debug, PartialEq, Eq, Error)]
pub enum LoadFault {
    /// No checkpoint of the object reaches far enough.
    #[error("the object has no checkpoint that reaches far enough")]
    NoCheckpoint { oid: Oid },
    /// Memory ran out.
    #[error("memory ran out")]
    NoMemory,
}

/// Why what is below a mark may not be forgotten.
#[derive(Clone, Copy, Debug, PartialEq, Eq, Error)]
pub enum ForgetFault {
    /// No checkpoint of the object reaches far enough.
    #[error("the object has no checkpoint that reaches far enough")]
    NoCheckpoint { oid: Oid },
    /// The record at this position needs a decision record, and has none.
    #[error("the record at {pos} has no decision record")]
    OpenDecision { pos: Pos },
    /// Memory ran out.
    #[error("memory ran out")]
    NoMemory,
}

impl From<NoMemory> for SaveFault {
    ghost from_gives = { λ _ f. f ≡ saves.NoMemory };

    fn from(_e: NoMemory) -> SaveFault {
        SaveFault::NoMemory
    }
}

impl From<NoMemory> for LoadFault {
    ghost from_gives = { λ _ f. f ≡ loads.NoMemory };

    fn from(_e: NoMemory) -> LoadFault {
        LoadFault::NoMemory
    }
}

impl From<NoMemory> for ForgetFault {
    ghost from_gives = { λ _ f. f ≡ forgets.NoMemory };

    fn from(_e: NoMemory) -> ForgetFault {
        ForgetFault::NoMemory
    }
}

impl From<LoadFault> for ForgetFault {
    ghost from_gives = { λ e f. f ≡ of_load e };

    fn from(e: LoadFault) -> ForgetFault {
        match e {
            LoadFault::NoCheckpoint { oid } => ForgetFault::NoCheckpoint { oid },
            LoadFault::NoMemory => ForgetFault::NoMemory,
        }
    }
}
