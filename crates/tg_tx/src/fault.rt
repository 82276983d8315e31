//! Why a transaction takes no more.

ghost use Rattle.std.specs.Prelude.{◌≡◌};
ghost use Rattle.tg_tx.specs.declared.fault.TxFault.TheVariants.{NoMemory};

use tg_base::Many;
use thiserror::Error;

/// Why a transaction takes no more. It is unchanged then.
#[derive(Clone, Copy, Debug, PartialEq, Eq, Error)]
pub enum TxFault {
    /// There would be more than 16 streams, 64 reads or 64 writes.
    #[error("too many of the transaction")]
    TooMany { what: Many },
    /// The commit record would have so many bytes, and a page has at most 4,096.
    #[error("the commit record would have {bytes} bytes, and a page has at most 4096")]
    TooLarge { bytes: usize },
    /// Memory ran out.
    #[error("memory ran out")]
    NoMemory,
}

impl From<tg_base::NoMemory> for TxFault {
    ghost from_gives = { λ _ e. e ≡ NoMemory };

    fn from(_e: tg_base::NoMemory) -> TxFault {
        TxFault::NoMemory
    }
}
