//! Why bytes are no entry, or an entry has no page.

ghost use Rattle.std.specs.Prelude.{◌≡◌};
ghost use Rattle.tg_entry.specs.Answers.{of_bytes};
ghost use Rattle.tg_entry.specs.declared.fault.EntryFault.TheVariants.{NoMemory};

use tg_codec::BytesFault;
use thiserror::Error;

/// Why bytes are no entry, or an entry has no page.
#[derive(Clone, Copy, Debug, PartialEq, Eq, Error)]
pub enum EntryFault {
    /// Memory ran out.
    #[error("memory ran out")]
    NoMemory,
    /// The entry has so many bytes, and a page has at most 4,096.
    #[error("the entry has {bytes} bytes, and a page has at most 4096")]
    TooLarge { bytes: usize },
    /// The bytes before this place are lawful fields and a beginning of one, and no longer front is.
    #[error("the bytes are no entry from place {at} on")]
    BadEntry { at: usize },
}

impl From<tg_base::NoMemory> for EntryFault {
    ghost from_gives = { λ _ e. e ≡ NoMemory };

    fn from(_e: tg_base::NoMemory) -> EntryFault {
        EntryFault::NoMemory
    }
}

impl From<BytesFault> for EntryFault {
    ghost from_gives = { λ f e. e ≡ of_bytes f };

    fn from(f: BytesFault) -> EntryFault {
        match f {
            BytesFault::NoMemory => EntryFault::NoMemory,
            BytesFault::Refused { at } => EntryFault::BadEntry { at },
        }
    }
}
