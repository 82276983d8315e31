//! Why bytes are no packet.

ghost use Rattle.std.specs.Prelude.{◌≡◌};
ghost use Rattle.tg_wire.specs.Answers.{of_bytes};
ghost use Rattle.tg_wire.specs.declared.fault.WireFault.TheVariants.{NoMemory};

use tg_codec::BytesFault;
use thiserror::Error;

/// Why bytes are no packet.
#[derive(Clone, Copy, Debug, PartialEq, Eq, Error)]
pub enum WireFault {
    /// Memory ran out.
    #[error("memory ran out")]
    NoMemory,
    /// The bytes before this place are lawful fields and a beginning of one, and no longer front is.
    #[error("the bytes are no packet from place {at} on")]
    BadPacket { at: usize },
}

impl From<tg_base::NoMemory> for WireFault {
    ghost from_gives = { λ _ e. e ≡ NoMemory };

    fn from(_e: tg_base::NoMemory) -> WireFault {
        WireFault::NoMemory
    }
}

impl From<BytesFault> for WireFault {
    ghost from_gives = { λ f e. e ≡ of_bytes f };

    fn from(f: BytesFault) -> WireFault {
        match f {
            BytesFault::NoMemory => WireFault::NoMemory,
            BytesFault::Refused { at } => WireFault::BadPacket { at },
        }
    }
}
