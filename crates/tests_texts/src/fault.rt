//! Why a text isn't printed back.

ghost use Rattle.std.specs.Prelude.{◌≡◌};
ghost use Rattle.tests_texts.specs.Texts.{fault_of};
ghost use Rattle.tests_texts.specs.declared.fault.Fault.TheVariants as fault;

use tg_base::{NoMemory, TextFault};
use thiserror::Error;

/// Why a text isn't printed back.
#[derive(Clone, Copy, Debug, PartialEq, Eq, Error)]
pub enum Fault {
    /// A line of the text may not stand where it does.
    #[error("line {line} is outside")]
    Outside { line: u64 },
    /// The text couldn't be read.
    #[error("read fault")]
    Read,
    /// The text couldn't be written.
    #[error("write fault")]
    Write,
    /// Memory ran out.
    #[error("out of memory")]
    NoMemory,
}

impl From<TextFault> for Fault {
    ghost from_gives = { λ e f. f ≡ fault_of e };

    fn from(e: TextFault) -> Fault {
        match e {
            TextFault::Outside { line } => Fault::Outside { line },
            TextFault::NoMemory => Fault::NoMemory,
        }
    }
}

impl From<NoMemory> for Fault {
    ghost from_gives = { λ _ f. f ≡ fault.NoMemory };

    fn from(_e: NoMemory) -> Fault {
        Fault::NoMemory
    }
}
