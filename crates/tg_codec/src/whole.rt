//! Reading all of the bytes.

ghost use Rattle.std.specs.Prelude.{◌≡◌, ◌-◌, Ok, length};
ghost use Rattle.tg_codec.specs.Whole.{Answers, IsRefused, ended};

use crate::fault::{BytesFault, ReadFault};

/// The value that was read, where nothing is left of the bytes, and else the place where it ends.
pub fn ended<T: Drop>(bytes: &[u8], value: T, rest: &[u8]) -> Result<T, BytesFault>
    ensures { Answers result (ended bytes.now (Ok (value, rest.now))) }
{
    if rest.is_empty() {
        return Ok(value);
    }
    Err(BytesFault::Refused {
        at: bytes.len().saturating_sub(rest.len()),
    })
}

/// The place of a fault, counted from the first byte.
pub fn refused(bytes: &[u8], fault: ReadFault) -> BytesFault
    ensures { IsRefused result bytes.now fault }
{
    match fault {
        ReadFault::NoMemory => BytesFault::NoMemory,
        ReadFault::Stop { left } => BytesFault::Refused {
            at: bytes.len().saturating_sub(left),
        },
    }
}
