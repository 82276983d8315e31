//! What was read of bytes, in front or whole, with the place of a fault counted from the first byte.

ghost use Rattle.std.specs.Prelude.{◌≡◌, Ok, Result, IfOk, ℕ, List};
ghost use Rattle.tg_codec.specs.Reading.{Read, Gives};
ghost use Rattle.tg_codec.specs.Whole.{ended};
ghost use Rattle.tg_kind.specs.Bytes.{Answers, front, Fault};

use crate::fault::KindFault;
use tg_codec::ReadFault;

// The place of a fault, counted from the first byte.
fn refused(bytes: &[u8], fault: ReadFault) -> KindFault
    ensures { Fault result bytes.now fault }
{
    match fault {
        ReadFault::NoMemory => KindFault::NoMemory,
        ReadFault::Stop { left } => KindFault::BadBytes {
            at: bytes.len().saturating_sub(left),
        },
    }
}

/// The value that was read in front of the bytes, with the length of its spelling. It takes no memory.
pub fn in_front<'a, T: Drop>(
    bytes: &[u8],
    read: Result<(T, &'a [u8]), ReadFault>,
) -> Result<(T, usize), KindFault>
    ensures { (r : Read T) → Gives (λ x. (x.0, x.1.now)) read.entry r → Answers result (front bytes.now r) }
{
    match read {
        Ok((value, rest)) => Ok((value, bytes.len().saturating_sub(rest.len()))),
        Err(fault) => Err(refused(bytes, fault)),
    }
}

/// The value that was read, where nothing is left of the bytes. It takes no memory.
pub fn in_whole<'a, T: Drop>(
    bytes: &[u8],
    read: Result<(T, &'a [u8]), ReadFault>,
) -> Result<T, KindFault>
    ensures { (r : Read T) → Gives (λ x. (x.0, x.1.now)) read.entry r → Answers result (ended bytes.now r) }
{
    match read {
        Ok((value, rest)) => {
            if rest.is_empty() {
                return Ok(value);
            }
            Err(KindFault::BadBytes {
                at: bytes.len().saturating_sub(rest.len()),
            })
        }
        Err(fault) => Err(refused(bytes, fault)),
    }
}
