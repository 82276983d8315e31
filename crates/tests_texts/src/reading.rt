//! Reading texts from sources.

ghost use Rattle.std.specs.Prelude.{◌≡◌, IfOk, IfSome};
ghost use Rattle.tg_io.specs.Faults.{HasCause, StaysSure};

use std::alloc::Global;
use tg_base::List;
use tg_io::{IoErr, Source};

/// Reads a text to its end.
pub fn read_all<S: Source>(alloc: Global, source: &mut S) -> Result<List<u8>, IoErr>
    ensures whole { IfSome (S.left source.old) (λ text. IfOk result (λ all. all ≡ text)) }
    ensures cause { HasCause (S.faults source.old) (S.faults source.new) result }
    ensures sure { StaysSure (S.sure source.old) (S.sure source.new) (S.faults source.old) (S.faults source.new) }
{
    let mut text = List::new(alloc);
    let mut buffer = [0; 4096];
    loop {
        let count = source.read(&mut buffer)?;
        if count == 0 {
            return Ok(text);
        }
        text.extend(&buffer[..count])?;
    }
}
