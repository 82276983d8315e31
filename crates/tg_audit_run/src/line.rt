//! The line of a verdict.

ghost use Rattle.std.specs.Prelude.{◌≡◌, IfOk};
ghost use Rattle.tg_audit_run.specs.Verdicts.{letter as letter_of, status_of as told_by, verdict_line};

use std::alloc::Global;
use tg_any::put_number;
use tg_audit::Verdict;
use tg_base::{Clause, List, NoMemory};
use tg_io::Status;

/// The status with which a verdict is told.
pub fn status_of(verdict: Verdict) -> Status
    ensures { result ≡ told_by verdict }
{
    match verdict {
        Verdict::Legal => Status::Done,
        Verdict::Illegal { line, clause } => Status::Illegal { line, clause },
    }
}

/// The line of a verdict. An `Err` is want of memory.
pub fn line_of(alloc: Global, verdict: Verdict) -> Result<List<u8>, NoMemory>
    ensures { IfOk result (λ text. text ≡ verdict_line verdict) }
{
    let mut text = List::new(alloc);
    match verdict {
        Verdict::Legal => {
            text.extend(b"legal\n")?;
            Ok(text)
        }
        Verdict::Illegal { line, clause } => {
            text.extend(b"illegal ")?;
            put_number(line, &mut text)?;
            text.push(b' ')?;
            text.push(letter(clause))?;
            text.push(b'\n')?;
            Ok(text)
        }
    }
}

/// A clause by its letter.
fn letter(clause: Clause) -> u8
    ensures { result ≡ letter_of clause }
{
    match clause {
        Clause::A => b'a',
        Clause::B => b'b',
        Clause::C => b'c',
        Clause::D => b'd',
        Clause::E => b'e',
    }
}
