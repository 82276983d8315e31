//! How a run ends.

ghost use Rattle.std.specs.Prelude.{◌≡◌, IfOk, IsOk, IsNone, string_bytes};
ghost use Rattle.std.specs.Prelude.{option_map};
ghost use Rattle.tg_io.specs.Status.{status_number, limit_word, status_line};

use std::alloc::Global;
use tg_base::{Clause, NoMemory, Which};

/// How a run ends.
#[derive(Clone, Copy, PartialEq, Eq)]
pub enum Status {
    /// The input was read to its end.
    Done,
    /// A transcript isn't legal: its first line that fails, from 1, and the clause that fails there.
    Illegal { line: u64, clause: Clause },
    /// The words of the command are no form.
    Words,
    /// The first line of the input that is refused, from 1.
    Script { line: u64 },
    /// The source failed.
    ReadFault,
    /// The sink failed.
    WriteFault,
    /// The link failed.
    LinkFault,
    /// A limit is reached and more was asked.
    Limit { which: Which },
    /// Memory ran out.
    NoMemory,
}

impl Status {
    /// The number with which the program ends.
    pub fn code(&self) -> u8
        ensures { result ≡ status_number self.now }
    {
        match self {
            Status::Done => 0,
            Status::Illegal { .. } => 1,
            Status::Words => 2,
            Status::Script { .. } => 3,
            Status::ReadFault => 4,
            Status::WriteFault => 5,
            Status::LinkFault => 6,
            Status::Limit { .. } => 7,
            Status::NoMemory => 8,
        }
    }

    /// The line on standard error, without its line feed. None where the run did its work.
    pub fn says(&self, alloc: Global) -> Result<Option<String>, NoMemory>
        ensures line { IfOk result (λ said. option_map string_bytes said ≡ status_line self.now) }
        ensures free { IsNone (status_line self.now) → IsOk result }
    {
        let line = match self {
            Status::Done | Status::Illegal { .. } => return Ok(None),
            Status::Words => String::from_str(alloc, "tango: words")?,
            Status::Script { line } => format!(in alloc; "tango: script line {line}")?,
            Status::ReadFault => String::from_str(alloc, "tango: read fault")?,
            Status::WriteFault => String::from_str(alloc, "tango: write fault")?,
            Status::LinkFault => String::from_str(alloc, "tango: link fault")?,
            Status::Limit { which } => {
                let word = word_of(*which);
                format!(in alloc; "tango: limit {word}")?
            }
            Status::NoMemory => String::from_str(alloc, "tango: no memory")?,
        };
        Ok(Some(line))
    }
}

fn word_of(which: Which) -> &'static str
    ensures { result.now ≡ limit_word which }
{
    match which {
        Which::Steps => "steps",
        Which::Bytes => "bytes",
        Which::Datagrams => "datagrams",
    }
}
