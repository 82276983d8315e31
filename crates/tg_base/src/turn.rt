//! What a machine gives back after a step, and the layout that it stands on.

ghost use Rattle.std.specs.Prelude.{◌≡◌, IfOk};

use crate::fault::NoMemory;
use crate::layout::Projection;
use crate::list::List;
use crate::packet::Out;

/// A machine that goes on, or its end, with what is to be sent.
#[derive(Drop)]
pub enum Turn<M, E> {
    More { machine: M, outs: List<Out> },
    End { end: E, outs: List<Out> },
}

/// The layout that a client works by, and how many layout servers there are.
#[derive(Clone, Drop)]
pub struct Stand {
    pub proj: Projection,
    pub layouts: u16,
}

impl Stand {
    /// An equal stand.
    pub fn copy(&self) -> Result<Stand, NoMemory>
        ensures { IfOk result (λ c. c ≡ self.now) }
    {
        Ok(Stand {
            proj: self.proj.copy()?,
            layouts: self.layouts,
        })
    }
}
