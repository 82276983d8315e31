//! The status of an ended run.

ghost use Rattle.std.specs.Prelude.{◌≡◌};
ghost use Rattle.tg_replay.specs.Stages.{status_of};

use crate::stages::End;
use tg_io::Status;

impl End {
    /// The status of a run that ends so.
    pub fn status(self) -> Status
        ensures { result ≡ status_of self }
    {
        match self {
            End::Whole => Status::Done,
            End::Outside { line } => Status::Script { line },
            End::Limited { which } => Status::Limit { which },
        }
    }
}
