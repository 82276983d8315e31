//! Messages.

ghost use Rattle.std.specs.Prelude.{◌≡◌, IfOk};

use crate::blob::Blob;
use crate::cell::Cell;
use crate::fault::NoMemory;
use crate::ids::{Ballot, Epoch, Oid, Pos};
use crate::layout::Projection;
use crate::list::List;
use crate::marks::StreamLink;

/// What a node asks of another, or answers.
pub enum Msg {
    // To units.
    Read {
        epoch: Epoch,
        pos: Pos,
    },
    Write {
        epoch: Epoch,
        pos: Pos,
        page: Blob,
    },
    Fill {
        epoch: Epoch,
        pos: Pos,
    },
    Copy {
        epoch: Epoch,
        pos: Pos,
        cell: Cell,
    },
    /// Whether the unit has a cell at each of `lo`, `lo + step`, .. below `hi`.
    Has {
        epoch: Epoch,
        lo: Pos,
        hi: Pos,
        step: u64,
    },
    Seal {
        epoch: Epoch,
    },
    Trim {
        epoch: Epoch,
        below: Pos,
    },
    // From units.
    Held,
    Taken {
        cell: Cell,
    },
    Unwritten,
    Gone {
        below: Pos,
    },
    Fenced {
        epoch: Epoch,
    },
    Sealed {
        epoch: Epoch,
        high: Pos,
    },
    Missing {
        pos: Pos,
    },
    Whole,
    // To layout servers.
    Prepare {
        epoch: Epoch,
        ballot: Ballot,
    },
    Accept {
        epoch: Epoch,
        ballot: Ballot,
        proj: Projection,
    },
    Decided {
        proj: Projection,
    },
    AskLatest,
    // From layout servers.
    Promise {
        epoch: Epoch,
        ballot: Ballot,
        accepted: Option<(Ballot, Projection)>,
    },
    Nack {
        epoch: Epoch,
        ballot: Ballot,
    },
    Accepted {
        epoch: Epoch,
        ballot: Ballot,
    },
    Latest {
        proj: Projection,
    },
    // To sequencers.
    Learn {
        proj: Projection,
    },
    Token {
        epoch: Epoch,
        oids: List<Oid>,
    },
    Check {
        epoch: Epoch,
        oids: List<Oid>,
    },
    // From sequencers.
    Issued {
        pos: Pos,
        links: List<StreamLink>,
    },
    Tail {
        tail: Pos,
        links: List<StreamLink>,
    },
    Scanning {
        next: Pos,
        start: Pos,
    },
    OldEpoch {
        epoch: Epoch,
    },
    Full {
        limit: u64,
    },
}

// By hand, since a derived drop is proved anew wherever a value is dropped.
impl Drop for Msg {
    fn drop(self) {
        match self {
            Msg::Read { epoch: _, pos: _ } => {}
            Msg::Write {
                epoch: _,
                pos: _,
                page: _,
            } => {}
            Msg::Fill { epoch: _, pos: _ } => {}
            Msg::Copy {
                epoch: _,
                pos: _,
                cell: _,
            } => {}
            Msg::Has {
                epoch: _,
                lo: _,
                hi: _,
                step: _,
            } => {}
            Msg::Seal { epoch: _ } => {}
            Msg::Trim { epoch: _, below: _ } => {}
            Msg::Held => {}
            Msg::Taken { cell: _ } => {}
            Msg::Unwritten => {}
            Msg::Gone { below: _ } => {}
            Msg::Fenced { epoch: _ } => {}
            Msg::Sealed { epoch: _, high: _ } => {}
            Msg::Missing { pos: _ } => {}
            Msg::Whole => {}
            Msg::Prepare {
                epoch: _,
                ballot: _,
            } => {}
            Msg::Accept {
                epoch: _,
                ballot: _,
                proj: _,
            } => {}
            Msg::Decided { proj: _ } => {}
            Msg::AskLatest => {}
            Msg::Promise {
                epoch: _,
                ballot: _,
                accepted: _,
            } => {}
            Msg::Nack {
                epoch: _,
                ballot: _,
            } => {}
            Msg::Accepted {
                epoch: _,
                ballot: _,
            } => {}
            Msg::Latest { proj: _ } => {}
            Msg::Learn { proj: _ } => {}
            Msg::Token { epoch: _, oids: _ } => {}
            Msg::Check { epoch: _, oids: _ } => {}
            Msg::Issued { pos: _, links: _ } => {}
            Msg::Tail { tail: _, links: _ } => {}
            Msg::Scanning { next: _, start: _ } => {}
            Msg::OldEpoch { epoch: _ } => {}
            Msg::Full { limit: _ } => {}
        }
    }
}

impl Msg {
    /// An equal message.
    pub fn copy(&self) -> Result<Msg, NoMemory>
        ensures { IfOk result (λ c. c ≡ self.now) }
    {
        match self {
            Msg::Read { epoch, pos } => Ok(Msg::Read {
                epoch: *epoch,
                pos: *pos,
            }),
            Msg::Write { epoch, pos, page } => Ok(Msg::Write {
                epoch: *epoch,
                pos: *pos,
                page: page.copy()?,
            }),
            Msg::Fill { epoch, pos } => Ok(Msg::Fill {
                epoch: *epoch,
                pos: *pos,
            }),
            Msg::Copy { epoch, pos, cell } => Ok(Msg::Copy {
                epoch: *epoch,
                pos: *pos,
                cell: cell.copy()?,
            }),
            Msg::Has {
                epoch,
                lo,
                hi,
                step,
            } => Ok(Msg::Has {
                epoch: *epoch,
                lo: *lo,
                hi: *hi,
                step: *step,
            }),
            Msg::Seal { epoch } => Ok(Msg::Seal { epoch: *epoch }),
            Msg::Trim { epoch, below } => Ok(Msg::Trim {
                epoch: *epoch,
                below: *below,
            }),
            Msg::Held => Ok(Msg::Held),
            Msg::Taken { cell } => Ok(Msg::Taken { cell: cell.copy()? }),
            Msg::Unwritten => Ok(Msg::Unwritten),
            Msg::Gone { below } => Ok(Msg::Gone { below: *below }),
            Msg::Fenced { epoch } => Ok(Msg::Fenced { epoch: *epoch }),
            Msg::Sealed { epoch, high } => Ok(Msg::Sealed {
                epoch: *epoch,
                high: *high,
            }),
            Msg::Missing { pos } => Ok(Msg::Missing { pos: *pos }),
            Msg::Whole => Ok(Msg::Whole),
            Msg::Prepare { epoch, ballot } => Ok(Msg::Prepare {
                epoch: *epoch,
                ballot: *ballot,
            }),
            Msg::Accept {
                epoch,
                ballot,
                proj,
            } => Ok(Msg::Accept {
                epoch: *epoch,
                ballot: *ballot,
                proj: proj.copy()?,
            }),
            Msg::Decided { proj } => Ok(Msg::Decided { proj: proj.copy()? }),
            Msg::AskLatest => Ok(Msg::AskLatest),
            Msg::Promise {
                epoch,
                ballot,
                accepted,
            } => Ok(Msg::Promise {
                epoch: *epoch,
                ballot: *ballot,
                accepted: accepted.clone()?,
            }),
            Msg::Nack { epoch, ballot } => Ok(Msg::Nack {
                epoch: *epoch,
                ballot: *ballot,
            }),
            Msg::Accepted { epoch, ballot } => Ok(Msg::Accepted {
                epoch: *epoch,
                ballot: *ballot,
            }),
            Msg::Latest { proj } => Ok(Msg::Latest { proj: proj.copy()? }),
            Msg::Learn { proj } => Ok(Msg::Learn { proj: proj.copy()? }),
            Msg::Token { epoch, oids } => Ok(Msg::Token {
                epoch: *epoch,
                oids: oids.clone()?,
            }),
            Msg::Check { epoch, oids } => Ok(Msg::Check {
                epoch: *epoch,
                oids: oids.clone()?,
            }),
            Msg::Issued { pos, links } => Ok(Msg::Issued {
                pos: *pos,
                links: links.clone()?,
            }),
            Msg::Tail { tail, links } => Ok(Msg::Tail {
                tail: *tail,
                links: links.clone()?,
            }),
            Msg::Scanning { next, start } => Ok(Msg::Scanning {
                next: *next,
                start: *start,
            }),
            Msg::OldEpoch { epoch } => Ok(Msg::OldEpoch { epoch: *epoch }),
            Msg::Full { limit } => Ok(Msg::Full { limit: *limit }),
        }
    }
}
