//! What an acceptor keeps of one epoch.

ghost use Rattle.std.specs.Prelude.{◌≡◌, IfOk};
ghost use Rattle.tg_protocol.specs.Words.{ballot_lt};
ghost use Rattle.tg_protocol.specs.LayoutServers.{no_vote};

use std::marker::Model;
use tg_base::{Ballot, NoMemory, Projection};

/// The greatest ballot promised so far, and the last accepted one with its layout.
#[derive(Drop)]
pub struct Vote {
    promised: Ballot,
    accepted: Option<(Ballot, Projection)>,
}

impl Model for Vote {
    ghost use Rattle.tg_protocol.specs.LayoutServers.{Vote as Kept};

    ghost Value = { Kept };

    ghost view = { λ v. record { promised = v.promised; accepted = v.accepted } };
}

impl Vote {
    /// Nothing is promised: a ballot below all others stands there.
    pub fn new() -> Vote
        ensures { result ≡ no_vote }
    {
        Vote {
            promised: Ballot {
                round: 0,
                client: 0,
            },
            accepted: None,
        }
    }

    /// After the promise of a ballot.
    pub fn promise(ballot: Ballot, accepted: Option<(Ballot, Projection)>) -> Vote
        ensures { result ≡ record { promised = ballot; accepted = accepted } }
    {
        Vote {
            promised: ballot,
            accepted,
        }
    }

    /// After a ballot's layout is accepted.
    pub fn accept(ballot: Ballot, layout: Projection) -> Vote
        ensures { result ≡ record { promised = ballot; accepted = Some (ballot, layout) } }
    {
        Vote {
            promised: ballot,
            accepted: Some((ballot, layout)),
        }
    }

    /// The greatest ballot promised.
    pub fn promised(&self) -> Ballot
        ensures { result ≡ self.now.promised }
    {
        self.promised
    }

    /// A copy of what is accepted.
    pub fn accepted(&self) -> Result<Option<(Ballot, Projection)>, NoMemory>
        ensures { IfOk result (λ a. a ≡ self.now.accepted) }
    {
        match &self.accepted {
            None => Ok(None),
            Some((ballot, layout)) => Ok(Some((*ballot, layout.copy()?))),
        }
    }
}

/// Whether a ballot is below another: by round, then by client.
pub fn is_below(ballot: Ballot, other: Ballot) -> bool
    ensures { result ≡ ballot_lt ballot other }
{
    ballot < other
}
