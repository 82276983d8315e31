//! Promises of layout servers.

ghost use Rattle.std.specs.Prelude.{◌≡◌, IfOk};
ghost use Rattle.tg_protocol.specs.Words.{ballot_lt};
ghost use Rattle.tg_protocol.specs.Reconfiguring.{greater as greater_of, greatest as greatest_of, value_or, is_of_epoch as is_before_of};

use crate::vote::Accepted;
use tg_base::{Ballot, Epoch, List, NoMemory, Projection};

/// A copy of what a promise tells.
pub fn copy_of(accepted: &Accepted) -> Result<Accepted, NoMemory>
    ensures { IfOk result (λ a. a ≡ accepted.now) }
{
    match accepted {
        None => Ok(None),
        Some((ballot, proj)) => Ok(Some((*ballot, proj.copy()?))),
    }
}

/// Whether what a promise tells is a layout of this epoch, if it tells one.
pub fn is_of_epoch(accepted: &Accepted, epoch: Epoch) -> bool
    ensures { result ≡ is_before_of epoch accepted.now }
{
    match accepted {
        None => true,
        Some((_, proj)) => proj.epoch == epoch,
    }
}

/// The layout to be accepted: the one of the greatest ballot that the promises tell, or the client's own.
pub fn value_of(promises: List<Accepted>, own: &Projection) -> Result<Projection, NoMemory>
    ensures { IfOk result (λ q. q ≡ value_or (greatest_of promises) own.now) }
{
    match greatest(promises) {
        Some((_, proj)) => Ok(proj),
        None => own.copy(),
    }
}

/// What the promise of the greatest ballot tells.
fn greatest(mut promises: List<Accepted>) -> Accepted
    ensures { result ≡ greatest_of promises }
{
    if promises.is_empty() {
        return None;
    }
    let first = promises.remove(0);
    greater(first, greatest(promises))
}

/// The one of the greater ballot.
fn greater(one: Accepted, other: Accepted) -> Accepted
    ensures { result ≡ greater_of one other }
{
    match one {
        None => other,
        Some((ballot, proj)) => match other {
            None => Some((ballot, proj)),
            Some((second, later)) => {
                if is_below(ballot, second) {
                    Some((second, later))
                } else {
                    Some((ballot, proj))
                }
            }
        },
    }
}

/// Whether a ballot is below another: by round, then by client.
fn is_below(ballot: Ballot, other: Ballot) -> bool
    ensures { result ≡ ballot_lt ballot other }
{
    ballot < other
}
