//! Why a layout may not change.

use tg_base::Many;
use thiserror::Error;

/// Why a change is refused. Ranges and stripes count from 0.
#[derive(Clone, Copy, Debug, PartialEq, Eq, Error)]
pub enum ProjFault {
    /// The stripe would be empty.
    #[error("no unit would stay in stripe {stripe} of range {range}")]
    NoReplica { range: usize, stripe: usize },
    /// A unit of the next layout has no ack.
    #[error("unit {unit} has no ack")]
    NotAcked { unit: u16 },
    /// The unit was dropped, or is dropped by this change.
    #[error("unit {unit} was dropped")]
    Returned { unit: u16 },
    /// A 33rd range, or a sixth unit of a chain.
    #[error("too many {what:?}")]
    TooMany { what: Many },
    /// A unit may join no chain of the last range.
    #[error("range {range} isn't closed")]
    NotClosed { range: usize },
    /// The range has no such stripe.
    #[error("range {range} has no stripe {stripe}")]
    NoStripe { range: usize, stripe: usize },
    /// The unit stands in that chain.
    #[error("unit {unit} stands in that chain")]
    InChain { unit: u16 },
}
