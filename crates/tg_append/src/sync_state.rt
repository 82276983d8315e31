//! How far a sync has come.

use crate::token::Answer;
use tg_chain::{FillCell, Probe};

/// The sequencer is asked for the tail, the last position below it is settled, or its chain is probed.
#[derive(Drop)]
pub enum SyncState {
    Checks { rid: u64 },
    Settles { answer: Answer, fill: FillCell },
    Probes { answer: Answer, probe: Probe },
}
