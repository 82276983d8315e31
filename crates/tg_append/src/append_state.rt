//! How far an append has come.

use crate::token::Token;
use tg_chain::{FillCell, PutCell};

/// The sequencer is asked for a token, the page is put at the token's position, or the position of a token of
/// an older epoch is settled.
#[derive(Drop)]
pub enum AppendState {
    Asks { rid: u64 },
    Puts { token: Token, put: PutCell },
    Judges { token: Token, fill: FillCell },
}
