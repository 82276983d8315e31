//! What the judge of transcripts says is true: a transcript has no fault exactly where its run is legal. A law over
//! the definitions of `tg_model`, the contract of an empty function.
#![tactic(auto)]

mod laws;

pub use laws::verdicts_are_true;
