//! How machines end.

/// How a trim ends.
#[derive(Drop)]
pub enum TrimEnd {
    /// Every unit of the layout has answered that all below a position is gone.
    AllTrimmed,
}
