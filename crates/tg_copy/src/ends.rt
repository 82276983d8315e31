//! How machines end.

/// How a copy ends.
#[derive(Drop)]
pub enum CopyEnd {
    /// The spare has answered that it has each position of the stripe.
    Whole,
}
