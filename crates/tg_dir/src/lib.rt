//! The directory: the objects by name, in order of registration, and how far each has been forgotten.
#![tactic(auto)]

mod bytes;
mod directory;
mod listing;
mod object;
mod spelling;

pub use directory::{Directory, DirectoryAns, DirectoryAsk, DirectoryOp};
pub use listing::Listing;
pub use object::Object;
pub use spelling::put_spelling;
