//! Reading bytes field by field, with the place of the first byte that no lawful field has, and
//! writing them. Formats are put together from the words of `specs/Codec.antt`, which have their law
//! in `proofs/`: what is read is spelled so, and what is spelled so is read, whatever follows.
#![tactic(auto)]

mod above;
mod fault;
mod items;
mod owed;
mod read;
mod streams;
mod whole;
mod write;

pub use above::{raw_above, raw_in, tops};
pub use fault::{BytesFault, ReadFault};
pub use items::{Item, Measured, read_items, size_items, write_items};
pub use owed::{Owed, points};
pub use read::{blob, fixed, number, raw, text, u8_in, u16_in, u32_in, u64_in};
pub use streams::{
    LINK, Links, backs_of, links_in, oid_from, oid_in, put_backs, put_links, size_links,
};
pub use whole::{ended, refused};
pub use write::{put_text, put_u16, put_u32, put_u64, put_zeros};
